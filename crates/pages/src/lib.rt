// The listing on a page, from the eight words of each finding: they name functions of the law, where their names are spelled. What a page is stands in
// specs/Page.antt; what the words are, in the crate `lints`, specs/Finding.antt.
//
// Each function puts its bytes after what stands there, as far as there is room.
#![tactic(auto)]

ghost use Rattle.std.specs.Prelude.{◌≡◌, true, ◌+◌, ◌*◌, ◌≤◌, ◌<◌, length, get_or};
ghost use mathlib.Core.List.{flatten};
ghost use Rattle.file.specs.Sections.{file_of};
ghost use Rattle.file.specs.Fields.{fields_allowed};
ghost use Rattle.buffers.specs.Code.Put.{Put, largest};
ghost use Rattle.buffers.specs.Code.Text.{Puts};
ghost use Rattle.pages.specs.Page.{next_field, left, severity_word, heading, heading_before, page_length};
ghost use Rattle.pages.specs.Code.Lines.{lint_word_by, word_fields, line_at, words_page, Positions};

use crate::fields::{put_name, put_number, put_spaces};
use buffers::Text;
use law::{AllowedLaw, Law};
use lints::words::word;

mod fields;

// The lines of a page under its heading.
const UNDER: usize = 59;

// The bytes of a line: its columns and a line feed.
const LINE: usize = 73;

// The field of a lint, by its number, after a space.
// It is asked by a number, since `lint_word_by` of specs/Code/Lines.antt has a word for each, also for one that no lint has.
fn lint_field(lint: usize) -> &'static [u8]
    ensures { result.now ≡ next_field (left 8 (lint_word_by lint)) }
{
    match lint {
        1 => b" dead    ",
        2 => b" no match",
        3 => b" builtin ",
        _ => b" open    ",
    }
}

// The field of a severity, by its number, after a space.
// Not one table with the lints: other numbers, other words and another width.
fn severity_field(severity: usize) -> &'static [u8]
    ensures { result.now ≡ next_field (left 5 (severity_word severity)) }
{
    match severity {
        0 => b" error",
        1 => b" deny ",
        2 => b" warn ",
        _ => b" allow",
    }
}

// The first fields of a line, which hold words.
fn put_words(text: &mut Text, allowed: &AllowedLaw, words: &[u32], first: usize)
    requires { (first + 8 ≤ length words.now) × (get_or words.now (first + 6) 0 < (file_of allowed.now.law.bytes.now).functions.count) × (text.old.at + 512 ≤ largest) }
    ensures { Puts text.old text.new (word_fields (file_of allowed.now.law.bytes.now) words.now first) }
{
    put_name(text, allowed.law.function_name(word(words, first + 6)));
    text.put(lint_field(word(words, first)));
    text.put(severity_field(word(words, first + 1)));
}

// The line of the finding whose words begin at a position.
fn put_line(text: &mut Text, allowed: &AllowedLaw, words: &[u32], first: usize)
    requires { (first + 8 ≤ length words.now) × (get_or words.now (first + 6) 0 < (file_of allowed.now.law.bytes.now).functions.count) × (text.old.at + 1024 ≤ largest) }
    ensures { Puts text.old text.new (line_at (file_of allowed.now.law.bytes.now) words.now first) }
{
    put_words(text, allowed, words, first);
    put_number(text, word(words, first + 2));
    put_number(text, word(words, first + 3));
    put_number(text, word(words, first + 4));
    text.put_byte(b'\n');
}

// The heading of a page: the number of functions, and its own.
fn put_head(text: &mut Text, functions: usize, number: usize)
    requires { (number < 10000000000) × (text.old.at + 1024 ≤ largest) }
    ensures { Puts text.old text.new (heading functions number) }
{
    let start = text.at;
    text.put_decimal(functions);
    put_spaces(text, 61 + start - text.at);
    put_number(text, number);
    text.put_byte(b'\n');
}

// The heading of a page in a buffer.
pub fn put_heading(functions: usize, number: usize, out: &mut [u8], at: usize) -> usize
    requires { (number < 10000000000) × (at + 1024 ≤ largest) }
    ensures { Put out.old at (heading functions number) result out.new }
{
    let mut text = Text { out, at };
    put_head(&mut text, functions, number);
    text.at
}

// The heading that stands before the finding at a position, where one does.
fn put_heading_before(text: &mut Text, functions: usize, i: usize)
    requires { (i ≤ 4294967296) × (text.old.at + 1024 ≤ largest) }
    ensures { Puts text.old text.new (flatten (heading_before functions i)) }
{
    if i % UNDER != 0 {
        return;
    }
    put_head(text, functions, i / UNDER + 1);
}

// The bytes of a page with so many findings.
pub fn page_length(count: usize) -> usize
    requires { count ≤ 256 }
    ensures { result ≡ page_length count }
{
    LINE * (count + count.saturating_sub(1) / UNDER + 1)
}

// The lines of so many findings, by their words, with the headings between them, from the start of a buffer on.
// The number goes beside the words, as `words_page` takes both (specs/Code/Lines.antt): more words may be lent than the findings have.
fn put_lines(text: &mut Text, allowed: &AllowedLaw, words: &[u32], count: usize)
    requires { (count ≤ 256) × (8 * count ≤ length words.now) × Positions (file_of allowed.now.law.bytes.now) words.now count × (text.old.at ≡ 0) }
    ensures { Puts text.old text.new (words_page (file_of allowed.now.law.bytes.now) words.now count) }
{
    let functions = allowed.law.functions();
    if count == 0 {
        put_head(text, functions, 1);
        return;
    }
    for i in 0..count {
        put_heading_before(text, functions, i);
        put_line(text, allowed, words, 8 * i);
    }
}

// The page of so many findings, by their words, put at the start of a buffer as far as there is room; its length in any case.
pub fn put_page(law: &Law, words: &[u32], count: usize, out: &mut [u8]) -> usize
    requires { (fields_allowed (file_of law.now.bytes.now) ≡ true) × (count ≤ 256) × (8 * count ≤ length words.now) × Positions (file_of law.now.bytes.now) words.now count }
    ensures { Put out.old 0 (words_page (file_of law.now.bytes.now) words.now count) result out.new }
{
    let allowed = AllowedLaw { law: *law };
    let mut text = Text { out, at: 0 };
    put_lines(&mut text, &allowed, words, count);
    text.at
}
