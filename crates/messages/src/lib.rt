// The text of a finding, from its eight words: they name records of the law, where its names are spelled and its formats are found. What the text is
// stands in the crate `lints`, specs/Message.antt; what the words are, there in specs/Finding.antt.
#![tactic(auto)]

ghost use Rattle.std.specs.Prelude.{◌≡◌, ℕ, ◌+◌, ◌≤◌, ◌<◌, length};
ghost use mathlib.Core.List.{Memᴰ};
ghost use Rattle.file.specs.Sections.{file_of};
ghost use Rattle.law.specs.Tree.{Name};
ghost use Rattle.law.specs.Reading.{function_name, tree_of};
ghost use Rattle.buffers.specs.Code.Put.{Put, largest};
ghost use Rattle.buffers.specs.Code.Text.{Puts};
ghost use Rattle.lints.specs.Finding as finding;
ghost use Rattle.lints.specs.Finding.{dead, fails, failure_number, finding_words};
ghost use Rattle.lints.specs.Findings.{findings_of};
ghost use Rattle.lints.specs.Message.{claim_text, message};
ghost use Rattle.lints.specs.Code.Records.{formats_in, call_at};
ghost use Rattle.lints.specs.Code.Part.{failure_meant};
ghost use Rattle.messages.specs.Code.Spoken.{Spoken, CallHere, ComparedHere, in_block, apart_claim, recognition_claim};

use crate::texts::{put_by_formats, put_by_literals, put_dead, put_fails, put_open};
use buffers::Text;
use formats::held::Formats;
use law::AcceptedLaw;
use lints::builtin::Failure;
use lints::levels::Lint;
use lints::words::word;
use names::name_in;
use sentences::argument_of;

mod texts;

// The name of the call at a term record.
fn call_name<'a>(accepted: &AcceptedLaw<'a, '_>, t: usize) -> &'a [u8]
    requires { CallHere (file_of accepted.now.law.bytes.now) t }
    ensures { ((call_at (file_of accepted.now.law.bytes.now) t).name.spelled ≡ result.now) × (length result.now ≤ 4096) }
{
    let start = accepted.law.term_word(t, 4);
    let len = accepted.law.term_word(t, 8);
    name_in(accepted.law.text(), start, len)
}

// Lint 1: a sentence of a function, or of a block in it.
fn put_dead_sentence(
    text: &mut Text,
    accepted: &AcceptedLaw,
    position: usize,
    s: usize,
    later: usize,
    earlier: usize,
)
    requires { (position < (file_of accepted.now.law.bytes.now).functions.count) × (text.old.at + 16384 ≤ largest) }
    ensures { Puts text.old text.new (claim_text (function_name (file_of accepted.now.law.bytes.now) position)
        (dead (in_block (file_of accepted.now.law.bytes.now) s) later earlier)) }
{
    let owner = accepted.law.function_name(position);
    let in_block = accepted.law.first_sentence(accepted.law.functions()) <= s;
    put_dead(text, owner, in_block, later, earlier);
}

// Lint 2 by formats: that which the store has for the callee, and that of the argument, made anew.
fn put_apart(text: &mut Text, formats: &Formats, t: usize)
    requires { ComparedHere (file_of formats.now.law.law.bytes.now) formats.now.limit formats.now.store.now t × (text.old.at + 16384 ≤ largest) }
    ensures { (owner : Name)
        → Puts text.old text.new (claim_text owner (apart_claim (file_of formats.now.law.law.bytes.now) formats.now.limit formats.now.store.now t)) }
{
    let mut row = [0u32; 65];
    let passed = &mut row[..formats.limit + 1];
    let part = argument_of(&formats.law, t);
    let _ = formats.row_format(part, t + 1, passed); // it is not too wide, since the finding is listed
    let accepted = formats.argument(usize::from(formats.slots.calls[t]));
    put_by_formats(text, call_name(&formats.law, t), accepted, passed);
}

// Lint 2: a call that no sentence of its function matches, by formats (a = 1) or by literals.
fn put_recognition(text: &mut Text, formats: &Formats, t: usize, a: usize)
    requires { CallHere (file_of formats.now.law.law.bytes.now) t
        × (a ≡ 1 → ComparedHere (file_of formats.now.law.law.bytes.now) formats.now.limit formats.now.store.now t) × (text.old.at + 16384 ≤ largest) }
    ensures { (owner : Name)
        → Puts text.old text.new (claim_text owner (recognition_claim (file_of formats.now.law.law.bytes.now) formats.now.limit formats.now.store.now t a)) }
{
    if a == 1 {
        put_apart(text, formats, t);
    } else {
        put_by_literals(text, call_name(&formats.law, t));
    }
}

// Why a builtin call fails, by its number.
fn failure_by(number: usize) -> Failure
    ensures { (why : finding.Failure) → failure_number why ≡ number → why ≡ failure_meant result }
{
    match number {
        1 => Failure::TwoIntegersWanted,
        2 => Failure::DivisionByZero,
        _ => Failure::DigitsWanted,
    }
}

// Lint 3: why the builtin call at a term record fails.
fn put_builtin(text: &mut Text, accepted: &AcceptedLaw, t: usize, a: usize)
    requires { CallHere (file_of accepted.now.law.bytes.now) t × (text.old.at + 16384 ≤ largest) }
    ensures { (owner : Name) (why : finding.Failure) → failure_number why ≡ a
        → Puts text.old text.new (claim_text owner (fails (call_at (file_of accepted.now.law.bytes.now) t).name why)) }
{
    put_fails(text, call_name(accepted, t), failure_by(a));
}

// The text of a finding, from its eight words.
fn put_claim(text: &mut Text, formats: &Formats, words: &[u32])
    requires { Spoken (file_of formats.now.law.law.bytes.now) formats.now.limit formats.now.store.now words.now × (text.old.at + 16384 ≤ largest) }
    ensures { (f : finding.Finding) (severity : ℕ)
        → Memᴰ f (findings_of (tree_of (file_of formats.now.law.law.bytes.now)) (formats_in (file_of formats.now.law.law.bytes.now) formats.now.limit formats.now.store.now))
        → words.now ≡ finding_words severity f → Puts text.old text.new (message f) }
{
    let accepted = &formats.law;
    let a = word(words, 4);
    let b = word(words, 5);
    let position = word(words, 6);
    let subject = word(words, 7);
    match Lint::try_from(words[0]) {
        Ok(Lint::Dead) => put_dead_sentence(text, accepted, position, subject, a, b),
        Ok(Lint::Recognition) => put_recognition(text, formats, subject, a),
        Ok(Lint::Builtin) => put_builtin(text, accepted, subject, a),
        Ok(Lint::Open) => put_open(text, accepted.law.function_name(position), a),
        Err(_) => unreachable!(), // no finding has such a number
    }
}

// The text of a finding, from its eight words, put at the start of a buffer as far as there is room; its length in any case.
pub fn put_message(formats: &Formats, words: &[u32], out: &mut [u8]) -> usize
    requires { Spoken (file_of formats.now.law.law.bytes.now) formats.now.limit formats.now.store.now words.now }
    ensures { (f : finding.Finding) (severity : ℕ)
        → Memᴰ f (findings_of (tree_of (file_of formats.now.law.law.bytes.now)) (formats_in (file_of formats.now.law.law.bytes.now) formats.now.limit formats.now.store.now))
        → words.now ≡ finding_words severity f → Put out.old 0 (message f) result out.new }
{
    let mut text = Text { out, at: 0 };
    put_claim(&mut text, formats, words);
    text.at
}
