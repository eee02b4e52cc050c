// The pieces of a text: blanks, comments and tokens, each to its end.
// The text goes whole with a place in it, and is not cut off before it: the ends that are answered are places in the whole text.
ghost use Rattle.std.specs.Prelude.{◌<◌, ◌≤◌, ◌≡◌, length, drop, get_or};
ghost use Rattle.tokens.specs.Lex.{begins, next};
ghost use Rattle.tokens.specs.Code.Found.{found_at, is_blank};

use crate::atoms::{identifier_or_variable, number_at};
use crate::characters::Characters;
use crate::kinds::Kind;
use names::{digit_byte, letter_byte};

const BACKSLASH: char = '\\';

// A piece by the byte where it ends: a blank or a comment, or a token with its kind.
#[derive(Clone, Copy, PartialEq, Eq, Debug)]
pub enum Found {
    Between(usize),
    Token(Kind, usize),
}

// Do these bytes stand here?
fn stands_at(text: &[u8], at: usize, bytes: &[u8]) -> bool
    requires { at ≤ length text.now }
    ensures { result ≡ begins bytes.now (drop at text.now) }
{
    text[at..].starts_with(bytes)
}

// The quoted run at a quote.
fn quoted_at(text: &[u8], at: usize) -> Option<Found>
    requires { (length text.now ≤ 4096) × (at < length text.now) × (get_or text.now at 0 ≡ 39) }
    ensures { result ≡ found_at at (next (drop at text.now)) }
{
    let first = at + 1;
    for (i, c) in (Characters { text, at: first }) {
        if c == '\'' {
            if i == first {
                return None;
            }
            return Some(Found::Token(Kind::Quoted, i + 1));
        }
        if c == BACKSLASH {
            return None;
        }
    }
    None
}

// The comment at a slash.
fn comment_at(text: &[u8], at: usize) -> Option<Found>
    requires { (length text.now ≤ 4096) × (at < length text.now) × (get_or text.now at 0 ≡ 47) }
    ensures { result ≡ found_at at (next (drop at text.now)) }
{
    if !stands_at(text, at + 1, b"*") {
        return None;
    }
    for (i, c) in (Characters { text, at: at + 2 }) {
        if c == '*' && stands_at(text, i, b"*/") {
            return Some(Found::Between(i + 2));
        }
    }
    None
}

// `$ENTRY` or `$EXTERN`, at a dollar sign.
fn dollar_at(text: &[u8], at: usize) -> Option<Found>
    requires { (at < length text.now) × (get_or text.now at 0 ≡ 36) }
    ensures { result ≡ found_at at (next (drop at text.now)) }
{
    if stands_at(text, at, b"$ENTRY") {
        Some(Found::Token(Kind::Entry, at + 6))
    } else if stands_at(text, at, b"$EXTERN") {
        Some(Found::Token(Kind::Extern, at + 7))
    } else {
        None
    }
}

// A space, a line feed, a tab or a carriage return?
fn is_blank(c: u8) -> bool
    ensures { result ≡ is_blank c }
{
    matches!(c, b' ' | b'\n' | b'\t' | b'\r')
}

// The piece at a byte.
pub fn next_piece(text: &[u8], at: usize) -> Option<Found>
    requires { (length text.now ≤ 4096) × (at < length text.now) }
    ensures { result ≡ found_at at (next (drop at text.now)) }
{
    match text[at] {
        c if digit_byte(c) => Some(number_at(text, at)),
        c if letter_byte(c) => Some(identifier_or_variable(text, at)),
        c if is_blank(c) => Some(Found::Between(at + 1)),
        b'\'' => quoted_at(text, at),
        b'/' => comment_at(text, at),
        b'$' => dollar_at(text, at),
        c => Some(Found::Token(Kind::of_sign(c)?, at + 1)),
    }
}
