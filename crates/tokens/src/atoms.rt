// Identifiers, variables and numbers of a text, each to its end.
// The text goes whole with a place in it, as in src/pieces.rt.
ghost use Rattle.std.specs.Prelude.{ℕ, Bool, ◌+◌, ◌<◌, ◌≤◌, true, ◌≡◌, Some, MatchOption, length, drop, get_or};
ghost use Rattle.names.specs.Name.{digit_byte, letter_byte};
ghost use Rattle.tokens.specs.Lex.{leading, next};
ghost use Rattle.tokens.specs.Code.Found.{index_ends, found_at, IdentifierAt};

use crate::kinds::Kind;
use crate::pieces::Found;
use names::{digit_byte, name_byte};

// Where the bytes from one on that pass a test end.
fn leading_end<F: Fn(u8) -> bool>(text: &[u8], at: usize, passes: F) -> usize
    requires inside { at ≤ length text.now }
    requires callable { F.IsAlwaysCallable passes }
    ensures within { result ≤ length text.now }
    ensures end { (test : ℕ → Bool) → ((c : ℕ) (b : Bool) → c < 256 → F.post passes c b → b ≡ test c) → result ≡ at + length (leading test (drop at text.now)) }
{
    for i in at..text.len() {
        if !passes(text[i]) {
            return i;
        }
    }
    text.len()
}

// Where the index after a point at a byte ends, if both stand there.
fn index_end(text: &[u8], at: usize) -> Option<usize>
    requires { at ≤ length text.now }
    ensures { result ≡ index_ends at (drop at text.now) }
{
    if at == text.len() || text[at] != b'.' {
        return None;
    }
    let first = at + 1;
    let end = leading_end(text, first, name_byte);
    (first < end).then_some(end)
}

// The variable that begins with the letter at a byte, if one does; else the name that does is the longest token that fits.
fn variable_at(text: &[u8], at: usize) -> Option<Found>
    requires { (at < length text.now) × (letter_byte (get_or text.now at 0) ≡ true) }
    ensures { MatchOption result (IdentifierAt at (drop at text.now)) (λ found. Some found ≡ found_at at (next (drop at text.now))) }
{
    let kind = Kind::of_letter(text[at])?;
    let end = index_end(text, at + 1)?;
    Some(Found::Token(kind, end))
}

// The token that begins with the letter at a byte: the longest that fits.
pub fn identifier_or_variable(text: &[u8], at: usize) -> Found
    requires { (at < length text.now) × (letter_byte (get_or text.now at 0) ≡ true) }
    ensures { Some result ≡ found_at at (next (drop at text.now)) }
{
    match variable_at(text, at) {
        Some(variable) => variable,
        None => Found::Token(Kind::Identifier, leading_end(text, at + 1, name_byte)),
    }
}

// The number that begins with the digit at a byte.
pub fn number_at(text: &[u8], at: usize) -> Found
    requires { (at < length text.now) × (digit_byte (get_or text.now at 0) ≡ true) }
    ensures { Some result ≡ found_at at (next (drop at text.now)) }
{
    Found::Token(Kind::Number, leading_end(text, at + 1, digit_byte))
}
