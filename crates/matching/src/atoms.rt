// Symbols and variables compared; and brackets told from both.
ghost use Rattle.std.specs.Prelude.{◌≡◌, List, ℕ, ◌≤◌, ◌<◌, length, take, drop};
ghost use Rattle.file.specs.Word.{word_at};
ghost use Rattle.file.specs.Head.{term_at};
ghost use Rattle.matching.specs.Shadow.{same_atom};
ghost use Rattle.matching.specs.Code.Part.{is_bracket, atom_of};

use file::word_at;
use names::{indices_equal, names_equal};
use numbers::numbers_equal;

// The part of the text from a position on, so many bytes or up to the end.
pub fn spelled(text: &[u8], start: u32, len: u32) -> &[u8]
    ensures { result.now ≡ take len (drop start text.now) }
{
    let from = text.len().min(start as usize);
    let end = text.len().min(from + len as usize);
    &text[from..end]
}

// Is the character that stands first in one part the first record of the other?
pub fn characters_same(x: &[u8], y: &[u8]) -> bool
    requires { (24 ≤ length x.now) × (24 ≤ length y.now) × (word_at x.now 0 ≡ 0) }
    ensures { (text : List ℕ) → result ≡ same_atom (atom_of text (term_at x.now 0)) (atom_of text (term_at y.now 0)) }
{
    word_at(y, 0) == 0 && word_at(x, 4) == word_at(y, 4)
}

// Is the symbol that stands first in one part the first record of the other?
fn symbols_same(text: &[u8], x: &[u8], y: &[u8]) -> bool
    requires { (24 ≤ length x.now) × (24 ≤ length y.now) × (word_at x.now 0 < 3) }
    ensures { result ≡ same_atom (atom_of text.now (term_at x.now 0)) (atom_of text.now (term_at y.now 0)) }
{
    let kind = word_at(x, 0);
    if kind == 0 {
        return characters_same(x, y);
    }
    if kind != word_at(y, 0) {
        return false;
    }
    let a = spelled(text, word_at(x, 4), word_at(x, 8));
    let b = spelled(text, word_at(y, 4), word_at(y, 8));
    if kind == 1 {
        names_equal(a, b)
    } else {
        numbers_equal(a, b)
    }
}

// Is the variable that stands first in one part the first record of the other? A bracket, a call or a block is the same as no record.
pub fn variables_same(text: &[u8], x: &[u8], y: &[u8]) -> bool
    requires { (24 ≤ length x.now) × (24 ≤ length y.now) }
    ensures { 2 < word_at x.now 0 → result ≡ same_atom (atom_of text.now (term_at x.now 0)) (atom_of text.now (term_at y.now 0)) }
{
    let kind = word_at(x, 0);
    if kind != word_at(y, 0) {
        return false;
    }
    let a = spelled(text, word_at(x, 4), word_at(x, 8));
    let b = spelled(text, word_at(y, 4), word_at(y, 8));
    kind < 6 && indices_equal(a, b)
}

// Are the first records of these parts the same symbol or the same variable?
pub fn atoms_same(text: &[u8], x: &[u8], y: &[u8]) -> bool
    requires { (24 ≤ length x.now) × (24 ≤ length y.now) }
    ensures { result ≡ same_atom (atom_of text.now (term_at x.now 0)) (atom_of text.now (term_at y.now 0)) }
{
    if word_at(x, 0) < 3 {
        symbols_same(text, x, y)
    } else {
        variables_same(text, x, y)
    }
}

// Is the first record of this part a bracket?
pub fn is_bracket(part: &[u8]) -> bool
    requires { 24 ≤ length part.now }
    ensures { result ≡ is_bracket (term_at part.now 0) }
{
    word_at(part, 0) == 6
}
