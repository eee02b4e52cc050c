// The loose test, which comes before a search: does a pattern match a row, each occurrence of a variable taken for a variable of its own? No values
// are kept and nothing is gone back to.
//
// The text, a pattern and a row go one by one, since each step cuts off from the pattern, the row or both.
ghost use Rattle.std.specs.Prelude.{◌≡◌, true, false, List, ℕ, ◌+◌, ◌≤◌, length};
ghost use Rattle.file.specs.Word.{word_at};
ghost use Rattle.matching.specs.Code.Part.{row_of};
ghost use Rattle.searches.specs.Code.Capacity.{variables_in};
ghost use Rattle.sentences.specs.Code.Loose.{once_each};
ghost use Rattle.sentences.specs.Code.Greedy.{opens};
ghost use Rattle.matching.specs.Order.{terms_in};
ghost use Rattle.sentences.specs.Code.Ahead.{passes, front_in, leftmost_in, end_passes, ahead_of, AheadIn, OpenStart, fits_first, Skipped};

use file::{term_at, word_at};
use law::runs::end_of;
use law::whole::{Terms, after};
use matching::atoms::{atoms_same, characters_same, is_bracket};
use matching::terms::may_stand;
use searches::repeats::again;

// Has a pattern an e. variable outside brackets?
fn has_open(pattern: &[u8]) -> bool
    ensures { (text : List ℕ) → result ≡ opens (row_of text pattern.now) }
{
    Terms(pattern).any(|part| word_at(part, 0) == 5)
}

// How many terms a part has; brackets are one term.
pub fn terms_in(part: &[u8]) -> usize
    ensures { ((text : List ℕ) → result ≡ terms_in (row_of text part.now)) × (result ≤ length part.now) }
{
    Terms(part).count()
}

// What a row has after so many terms.
fn skip(row: &[u8], count: usize) -> &[u8]
    requires { (text : List ℕ) → count ≤ terms_in (row_of text row.now) }
    ensures { Skipped row.now count result.now }
{
    let mut left = row;
    for _ in 0..count {
        left = after(left);
    }
    left
}

// May the first term of a pattern, no e. variable, stand for the first term of a row? A bracket asks about the contents.
#[cycle(fits_front_last_leftmost_loose_loose_open)]
fn fits(text: &[u8], pattern: &[u8], row: &[u8]) -> bool
    requires { (24 ≤ length pattern.now) × (24 ≤ length row.now) }
    ensures { result ≡ fits_first text.now pattern.now row.now }
{
    match word_at(pattern, 0) {
        0 => characters_same(pattern, row),
        1 | 2 => atoms_same(text, pattern, row),
        6 => {
            let contents = &pattern[24..end_of(pattern)];
            is_bracket(row) && loose(text, contents, &row[24..end_of(row)])
        }
        _ => may_stand(term_at(pattern, 0), term_at(row, 0)),
    }
}

// What a pattern has from its first e. variable on, and a row after what the terms before that variable stand for; none where they stand for no front of the
// row.
#[cycle(fits_front_last_leftmost_loose_loose_open)]
fn front<'a>(text: &[u8], pattern: &'a [u8], row: &'a [u8]) -> Option<(&'a [u8], &'a [u8])>
    ensures { AheadIn pattern.now result
        × (ahead_of text.now result ≡ front_in (row_of text.now pattern.now) (row_of text.now row.now)) }
{
    let mut left = pattern;
    let mut right = row;
    // Both go on by a term at a time, whose size varies.
    while 24 <= left.len() && word_at(left, 0) != 5 {
        if right.len() < 24 || !fits(text, left, right) {
            return None;
        }
        left = after(left);
        right = after(right);
    }
    Some((left, right))
}

// The same at the leftmost place of the row where it is had.
#[cycle(fits_front_last_leftmost_loose_loose_open)]
fn leftmost<'a>(text: &[u8], pattern: &'a [u8], row: &'a [u8]) -> Option<(&'a [u8], &'a [u8])>
    ensures { AheadIn pattern.now result
        × (ahead_of text.now result ≡ leftmost_in (row_of text.now pattern.now) (row_of text.now row.now)) }
{
    let mut right = row;
    // The last place is the end of the row, where no term is.
    loop {
        let ahead = front(text, pattern, right);
        if ahead.is_some() || right.len() < 24 {
            return ahead;
        }
        right = after(right);
    }
}

// A pattern without e. variables outside brackets, with an end of the row.
#[cycle(fits_front_last_leftmost_loose_loose_open)]
fn last(text: &[u8], pattern: &[u8], row: &[u8]) -> bool
    requires { opens (row_of text.now pattern.now) ≡ false }
    ensures { result ≡ end_passes (row_of text.now pattern.now) (row_of text.now row.now) }
{
    if pattern.len() < 24 {
        return true;
    }
    let terms = terms_in(pattern);
    let room = terms_in(row);
    terms <= room && loose(text, pattern, skip(row, room - terms))
}

// The loose test of a pattern that is empty or begins with an e. variable.
#[cycle(fits_front_last_leftmost_loose_loose_open)]
fn loose_open(text: &[u8], pattern: &[u8], row: &[u8]) -> bool
    requires { OpenStart (row_of text.now pattern.now) }
    ensures { result ≡ passes (row_of text.now pattern.now) (row_of text.now row.now) }
{
    let mut left = pattern;
    let mut right = row;
    // The pattern goes on by a segment at a time: an e. variable and the terms before the next.
    while 24 <= left.len() {
        let segment = after(left);
        if !has_open(segment) {
            return last(text, segment, right);
        }
        let Some((later, rest)) = leftmost(text, segment, right) else {
            return false;
        };
        left = later;
        right = rest;
    }
    right.len() < 24
}

// Does a pattern match a row, each occurrence of a variable taken for a variable of its own?
#[cycle(fits_front_last_leftmost_loose_loose_open)]
pub fn loose(text: &[u8], pattern: &[u8], row: &[u8]) -> bool
    ensures { result ≡ passes (row_of text.now pattern.now) (row_of text.now row.now) }
{
    match front(text, pattern, row) {
        None => false,
        Some((left, right)) => loose_open(text, left, right),
    }
}

// Do a pattern and a row begin with symbols that differ? Most pairs of sentences do.
pub fn parted(text: &[u8], pattern: &[u8], row: &[u8]) -> bool
    ensures { result ≡ true → passes (row_of text.now pattern.now) (row_of text.now row.now) ≡ false }
{
    if pattern.len() < 24 || row.len() < 24 {
        return false;
    }
    match word_at(pattern, 0) {
        0 => !characters_same(pattern, row),
        1 | 2 => !atoms_same(text, pattern, row),
        _ => false,
    }
}

// Does a pattern show that it has no variable twice? What stands inside calls is looked at too.
pub fn once(text: &[u8], pattern: &[u8]) -> bool
    ensures { result ≡ true → once_each (variables_in (row_of text.now pattern.now)) ≡ true }
{
    for i in 0..pattern.len() / 24 {
        let left = &pattern[24 * i..];
        if (3..=5).contains(&word_at(left, 0)) && again(text, left, &left[24..]) {
            return false;
        }
    }
    true
}
