// Whether a row begins with a variable's value.
ghost use Rattle.std.specs.Prelude.{◌≡◌, ◌≤◌, length};
ghost use Rattle.matching.specs.Match.{after};
ghost use Rattle.matching.specs.Shadow.{same_atom};
ghost use Rattle.matching.specs.Code.Part.{row_of, same_first};
ghost use Rattle.matching.specs.Code.Step.{begins_with, BeginsIn};

use crate::atoms::{atoms_same, is_bracket};
use law::runs::end_of;
use law::whole;
use law::whole::Terms;

// Are the first terms of these parts the same? Brackets ask about their contents.
#[cycle(begins_same_first)]
fn same_first(text: &[u8], value: &[u8], row: &[u8]) -> bool
    requires { (24 ≤ length value.now) × (24 ≤ length row.now) }
    ensures { result ≡ same_first text.now value.now row.now }
{
    if !is_bracket(value) {
        return atoms_same(text, value, row);
    }
    if !is_bracket(row) {
        return false;
    }
    let inside = &row[24..end_of(row)];
    match begins(text, &value[24..end_of(value)], inside) {
        Some(k) => inside.len() < k + 24,
        None => false,
    }
}

// The position in a row after the terms of a value, if the row begins with them.
#[cycle(begins_same_first)]
pub fn begins(text: &[u8], value: &[u8], row: &[u8]) -> Option<usize>
    ensures { BeginsIn row.now result
        × (begins_with text.now row.now result ≡ after same_atom (row_of text.now value.now) (row_of text.now row.now)) }
{
    let mut left = row;
    for term in Terms(value) {
        if left.len() < 24 || !same_first(text, term, left) {
            return None;
        }
        left = whole::after(left);
    }
    Some(row.len() - left.len())
}
