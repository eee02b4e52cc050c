// Names, identifiers, variables' indices and numbers, as a law spells them.
#![tactic(auto)]

ghost use Rattle.std.specs.Prelude.{◌≡◌, ◌+◌, ◌≤◌, length, take, drop};
ghost use Rattle.names.specs.Name.{between, digit_byte, letter_byte, name_byte, upper_byte, fold_byte, folded, folded_index, same_bytes, order_bytes, every_byte, length_allowed, name_allowed, number_allowed};

use std::cmp::Ordering;

// A decimal digit.
pub fn digit_byte(c: u8) -> bool
    ensures { result ≡ digit_byte c }
{
    c.is_ascii_digit()
}

// An ASCII letter.
pub fn letter_byte(c: u8) -> bool
    ensures { result ≡ letter_byte c }
{
    c.is_ascii_alphabetic()
}

// An ASCII letter, a digit, `-` or `_`.
pub fn name_byte(c: u8) -> bool
    ensures { result ≡ name_byte c }
{
    c.is_ascii_alphanumeric() || matches!(c, b'-' | b'_')
}

// Upper case: `a` to `z` become `A` to `Z`.
fn upper_byte(c: u8) -> u8
    ensures { result ≡ upper_byte c }
{
    c.to_ascii_uppercase()
}

// Upper case, and `_` read as `-`.
fn fold_byte(c: u8) -> u8
    ensures { result ≡ fold_byte c }
{
    if c == b'_' { b'-' } else { upper_byte(c) }
}

// Are these the same name or identifier? Only bytes that differ are folded: long names share most of theirs.
pub fn names_equal(a: &[u8], b: &[u8]) -> bool
    ensures { result ≡ same_bytes (folded a.now) (folded b.now) }
{
    a.len() == b.len()
        && a.iter()
            .zip(b)
            .all(|(&x, &y)| x == y || fold_byte(x) == fold_byte(y))
}

// Are these the same variable's index? Only letter case folds there, so `-` and `_` differ.
// Not one with `names_equal` over the fold: it would need a contract on its closure, and is no plainer.
pub fn indices_equal(a: &[u8], b: &[u8]) -> bool
    ensures { result ≡ same_bytes (folded_index a.now) (folded_index b.now) }
{
    a.len() == b.len()
        && a.iter()
            .zip(b)
            .all(|(&x, &y)| x == y || upper_byte(x) == upper_byte(y))
}

// The order of two names: by the bytes of the folded names, and a name comes after each of its beginnings.
pub fn names_order(a: &[u8], b: &[u8]) -> Ordering
    ensures { result ≡ order_bytes (folded a.now) (folded b.now) }
{
    for (&x, &y) in a.iter().zip(b) {
        if x != y {
            let order = fold_byte(x).cmp(&fold_byte(y));
            if order.is_ne() {
                return order;
            }
        }
    }
    a.len().cmp(&b.len())
}

// 1 to 64 bytes.
pub fn length_allowed(n: usize) -> bool
    ensures { result ≡ length_allowed n }
{
    1 <= n && n <= 64
}

// Are all these bytes such as names have?
pub fn name_bytes(s: &[u8]) -> bool
    ensures { result ≡ every_byte name_byte s.now }
{
    s.iter().all(|&c| name_byte(c))
}

// Is this a name, identifier or index that a law may spell?
pub fn is_name(s: &[u8]) -> bool
    ensures { result ≡ name_allowed s.now }
{
    length_allowed(s.len()) && name_bytes(s)
}

// Is this a number that a law may spell?
pub fn is_number(s: &[u8]) -> bool
    ensures { result ≡ number_allowed s.now }
{
    length_allowed(s.len()) && s.iter().all(|&c| digit_byte(c))
}

// The part of the text where a name is spelled.
pub fn name_in(text: &[u8], start: usize, len: usize) -> &[u8]
    requires { start + len ≤ length text.now }
    ensures { result.now ≡ take len (drop start text.now) }
{
    &text[start..start + len]
}
