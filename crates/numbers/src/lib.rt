// The value of decimal digits, all at once and in one pass, and equality of numbers by it. What a value is stands in specs/Value.antt, what is kept
// between digits in specs/OnePass.antt.
#![tactic(auto)]

ghost use Rattle.std.specs.Prelude.{◌≡◌, [], ◌∷◌, ◌-◌, ◌≤◌, ◌<◌, length};
ghost use Rattle.names.specs.Name.{same_bytes, every_byte};
ghost use Rattle.numbers.specs.Value.{value_after, is_macrodigit, stripped};
ghost use Rattle.numbers.specs.OnePass.{capped, state_of, tested, step_of};
ghost use Rattle.numbers.specs.Code.Zero.{zero_byte};

use names::digit_byte;
use std::cmp::Ordering;

// What the test of digits answers after a byte: the value of the digits so far is at most 4294967295, or past it; or the byte is no digit.
#[derive(Clone, Copy, PartialEq, Eq)]
pub enum Tested {
    AtMost,
    Past,
    NoDigit,
}

// What the test keeps after a byte, and what it answers.
// The state counts beside each answer, also where the byte is no digit, so this is no `Result`.
#[derive(Clone, Copy, PartialEq, Eq)]
pub struct Step {
    pub state: u64,
    pub answer: Tested,
}

// The value of a digit.
fn digit_value(d: u8) -> u64
    ensures { (result ≡ d - 48) × (result < 256) }
{
    u64::from(d.saturating_sub(b'0'))
}

// A value, or 4294967296 where it is more.
fn cap(value: u64) -> u64
    ensures { result ≡ capped value }
{
    value.min(4294967296)
}

// The state after one digit more.
fn with_digit(state: u64, digit: u8) -> u64
    requires { state ≤ 4294967296 }
    ensures { result ≡ capped (value_after state (digit ∷ [])) }
{
    cap(state * 10 + digit_value(digit))
}

// Is a value that of a macrodigit?
// A branch and no bare comparison, so that each answer has a goal of its own (docs/DECISIONS.md, 112).
pub fn is_macrodigit(value: u64) -> bool
    ensures { result ≡ is_macrodigit value }
{
    if value <= 4294967295 {
        return true;
    }
    false
}

// The answer by a state.
fn answer_of(state: u64) -> Tested
    ensures { result ≡ tested state }
{
    if is_macrodigit(state) {
        Tested::AtMost
    } else {
        Tested::Past
    }
}

// The test of digits that are handed over one by one: the state and the answer after a byte. The state after no digits is 0; every state may be passed.
pub fn digit_step(state: u64, byte: u8) -> Step
    ensures { result ≡ step_of state byte }
{
    if !digit_byte(byte) {
        let answer = Tested::NoDigit;
        return Step { state, answer };
    }
    let state = with_digit(cap(state), byte);
    let answer = answer_of(state);
    Step { state, answer }
}

// The value of digits, however many zeros lead, or 4294967296 where it is more: the state after all of them.
pub fn capped_value(digits: &[u8]) -> u64
    ensures { result ≡ state_of digits.now }
{
    let mut state = 0;
    for &digit in digits {
        if 4294967296 <= state {
            return state;
        }
        state = with_digit(state, digit);
    }
    state
}

// Are these the same digits, of numbers that have as many? The last ones come first: numbers of a table differ there.
// Not by `rev`, `zip` and `all`, which took a tenth more of a law whose sentences begin with numbers.
fn digits_equal(a: &[u8], b: &[u8]) -> bool
    requires { length a.now ≡ length b.now }
    ensures { result ≡ same_bytes a.now b.now }
{
    for i in (0..a.len()).rev() {
        if a[i] != b[i] {
            return false;
        }
    }
    true
}

// Are all these bytes the digit `0`?
fn all_zeros(digits: &[u8]) -> bool
    ensures { result ≡ every_byte zero_byte digits.now }
{
    digits.iter().all(|&d| d == b'0')
}

// Is the longer number the shorter one after zeros? No digits are no number.
fn padded_equal(long: &[u8], short: &[u8]) -> bool
    requires { length short.now < length long.now }
    ensures { result ≡ same_bytes (stripped long.now) (stripped short.now) }
{
    let (zeros, digits) = long.split_at(long.len() - short.len());
    !short.is_empty() && all_zeros(zeros) && digits_equal(digits, short)
}

// Are these the same number? Numbers compare by value, and 64 digits pass any machine word. Without needless zeros a value has one spelling: numbers of one
// length are the same where their digits are, and others where the longer one has zeros before the shorter.
pub fn numbers_equal(a: &[u8], b: &[u8]) -> bool
    ensures { result ≡ same_bytes (stripped a.now) (stripped b.now) }
{
    match a.len().cmp(&b.len()) {
        Ordering::Equal => digits_equal(a, b),
        Ordering::Less => padded_equal(b, a),
        Ordering::Greater => padded_equal(a, b),
    }
}
