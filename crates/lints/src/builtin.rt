// Lint 3: calls of builtins whose literal arguments make failure certain.
ghost use Rattle.std.specs.Prelude.{◌≡◌, List, ℕ};
ghost use Rattle.names.specs.Name.{folded, digit_byte, every_byte};
ghost use Rattle.lints.specs.Finding.{failure_number};
ghost use Rattle.lints.specs.Builtin.{macrodigits, all_zero, second_fails, first_fails, integers_fail, characters_of, digits_fail, builtins, domain_in, failure};
ghost use Rattle.lints.specs.Code.Part.{argument_of, failure_meant, failure_in, domain_from, sign_operand, number_operand, symbol_operand, operand_of, SignTaken, all_of, zero_of, symbol_digit, digit_of};

use file::{Symbol, Term, term_at};
use law::runs::end_of;
use matching::atoms::spelled;
use names::names_equal;
use numbers::{capped_value, is_macrodigit};

// Why a call fails. `failure_meant` of specs/Code/Part.antt gives the failure.
#[derive(Clone, Copy, PartialEq, Eq, Debug)]
pub enum Failure {
    TwoIntegersWanted,
    DivisionByZero,
    DigitsWanted,
}

// Document 01's number of a failure, the word a of a finding of lint 3.
impl From<Failure> for u32 {
    ghost from_gives = { λ why number. number ≡ failure_number (failure_meant why) };

    fn from(why: Failure) -> u32 {
        match why {
            Failure::TwoIntegersWanted => 1,
            Failure::DivisionByZero => 2,
            Failure::DigitsWanted => 3,
        }
    }
}

// What a builtin that the lint knows asks of its argument: two integers, of which the second may not be zero (true) or may (false), or digits.
// No `Option` of the flag: to want digits is not to want nothing.
#[derive(Clone, Copy)]
enum Domain {
    Integers(bool),
    Digits,
}

// A term as a part of an integer: a sign, or a macrodigit by its value.
// No `Option` of the value: a sign is no missing macrodigit, and a term that is neither is no operand.
#[derive(Clone, Copy)]
enum Operand {
    Sign,
    Macrodigit(u64),
}

// ---- integers
// The text and a part of the term records are two parameters: a struct of both would be made anew for each part that is cut off.

// A number as an operand: a macrodigit by its value, however many zeros lead.
fn number_operand(digits: &[u8]) -> Option<Operand>
    ensures { result ≡ number_operand digits.now }
{
    let value = capped_value(digits);
    if is_macrodigit(value) {
        Some(Operand::Macrodigit(value))
    } else {
        None
    }
}

// A character as an operand: `-` and `+` are signs.
fn sign_operand(c: u32) -> Option<Operand>
    ensures { result ≡ sign_operand c }
{
    if c == 45 || c == 43 {
        Some(Operand::Sign)
    } else {
        None
    }
}

// A symbol as an operand.
fn symbol_operand(text: &[u8], symbol: Symbol) -> Option<Operand>
    ensures { result ≡ symbol_operand text.now symbol }
{
    match symbol {
        Symbol::Character(c) => sign_operand(c),
        Symbol::Identifier(_, _) => None,
        Symbol::Number(a, b) => number_operand(spelled(text, a, b)),
    }
}

// A term as an operand.
fn operand_of(text: &[u8], term: Term) -> Option<Operand>
    ensures { result ≡ operand_of text.now term }
{
    match term {
        Term::Symbol(x) => symbol_operand(text, x),
        _ => None,
    }
}

// Whether an operand is the macrodigit 0; undecided where it is none.
fn zero_of(operand: Option<Operand>) -> Option<bool>
    ensures { result ≡ zero_of operand }
{
    match operand {
        Some(Operand::Macrodigit(n)) => Some(n == 0),
        _ => None,
    }
}

// Whether all macrodigits of a run of macrodigits are 0; undecided where something in it is no macrodigit.
fn zeros(text: &[u8], part: &[u8]) -> Option<bool>
    ensures { result ≡ all_of all_zero (macrodigits (argument_of text.now part.now)) }
{
    if part.len() < 24 {
        return Some(true);
    }
    let first = zero_of(operand_of(text, term_at(part, 0)))?;
    let end = end_of(part);
    let rest = zeros(text, &part[end..])?;
    Some(first && rest)
}

// The part without the sign that it may begin with.
fn without_sign<'a>(text: &[u8], part: &'a [u8]) -> &'a [u8]
    ensures { SignTaken text.now part.now result.now }
{
    if part.len() < 24 {
        return part;
    }
    match operand_of(text, term_at(part, 0)) {
        Some(Operand::Sign) => {
            let end = end_of(part);
            &part[end..]
        }
        Some(Operand::Macrodigit(_)) => part,
        None => part,
    }
}

// Why the second operand makes the call fail, without its sign.
fn second_fails(text: &[u8], divides: bool, part: &[u8]) -> Option<Failure>
    ensures { failure_in result ≡ second_fails divides (macrodigits (argument_of text.now part.now)) }
{
    if part.len() < 24 {
        return Some(Failure::TwoIntegersWanted);
    }
    if divides && zeros(text, part) == Some(true) {
        Some(Failure::DivisionByZero)
    } else {
        None
    }
}

// Why the argument makes the call fail, without the first operand's sign.
fn first_fails(text: &[u8], divides: bool, part: &[u8]) -> Option<Failure>
    ensures { failure_in result ≡ first_fails divides (argument_of text.now part.now) }
{
    if part.len() < 24 {
        return Some(Failure::TwoIntegersWanted);
    }
    match operand_of(text, term_at(part, 0)) {
        Some(Operand::Macrodigit(_)) => {
            let end = end_of(part);
            second_fails(text, divides, without_sign(text, &part[end..]))
        }
        Some(Operand::Sign) => None,
        None => None,
    }
}

// Why a builtin that wants two integers, and divides or not, fails on an argument.
fn integers_fail(text: &[u8], divides: bool, part: &[u8]) -> Option<Failure>
    ensures { failure_in result ≡ integers_fail divides (argument_of text.now part.now) }
{
    first_fails(text, divides, without_sign(text, part))
}

// ---- digits

// Whether a symbol is a digit; undecided where it is no character.
fn symbol_digit(symbol: Symbol) -> Option<bool>
    ensures { result ≡ symbol_digit symbol }
{
    match symbol {
        Symbol::Character(c) => Some(48 <= c && c <= 57),
        _ => None,
    }
}

// Whether a term is a digit; undecided where it is no character.
fn digit_of(term: Term) -> Option<bool>
    ensures { result ≡ digit_of term }
{
    match term {
        Term::Symbol(x) => symbol_digit(x),
        _ => None,
    }
}

// Whether all characters of a run of characters are digits; undecided where something in it is no character. It goes as `zeros` does: one function
// over a test would take a closure with a contract of its own from both, and reads no plainer.
fn all_digits(part: &[u8]) -> Option<bool>
    ensures { (text : List ℕ) → result ≡ all_of (every_byte digit_byte) (characters_of (argument_of text part.now)) }
{
    if part.len() < 24 {
        return Some(true);
    }
    let first = digit_of(term_at(part, 0))?;
    let end = end_of(part);
    let rest = all_digits(&part[end..])?;
    Some(first && rest)
}

// Why a builtin that wants digits fails on an argument.
fn digits_fail(part: &[u8]) -> Option<Failure>
    ensures { (text : List ℕ) → failure_in result ≡ digits_fail (characters_of (argument_of text part.now)) }
{
    if part.len() < 24 {
        return Some(Failure::DigitsWanted);
    }
    if all_digits(part) == Some(false) {
        Some(Failure::DigitsWanted)
    } else {
        None
    }
}

// ---- builtins by name

// What the builtin of a name asks of its argument.
#[tactic(auto, unfolding(crate::specs::Builtin::domain_in, law::specs::Text::bytes_of))]
fn domain_of(name: &[u8]) -> Option<Domain>
    ensures { domain_from result ≡ domain_in builtins (folded name.now) }
{
    if names_equal(b"ADD", name) || names_equal(b"SUB", name) || names_equal(b"MUL", name) {
        return Some(Domain::Integers(false));
    }
    if names_equal(b"DIV", name) || names_equal(b"MOD", name) || names_equal(b"DIVMOD", name) {
        return Some(Domain::Integers(true));
    }
    if names_equal(b"COMPARE", name) {
        return Some(Domain::Integers(false));
    }
    if names_equal(b"NUMB", name) {
        return Some(Domain::Digits);
    }
    None
}

// Why a call fails, by its name and its argument; nothing where that is not certain.
pub fn builtin_fails(text: &[u8], name: &[u8], part: &[u8]) -> Option<Failure>
    ensures { failure_in result ≡ failure (domain_in builtins (folded name.now)) (argument_of text.now part.now) }
{
    match domain_of(name) {
        Some(Domain::Integers(divides)) => integers_fail(text, divides, part),
        Some(Domain::Digits) => digits_fail(part),
        None => None,
    }
}
