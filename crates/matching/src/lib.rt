// Matching of a pattern, a part of the term records, with another part: what both matchers share.
#![tactic(auto)]

pub mod atoms;
pub mod bound;
pub mod front;
mod step;
pub mod terms;
mod values;

// The text of a law and its term records.
// A pattern and a row go beside them one by one, since each step cuts off from the one, the other or both.
#[derive(Clone, Copy)]
pub struct Records<'a> {
    pub text: &'a [u8],
    pub terms: &'a [u8],
}

// The value of a variable: the position of the variable's first record among the term records, and the position and the size of the value.
#[derive(Clone, Copy)]
pub struct Binding {
    pub key: u16,
    pub start: u16,
    pub size: u16,
}

// Values of variables, in the first so many places.
// An array with its count beside it, since memory is fixed, and passed by value, as document 01 says.
// What holds of them by the records is a clause (`Kept`), since they are handed on without these.
#[derive(Clone, Copy)]
pub struct Bindings {
    pub places: [Binding; 32],
    pub count: usize,
}

// What a variable without a value or a bracket, which a pattern begins with, leaves to do: the rest, where the variable has so many bytes of the row for its
// value; the rest, after any length, which an e. variable has for its value; the contents of a bracket and the rest.
#[derive(Clone, Copy)]
pub enum Stop {
    Binds(usize),
    Tries,
    Inside,
}

// What the first record of a pattern leaves to do: nothing; the rest, after so many bytes of the pattern and of the row; or it stops there.
#[derive(Clone, Copy)]
pub enum First {
    Fails,
    Goes(usize, usize),
    Stops(Stop),
}

// Where a pattern and a row stand after the symbols and the variables with a value that the pattern begins with, and what the record there leaves to do;
// or the pattern ends there.
#[derive(Clone, Copy)]
pub enum Known {
    End(usize, usize),
    Stops(usize, usize, Stop),
    Fails,
}
