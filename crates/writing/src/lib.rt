// The sections of a law file, written into a lent buffer from the tokens of a text.
//
// Bytes are put as far as there is room, and the position after them is given in any case: a section's number of records is known from
// where its records end, and a file that is too large from where it ends.
#![tactic(auto)]

mod atoms;
mod brackets;
mod conditions;
mod functions;
mod kinds;
mod parts;
mod records;
mod sentences;
mod source;
mod terms;
mod whole;

pub use crate::brackets::Ahead;
pub use crate::source::Source;
