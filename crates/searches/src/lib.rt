// The two searches: does an earlier pattern shadow a later one, and does a pattern match a literal part? Both try every length of an e. variable, and
// remember rests that failed.
#![tactic(auto)]

mod failed;
pub mod literal;
pub mod pair;
pub mod repeats;
pub mod shadow;
