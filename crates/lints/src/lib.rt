// The four lints and levels. What they are, and which findings a law has, stands in specs/. The code judges: whether a sentence is dead (lint 1), what is
// said of a call (lints 2 and 3), how many e. variables a pattern has (lint 4), and how a lint's findings are shown. The ways through a law, and what is
// noted on them, are in the crate `findings`.
#![tactic(auto)]

pub mod builtin;
pub mod dead;
pub mod levels;
pub mod open;
pub mod recognition;
pub mod words;
