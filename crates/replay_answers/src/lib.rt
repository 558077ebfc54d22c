// A list of answers (reference/README.md has its form), read from standard input.
#![tactic(auto)]

pub mod compare;
pub mod entry;
mod segment;
