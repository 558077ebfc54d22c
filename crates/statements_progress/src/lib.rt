// How far the statements of a file are taken: its next declarator and tree, records behind those that are kept, and the names
// that folds took.
#![tactic(auto)]

pub mod folded;
pub mod next;
pub mod progress;
pub mod push;
