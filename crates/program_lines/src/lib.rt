// What the programs for users share: reading the input.
#![tactic(auto)]

pub mod input;
