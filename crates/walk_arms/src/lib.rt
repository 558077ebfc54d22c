// The parts of the search of an expression: its arms, what it is told of the tree to place, and what it says.
#![tactic(auto)]

pub mod arms;
pub mod node;
pub mod replacement;
pub mod walked;
