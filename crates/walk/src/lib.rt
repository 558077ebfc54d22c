// The search of an expression for the one use of a name: the Rust's `substitute_single_use_symbol_in_expression` over the
// work table. It clears shorthands and changes nothing else; what it finds is placed by the caller.
#![tactic(auto)]

pub mod expression;
pub mod forest;
pub mod small;
