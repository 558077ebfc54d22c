// The search of a tree from the declarators and from the statements before it.
#![tactic(auto)]

pub mod from_declarator;
pub mod from_declarators;
pub mod in_statement;
