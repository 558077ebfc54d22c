// Rows 1 to 7 of the refusal table: the header, and each record by itself.
#![tactic(auto)]

pub mod facts;
pub mod header;
pub mod node;
pub mod script;
