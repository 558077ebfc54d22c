// The statements of a file, taken in order over lent tables: each tree is searched from what is kept before it
// (src/peephole/minimize_statements.rs).
#![tactic(auto)]

pub mod declaration;
pub mod in_order;
pub mod next;
pub mod statement;
pub mod tables;
pub mod within_declaration;
