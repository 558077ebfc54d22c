// Rows 8, 9 and 10 of the refusal table: trees that close, with children where their kinds may stand; names declared twice; the
// uses of each name.
#![tactic(auto)]

pub mod count;
pub mod declared;
pub mod place;
pub mod tree;
