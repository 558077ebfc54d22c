// What is asked of a declarator before a search: its parts, whether it ends the search, what is known of its initializer.
#![tactic(auto)]

pub mod declarator_parts;
pub mod describe;
pub mod ends;
pub mod unsearched;
