// The record file: its kinds, flags and limits; its numbers and records, read and written; where its parts begin.
#![tactic(auto)]

pub mod copy;
pub mod facts;
pub mod flags;
pub mod kinds;
pub mod layout;
pub mod limits;
pub mod name_table;
pub mod number;
pub mod part;
pub mod parts;
pub mod put;
pub mod put_number;
pub mod record_bytes;
pub mod record_file;
pub mod set;
