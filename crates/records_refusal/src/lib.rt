// The refusal table over a whole file, and the public call.
#![tactic(auto)]

pub mod check;
pub mod file_rows;
pub mod headed_file;
pub mod outcome;
pub mod scan;
