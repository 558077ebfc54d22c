// Where `this` may not change places with another step, by the frames of the file.
#![tactic(auto)]

pub mod body_frames;
pub mod this_blocks;
pub mod this_blocks_in;
pub mod this_expression;
