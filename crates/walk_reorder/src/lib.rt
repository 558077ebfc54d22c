// What may not change places with another step: effects, unsettled names, the parts of a member.
#![tactic(auto)]

pub mod effect;
pub mod member_part;
pub mod unsettled;
