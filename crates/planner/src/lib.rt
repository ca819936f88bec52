// The plan and the writing call.
#![tactic(auto)]

pub mod encoder;
pub mod heads;
pub mod layout;
pub mod plan;
