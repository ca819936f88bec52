// What happens to a grid before it is written.
#![tactic(auto)]

pub mod scale;
