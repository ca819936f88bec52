// A command's words and what they ask for. The words stand one behind another, a 0 after each.
#![tactic(auto)]

pub mod formats;
pub mod numbers;
pub mod options;
pub mod words;
