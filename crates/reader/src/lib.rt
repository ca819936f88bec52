// The reader: a file's fields, the tests that refuse it, its rows, and the calls.
#![tactic(auto)]

pub mod checks;
pub mod fields;
pub mod picture;
pub mod read;
pub mod refusal;
pub mod row;
