// The cells of stored rows and of streams, as numbers.
#![tactic(auto)]

pub mod colours;
pub mod indices;
pub mod stream;
