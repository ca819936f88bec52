// Rows: packed as the file stores them, or coded, counted and written.
#![tactic(auto)]

pub mod blocks;
pub mod counting;
mod exchange;
mod folds;
mod indices;
pub mod masks;
pub mod pack;
pub mod rle;
mod starts;
mod windows;
pub mod words;
