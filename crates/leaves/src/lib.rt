// The lowest crate of the BMP writer: constants, formats, options, row stride, table counts, the checks
// over numbers, the mask check, `quantise` with its table, and writes into a lent buffer. Modules follow
// the files and sections of the Rust encoder; the table is document 02's.
#![tactic(auto)]

pub mod bitfields;
pub mod buffer;
pub mod checks;
pub mod encoder;
pub mod error;
pub mod image;
pub mod options;
pub mod types;
pub mod widening;
