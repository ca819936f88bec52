// What a command says: messages in lent memory, and the checksum of a file.
#![tactic(auto)]

pub mod checksum;
pub mod message;
