// Order files: who waits for whom, written into a buffer and read back.
#![tactic(auto)]

pub mod read;
pub mod waits;
pub mod worked;
pub mod write;
