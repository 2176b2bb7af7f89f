//! Drafts over a run, slips, and whole lists of calls.
#![tactic(auto)]

pub mod answers;
pub mod calls;
pub mod dispatcher;
pub mod laws;
pub mod slip;
#[cfg(test)]
mod tests;
