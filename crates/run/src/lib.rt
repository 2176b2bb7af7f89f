//! A run of a plan: who stands where, and who goes first at each meeting.
#![tactic(auto)]

pub mod laws;
pub mod run;
