// Plan files: what they hold, how they are read, and the rules that paths keep.
#![tactic(auto)]

pub mod laws;
pub mod layout;
pub mod plan;
pub mod rules;
