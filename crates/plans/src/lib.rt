// Opening a plan: its file, its path rules, its meetings, and that no two paths collide.
#![tactic(auto)]

pub mod plan;
