//! Redrawing: the cheapest passing orders of a run.
#![tactic(auto)]

pub mod finder;
pub mod laws;
mod opens;
mod problem;
pub mod redrawn;
#[cfg(test)]
mod tests;
