// Costs: what arrivals add up to.
#![tactic(auto)]

pub mod cost;
pub mod due;
pub mod figures;
pub mod kinds;
pub mod last;
pub mod sum;
#[cfg(test)]
mod tests;
pub mod weight;
