// A best-first search for the decisions that cost least, over any problem and any waiting list.
#![tactic(auto)]

ghost use Rattle.search.specs.Laws.{FindsLeast, FindsOneCost, FindsWithRoom};

pub mod best_first;
pub mod finding;
pub mod found;
pub mod problem;
#[cfg(test)]
mod tests;

/// What the steps of a search find is least, wherever nodes are put; so all that find something
/// find the same cost.
pub fn searches_stand()
    ensures least { FindsLeast }
    ensures same { FindsOneCost }
    ensures finds { FindsWithRoom }
{}
