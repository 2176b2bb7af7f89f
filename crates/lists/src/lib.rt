// Waiting lists of nodes.
#![tactic(auto)]

ghost use Rattle.lists.specs.Nodes.{NodesOrder};

pub mod dive;
pub mod kinds;
pub mod node;
pub mod node_heap;
pub mod stack;
pub mod waiting;

use crate::node::Node;

/// The order of nodes is by bound, then by decided, then by turned.
pub fn nodes_stand()
    ensures { NodesOrder ⟦<Node as Ord>⟧.cmp }
{}

#[cfg(test)]
mod tests;
