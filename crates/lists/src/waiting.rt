// What a waiting list is.
ghost use Rattle.std.specs.Prelude.{◌≡◌, ℕ, ◌-◌, ◌^◌, ◌≤◌, ◌↔◌, min, List, [], length, IsTrue};
ghost use Rattle.lists.specs.declared.node.Node.{Node};
ghost use Rattle.lists.specs.Moves.{Clear, Move, Puts, Take, Takes};

use crate::node::Node;
pub use heap::heap::Full;

/// A row of nodes and a fixed capacity. Where a node is put is for the list's own rule.
pub trait WaitingList {
    // The row, the first node in front.
    ghost nodes: { Self → List Node };

    // How many nodes there is room for in all.
    ghost capacity: { Self → ℕ };

    // The rule of the list: whether a move may lead from the first list to the second. A put names its place. A list may hide more than its row, as a dive hides how many nodes it keeps, and another may count its refusals; so takes, clearings and refusals go by the rule too.
    ghost moves: { Self → Move Node → Self → Type 0 };

    /// Takes the first node out; none of an empty list.
    fn take(&mut self) -> Option<Node>
        ensures first { Takes (nodes self.old) result (nodes self.new) }
        ensures allowed { moves self.old Take self.new }
        ensures size { capacity self.new ≡ capacity self.old };

    /// Puts a node at a place that the list's rule allows; a full list refuses it, and keeps its row.
    fn put(&mut self, node: Node) -> Result<(), Full>
        ensures placed { Puts nodes moves capacity node result self.old self.new }
        ensures size { capacity self.new ≡ capacity self.old };

    /// Lets all nodes go.
    fn clear(&mut self)
        ensures empty { nodes self.new ≡ [] }
        ensures allowed { moves self.old Clear self.new }
        ensures size { capacity self.new ≡ capacity self.old };

    /// How many nodes there are; the greatest number for more than it.
    fn len(&self) -> u64
        ensures { result ≡ min (length (nodes self.now)) (2 ^ 64 - 1) };

    /// Whether there is no node.
    fn is_empty(&self) -> bool
        ensures { IsTrue result ↔ (nodes self.now ≡ []) }
    {
        self.len() == 0
    }

    // No row is longer than the capacity.
    ghost bounded: { (list : Self) → length (nodes list) ≤ capacity list };
}
