// What waits to be searched.
ghost use Rattle.std.proofs.Common.{rules};
ghost use Rattle.lists.specs.Nodes.{node_le};

use heap::order::TotalOrder;

/// It stands for passing orders that cost at least the bound; bit j of `decided` says whether the j-th open meeting is decided, and bit j of `turned` whether its order is turned. The lists only compare the numbers.
/// Its order is by bound, then by decided, then by turned.
#[derive(Clone, Copy, Debug, Default, PartialEq, Eq, PartialOrd, Ord)]
pub struct Node {
    pub bound: u64,
    pub decided: u64,
    pub turned: u64,
}

impl TotalOrder for Node {
    ghost le = { node_le };

    ghost total = { Prim.search rules };

    ghost transitive = { Prim.search rules };

    ghost antisymmetric = { Prim.search rules };

    fn no_later(&self, other: &Node) -> bool {
        self <= other
    }
}
