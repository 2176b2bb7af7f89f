// The heap of nodes as a waiting list: the row ascends.
ghost use Rattle.std.proofs.Common.{rules};
ghost use Rattle.heap.specs.Bounded.{capacity as capacity_of};
ghost use Rattle.lists.specs.Lists.{HeapMoves};

use crate::node::Node;
use crate::waiting::{Full, WaitingList};
use heap::bounded::BoundedHeap;
use heap::rows_stand;

pub type NodeHeap<'a> = BoundedHeap<'a, Node>;

impl WaitingList for NodeHeap<'_> {
    ghost nodes = { λ h. h.row };

    ghost capacity = { capacity_of };

    ghost moves = { HeapMoves };

    fn take(&mut self) -> Option<Node> {
        self.take_first()
    }

    fn put(&mut self, node: Node) -> Result<(), Full> {
        rows_stand::<Node>();
        BoundedHeap::put(self, node)
    }

    fn clear(&mut self) {
        BoundedHeap::clear(self);
    }

    fn len(&self) -> u64 {
        BoundedHeap::len(self) as u64
    }

    ghost bounded = { Prim.search rules };
}
