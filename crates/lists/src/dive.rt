// A layer over any waiting list: the newest nodes come first.
ghost use Rattle.std.specs.Prelude.{◌≡◌, ◌+◌, [], ◌++◌, length};
ghost use Rattle.std.proofs.Common.{arith, length-append};
ghost use Rattle.heap.specs.Bounded.{capacity as capacity_of};
ghost use Rattle.lists.specs.Lists.{DiveMoves};

use crate::node::Node;
use crate::waiting::{Full, WaitingList};
use arrayvec::ArrayVec;
use std::marker::Model;

/// How many nodes a dive keeps itself.
pub const KEPT: usize = 8;

/// Keeps up to eight nodes; further ones go into the list below. A clause sees the nodes kept, newest first, with how many more it keeps, and the list below.
#[derive(Drop)]
pub struct Dive<L> {
    kept: ArrayVec<Node, KEPT>,
    below: L,
}

impl<L> Model for Dive<L> {
    ghost use Rattle.std.specs.Prelude.{◌≤◌, length};
    ghost use Rattle.lists.specs.Lists.{Layered, newest_first};

    ghost Value = { Layered L };

    ghost view = { λ d. record { kept = newest_first 8 d.kept.items; below = d.below } };

    ghost invariant = { λ d. length d.kept.items ≤ 8 };
}

impl<L> Dive<L> {
    /// Over a list, with no node kept.
    pub fn new(below: L) -> Dive<L>
        ensures kept { result.kept ≡ record { row = []; free = 8 } }
        ensures below { result.below ≡ below }
    {
        Dive {
            kept: ArrayVec::new(),
            below,
        }
    }

    /// How many nodes it keeps itself.
    pub fn kept(&self) -> usize
        ensures count { result ≡ length self.now.kept.row }
        ensures eight { capacity_of self.now.kept ≡ 8 }
    {
        self.kept.len()
    }
}

impl<L: WaitingList> WaitingList for Dive<L> {
    ghost nodes = { λ d. d.kept.row ++ L.nodes d.below };

    ghost capacity = { λ d. capacity_of d.kept + L.capacity d.below };

    ghost moves = { DiveMoves L.moves };

    fn take(&mut self) -> Option<Node> {
        match self.kept.pop() {
            Some(node) => Some(node),
            None => self.below.take(),
        }
    }

    fn put(&mut self, node: Node) -> Result<(), Full> {
        if self.kept.is_full() {
            return self.below.put(node);
        }
        self.kept.push(node);
        Ok(())
    }

    fn clear(&mut self) {
        self.kept.clear();
        self.below.clear();
    }

    fn len(&self) -> u64 {
        (self.kept.len() as u64).saturating_add(self.below.len())
    }

    ghost bounded = { λ d. Prim.omega (arith, length-append d.kept.row (L.nodes d.below), L.bounded d.below) };
}
