// A stack in lent memory as a waiting list: the newest node comes first.
ghost use Rattle.std.specs.Prelude.{◌≡◌, [], length};
ghost use Rattle.std.proofs.Common.{rules};
ghost use Rattle.heap.specs.Bounded.{capacity as capacity_of};
ghost use Rattle.lists.specs.Lists.{StackMoves};

use crate::node::Node;
use crate::waiting::{Full, WaitingList};
use std::marker::Model;

/// The first `len` places of the memory hold its nodes, the newest last. A clause sees them newest first, and how many more it has room for.
#[derive(Drop)]
pub struct Stack<'a> {
    memory: &'a mut [Node],
    len: usize,
}

impl<'a> Model for Stack<'a> {
    ghost use Rattle.std.specs.Prelude.{◌≤◌, length, take};
    ghost use Rattle.heap.specs.Bounded.{Holding};
    ghost use Rattle.lists.specs.declared.node.Node.{Node};
    ghost use Rattle.lists.specs.Lists.{newest_first};

    ghost Value = { Holding Node };

    ghost view = { λ s. newest_first (length s.memory.now) (take s.len s.memory.now) };

    ghost invariant = { λ s. s.len ≤ length s.memory.now };
}

impl<'a> Stack<'a> {
    /// An empty stack.
    pub fn new(memory: &'a mut [Node]) -> Stack<'a>
        ensures row { result.row ≡ [] }
        ensures free { result.free ≡ length memory.old }
    {
        Stack { memory, len: 0 }
    }
}

impl<'a> WaitingList for Stack<'a> {
    ghost nodes = { λ s. s.row };

    ghost capacity = { capacity_of };

    ghost moves = { StackMoves };

    fn take(&mut self) -> Option<Node> {
        if self.len == 0 {
            return None;
        }
        self.len -= 1;
        Some(self.memory[self.len])
    }

    fn put(&mut self, node: Node) -> Result<(), Full> {
        if self.len == self.memory.len() {
            return Err(Full);
        }
        self.memory[self.len] = node;
        self.len += 1;
        Ok(())
    }

    fn clear(&mut self) {
        self.len = 0;
    }

    fn len(&self) -> u64 {
        self.len as u64
    }

    ghost bounded = { Prim.search rules };
}
