// A heap that has the memory it was lent, and keeps its order.
ghost use Rattle.std.specs.Prelude.{◌≡◌, ◌==◌, [], length};
ghost use Rattle.std.specs.List.Sorted.{IsPermutation};
ghost use Rattle.heap.specs.Bounded.{PutsIn, TakesOut, capacity};
ghost use Rattle.heap.specs.Rows.{Ascends};

use crate::heap::{Full, put, take_first};
use crate::order::TotalOrder;
use std::marker::Model;

// The first `len` places of the memory hold a heap. A clause sees its elements in their order, and how many more it has room for.
#[derive(Drop)]
pub struct BoundedHeap<'a, T: TotalOrder + Copy> {
    memory: &'a mut [T],
    len: usize,
}

impl<'a, T: TotalOrder + Copy> Model for BoundedHeap<'a, T> {
    ghost use Rattle.std.specs.Prelude.{◌≤◌, length, take};
    ghost use Rattle.heap.specs.Bounded.{Holding, held};
    ghost use Rattle.heap.specs.Heaps.{Heap};

    ghost Value = { Holding T };

    ghost view = { λ h. held T.le h.len h.memory.now };

    ghost invariant = { λ h. (h.len ≤ length h.memory.now) × Heap T.le (take h.len h.memory.now) };
}

impl<'a, T: TotalOrder + Copy> BoundedHeap<'a, T> {
    // An empty heap.
    pub fn new(memory: &'a mut [T]) -> BoundedHeap<'a, T>
        ensures row { result.row ≡ [] }
        ensures free { result.free ≡ length memory.old }
    {
        BoundedHeap { memory, len: 0 }
    }

    // How many elements it holds.
    pub fn len(&self) -> usize
        ensures { result ≡ length self.now.row }
    {
        self.as_slice().len()
    }

    // Whether it holds none.
    pub fn is_empty(&self) -> bool
        ensures { result ≡ (length self.now.row == 0) }
    {
        self.len == 0
    }

    // Whether no room is left.
    pub fn is_full(&self) -> bool
        ensures { result ≡ (self.now.free == 0) }
    {
        self.len == self.memory.len()
    }

    // Its elements, in the order in which they lie in the memory. The row is their ascending list.
    pub fn as_slice(&self) -> &[T]
        ensures same { IsPermutation result.now self.now.row }
        ensures ascends { Ascends T.le self.now.row }
    {
        &self.memory[..self.len]
    }

    // Lets all elements go.
    pub fn clear(&mut self)
        ensures row { self.new.row ≡ [] }
        ensures free { self.new.free ≡ capacity self.old }
    {
        self.len = 0;
    }

    // Puts an element into its place of the row; a full heap stays as it is.
    pub fn put(&mut self, x: T) -> Result<(), Full>
        ensures { PutsIn T.le x result self.old self.new }
    {
        put(self.memory, self.len, x)?;
        self.len += 1;
        Ok(())
    }

    // Takes the first of the row; none of an empty heap.
    pub fn take_first(&mut self) -> Option<T>
        ensures { TakesOut T.le result self.old self.new }
    {
        let first = take_first(self.memory, self.len)?;
        self.len -= 1;
        Some(first)
    }
}
