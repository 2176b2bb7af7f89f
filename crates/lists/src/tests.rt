// Layers over layers, lists of several kinds in one list, and lists at their ends. The expected values were worked out by hand.
ghost use Rattle.std.specs.Prelude.{◌≡◌, ◌+◌, ◌<◌, ⊤, length, MatchResult};
ghost use Rattle.either.specs.Either.{MatchEither};

use crate::dive::Dive;
use crate::node::Node;
use crate::node_heap::NodeHeap;
use crate::stack::Stack;
use crate::waiting::{Full, WaitingList};
use either::{Either, Left, Right};

// A layer that counts what the list below refuses: a refusal need not leave a list as it was.
#[derive(Drop)]
struct Counting<L> {
    below: L,
    refused: u64,
}

impl<L: WaitingList> WaitingList for Counting<L> {
    ghost nodes = { λ c. L.nodes c.below };

    ghost capacity = { λ c. L.capacity c.below };

    ghost moves = { λ old move new. L.moves old.below move new.below };

    fn take(&mut self) -> Option<Node> {
        self.below.take()
    }

    fn put(&mut self, node: Node) -> Result<(), Full> {
        let put = self.below.put(node);
        if put.is_err() {
            self.refused = self.refused.saturating_add(1);
        }
        put
    }

    fn clear(&mut self) {
        self.below.clear();
    }

    fn len(&self) -> u64 {
        self.below.len()
    }

    ghost bounded = { λ c. L.bounded c.below };
}

fn node(bound: u64) -> Node {
    Node {
        bound,
        decided: 0,
        turned: 0,
    }
}

// Puts two nodes; a list with room for fewer is full then.
fn put_two<L: WaitingList>(list: &mut L, first: Node, second: Node) -> Result<(), Full>
    ensures { MatchResult result (λ _. length (L.nodes list.new) ≡ length (L.nodes list.old) + 2) (λ _. length (L.nodes list.new) ≡ L.capacity list.old) }
{
    list.put(first)?;
    list.put(second)
}

// Puts nodes with bounds from 0 on until one is refused, and answers the length then.
fn fill<L: WaitingList>(list: &mut L) -> u64 {
    for pair in 0..100 {
        if put_two(list, node(2 * pair), node(2 * pair + 1)).is_err() {
            break;
        }
    }
    list.len()
}

// The bounds of the next three nodes, and how many there are then.
fn next_three<L: WaitingList>(list: &mut L) -> ([Option<u64>; 3], u64) {
    let three = [list.take(), list.take(), list.take()];
    (three.map(|taken| taken.map(|node| node.bound)), list.len())
}

// Through two dives over a heap, a node that was put is the first to be taken, and a cleared list has none: the clauses of the layers show it.
fn put_take_clear(memory: &mut [Node], node: Node) -> (Option<Node>, u64)
    ensures first { result.0 ≡ Some node }
    ensures none { result.1 ≡ 0 }
{
    let mut list = Dive::new(Dive::new(NodeHeap::new(memory)));
    let _ = list.put(node);
    let first = list.take();
    list.clear();
    (first, list.len())
}

// A stack that has room gives the node back that was put, though the list might have been a heap.
fn put_take(list: &mut Either<Stack<'_>, NodeHeap<'_>>, node: Node) -> Option<Node>
    ensures { MatchEither list.old (λ stack. 0 < stack.free → result ≡ Some node) (λ _. ⊤) }
{
    let _ = list.put(node);
    list.take()
}

#[test]
fn dives_over_a_heap(rt: HostRuntime) {
    let mut memory = [Node::default(); 3];
    let seven = node(7);
    assert!(rt; put_take_clear(&mut memory, seven) == (Some(seven), 0));
    let mut list = Dive::new(Dive::new(NodeHeap::new(&mut memory)));
    assert_eq!(rt; list.len(), 0);
    assert_eq!(rt; fill(&mut list), 19);
    assert_eq!(rt; next_three(&mut list), ([Some(7), Some(6), Some(5)], 16));
    for _ in 0..5 {
        list.take();
    }
    assert_eq!(rt; next_three(&mut list), ([Some(15), Some(14), Some(13)], 8));
    for _ in 0..5 {
        list.take();
    }
    assert_eq!(rt; next_three(&mut list), ([Some(16), Some(17), Some(18)], 0));
    assert_eq!(rt; next_three(&mut list), ([None; 3], 0));
}

#[test]
fn dive_over_a_stack(rt: HostRuntime) {
    let mut memory = [Node::default(); 2];
    let mut list = Dive::new(Stack::new(&mut memory));
    assert_eq!(rt; fill(&mut list), 10);
    assert_eq!(rt; list.kept(), 8);
    for _ in 0..7 {
        list.take();
    }
    assert_eq!(rt; next_three(&mut list), ([Some(0), Some(9), Some(8)], 0));
    assert_eq!(rt; fill(&mut list), 10);
    list.clear();
    assert_eq!(rt; next_three(&mut list), ([None; 3], 0));
}

// Each list of a list goes by its own kind, and has the capacity of its own.
#[test]
fn lists_of_three_kinds(rt: HostRuntime) {
    let mut first = [Node::default(); 3];
    let mut second = [Node::default(); 4];
    let mut third = [Node::default(); 5];
    let seven = node(7);
    assert!(rt; put_take(&mut Left(Stack::new(&mut first)), seven) == Some(seven));
    let mut lists: [Either<Either<Stack, NodeHeap>, Dive<Stack>>; 3] = [
        Left(Left(Stack::new(&mut first))),
        Left(Right(NodeHeap::new(&mut second))),
        Right(Dive::new(Stack::new(&mut third))),
    ];
    let wanted = [(3, Some(2)), (4, Some(0)), (13, Some(7))];
    for (list, (length, bound)) in lists.iter_mut().zip(wanted) {
        assert_eq!(rt; fill(list), length);
        assert_eq!(rt; list.take().map(|node| node.bound), bound);
    }
}

#[test]
fn refusals_counted(rt: HostRuntime) {
    let mut memory = [Node::default(); 3];
    let mut list = Counting {
        below: Stack::new(&mut memory),
        refused: 0,
    };
    assert!(rt; list.is_empty());
    assert_eq!(rt; fill(&mut list), 3);
    assert!(rt; !list.is_empty());
    assert_eq!(rt; list.refused, 1);
    assert_eq!(rt; next_three(&mut list), ([Some(2), Some(1), Some(0)], 0));
}

#[test]
fn equal_bounds(rt: HostRuntime) {
    let mut memory = [Node::default(); 4];
    let mut list = NodeHeap::new(&mut memory);
    for (decided, turned) in [(2, 0), (1, 1), (0, 2), (1, 0)] {
        let put = list.put(Node {
            bound: 5,
            decided,
            turned,
        });
        assert!(rt; put.is_ok());
    }
    assert!(rt; list.put(node(0)) == Err(Full));
    for (decided, turned) in [(0, 2), (1, 0), (1, 1), (2, 0)] {
        let first = Node {
            bound: 5,
            decided,
            turned,
        };
        assert!(rt; list.take() == Some(first));
    }
}
