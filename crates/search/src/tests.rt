// One meeting, searched by several lists. The expected values were worked out by hand.
ghost use Rattle.std.specs.Prelude.{◌≤◌, length, IsOk};
ghost use Rattle.search.specs.Laws.{SameCost};

use crate::best_first::search;
use crate::finding::Finding;
use crate::found::{Found, SearchFault};
use crate::problem::Problem;
use crate::searches_stand;
use lists::dive::Dive;
use lists::node::Node;
use lists::node_heap::NodeHeap;
use lists::stack::Stack;
use lists::waiting::WaitingList;

// What it costs as in force and turned, and how often it was looked at.
#[derive(Drop)]
struct Single {
    kept: u32,
    turned: u32,
    looks: u32,
}

impl Problem for Single {
    ghost use Rattle.search.specs.Single.{single, single_searchable};

    ghost question = { λ s. single s.kept s.turned };

    fn start(&self) -> u64 {
        u64::from(self.kept)
    }

    fn evaluate(&mut self, decided: u64, turned: u64) -> Finding {
        self.looks = self.looks.saturating_add(1);
        if decided == 0 {
            return Finding::Branch { cost: 0, next: 0 };
        }
        let cost = u64::from(if turned == 0 { self.kept } else { self.turned });
        Finding::Done { cost }
    }

    ghost searchable = { λ s. single_searchable s.kept s.turned };
}

// The clauses of a search alone show that any two lists find the same cost.
fn both<P: Problem, L: WaitingList, M: WaitingList>(
    problem: &mut P,
    list: &mut L,
    other: &mut M,
) -> (Result<Found, SearchFault>, Result<Found, SearchFault>)
    ensures { SameCost result.0 result.1 }
{
    searches_stand();
    let first = search(problem, list, 100);
    let second = search(problem, other, 7);
    (first, second)
}

// One meeting is always searched to the end by a stack of two places, since it puts only first.
fn by_depth(single: &mut Single, memory: &mut [Node]) -> Result<Found, SearchFault>
    requires { 2 ≤ length memory.old }
    ensures { IsOk result }
{
    search(single, &mut Stack::new(memory), 3)
}

#[test]
fn by_heap_and_stack(rt: HostRuntime) {
    let mut memory = [Node::default(); 2];
    let mut other = [Node::default(); 2];
    let mut single = Single {
        kept: 5,
        turned: 3,
        looks: 0,
    };
    let found = Ok(Found {
        turned: 1,
        cost: 3,
        taken: 3,
    });
    let answers = both(
        &mut single,
        &mut NodeHeap::new(&mut memory),
        &mut Stack::new(&mut other),
    );
    assert_eq!(rt; answers, (found, found));
    assert_eq!(rt; single.looks, 6);
    assert_eq!(rt; by_depth(&mut single, &mut other), found);
}

#[test]
fn refusals(rt: HostRuntime) {
    let mut memory = [Node::default(); 1];
    let mut single = Single {
        kept: 3,
        turned: 5,
        looks: 0,
    };
    let mut list = NodeHeap::new(&mut memory);
    let full = Err(SearchFault::Full { taken: 1 });
    assert_eq!(rt; search(&mut single, &mut list, 100), full);
    assert!(rt; list.is_empty());
    let mut list = Dive::new(list);
    let spent = Err(SearchFault::Budget { taken: 2 });
    assert_eq!(rt; search(&mut single, &mut list, 2), spent);
    assert!(rt; list.is_empty());
    let stays = Ok(Found {
        turned: 0,
        cost: 3,
        taken: 3,
    });
    assert_eq!(rt; search(&mut single, &mut list, 3), stays);
    let none = Err(SearchFault::Budget { taken: 0 });
    assert_eq!(rt; search(&mut single, &mut list, 0), none);
    let no_room = Err(SearchFault::Full { taken: 0 });
    assert_eq!(rt; search(&mut single, &mut Stack::new(&mut []), 0), no_room);
}
