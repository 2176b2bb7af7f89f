// Plans that were worked out by hand.
ghost use Rattle.std.specs.Prelude.{◌≡◌, IfOk};

use crate::finder::find_orders;
use crate::redrawn::{RedrawFault, Redrawn};
use costs::cost::{Cost, total};
use costs::due::Due;
use costs::figures::FIGURES;
use costs::last::Last;
use costs::sum::Sum;
use costs::weight::Weight;
use floor::timetable::Timetable;
use lists::dive::Dive;
use lists::node::Node;
use lists::node_heap::NodeHeap;
use lists::stack::Stack;
use lists::waiting::WaitingList;
use meetings::meet::First;
use run::run::{Driven, Run};
use std::alloc::Global;
use std::test::Fail;

// Shuttle 0: place 1 at tick 0, 5 at 1, 2 at 2. Shuttle 1: 3 at 0, 5 at 3, 4 at 4. One meeting, at
// place 5.
const ONE_MEETING: &[u8] =
    b"\x00\x02\x00\x00\x00\x0c\x00\x03\x00\x18\x00\x03\x00\x01\x00\x00\x00\x05\x00\x01\x00\x02\x00\x02\x00\x03\x00\x00\x00\x05\x00\x03\x00\x04\x00\x04";

// The same, where place 5 is a table.
const TABLE: &[u8] =
    b"\x00\x02\x00\x01\x00\x0e\x00\x03\x00\x1a\x00\x03\x00\x05\x00\x01\x00\x00\x00\x05\x00\x01\x00\x02\x00\x02\x00\x03\x00\x00\x00\x05\x00\x03\x00\x04\x00\x04";

// Shuttle 0: 1 at 0, 5 at 1, 6 at 2, 2 at 3. Shuttle 1: 3 at 0, 6 at 5, 5 at 6, 4 at 7. Two
// meetings, which the shuttles pass in opposite order.
const TWO_MEETINGS: &[u8] =
    b"\x00\x02\x00\x00\x00\x0c\x00\x04\x00\x1c\x00\x04\x00\x01\x00\x00\x00\x05\x00\x01\x00\x06\x00\x02\x00\x02\x00\x03\x00\x03\x00\x00\x00\x06\x00\x05\x00\x05\x00\x06\x00\x04\x00\x07";

// Shuttle 0 goes to and fro between places 5 and 6, and is gone when shuttle 1 does so: 72
// meetings.
const MANY_MEETINGS: &[u8] =
    b"\x00\x02\x00\x00\x00\x0c\x00\x0e\x00\x44\x00\x0e\x00\x01\x00\x00\x00\x05\x00\x01\x00\x06\x00\x02\x00\x05\x00\x03\x00\x06\x00\x04\x00\x05\x00\x05\x00\x06\x00\x06\x00\x05\x00\x07\x00\x06\x00\x08\x00\x05\x00\x09\x00\x06\x00\x0a\x00\x05\x00\x0b\x00\x06\x00\x0c\x00\x02\x00\x0d\x00\x03\x00\x00\x00\x05\x00\x14\x00\x06\x00\x15\x00\x05\x00\x16\x00\x06\x00\x17\x00\x05\x00\x18\x00\x06\x00\x19\x00\x05\x00\x1a\x00\x06\x00\x1b\x00\x05\x00\x1c\x00\x06\x00\x1d\x00\x05\x00\x1e\x00\x06\x00\x1f\x00\x04\x00\x20";

// What the orders in force cost.
fn cost_in_force<C: Cost>(run: &Run, cost: &C) -> Option<u64> {
    let mut timetable = Timetable::new();
    run.driven()?.expected(&mut timetable);
    Some(total(cost, timetable.arrivals()))
}

// What is redrawn: the cost, the nodes taken, and at how many meetings shuttle 1 goes first.
fn redraw<C: Cost, L: WaitingList>(
    run: &Run,
    cost: &C,
    list: &mut L,
    budget: u32,
) -> Option<Result<(u64, u32, usize), RedrawFault>> {
    let redrawn = match find_orders(run.driven()?, cost, list, budget) {
        Ok(redrawn) => redrawn,
        Err(fault) => return Some(Err(fault)),
    };
    let firsts = redrawn.orders.as_slice();
    let turned = firsts
        .iter()
        .filter(|first| **first == First::Other)
        .count();
    Some(Ok((redrawn.cost, redrawn.taken, turned)))
}

// The same by a heap with so much room.
fn by_heap<C: Cost>(
    run: &Run,
    cost: &C,
    room: usize,
    budget: u32,
) -> Option<Result<(u64, u32, usize), RedrawFault>> {
    let mut memory = [Node::default(); 8];
    redraw(
        run,
        cost,
        &mut NodeHeap::new(memory.get_mut(..room)?),
        budget,
    )
}

fn by_stack<C: Cost>(run: &Run, cost: &C) -> Option<Result<(u64, u32, usize), RedrawFault>> {
    let mut memory = [Node::default(); 8];
    redraw(run, cost, &mut Stack::new(&mut memory), 100)
}

// By a dive over a heap without room.
fn by_dive<C: Cost>(run: &Run, cost: &C) -> Option<Result<(u64, u32, usize), RedrawFault>> {
    redraw(run, cost, &mut Dive::new(NodeHeap::new(&mut [])), 100)
}

// The clauses alone show that two searches of one state by one cost answer the same cost.
fn both<C: Cost, L: WaitingList, M: WaitingList>(
    driven: &Driven,
    cost: &C,
    list: &mut L,
    other: &mut M,
) -> (Result<Redrawn, RedrawFault>, Result<Redrawn, RedrawFault>)
    ensures { IfOk result.0 (λ redrawn. IfOk result.1 (λ other. redrawn.cost ≡ other.cost)) }
{
    let first = find_orders(driven, cost, list, 100);
    let second = find_orders(driven, cost, other, 7);
    (first, second)
}

fn open(alloc: Global, plan: &[u8]) -> Result<Run, Fail> {
    let mut run = Run::new();
    run.open(alloc, 1, plan).ok().ok_or("a good plan")?;
    Ok(run)
}

// The same, with shuttle 0 held for 5 ticks.
fn open_held(alloc: Global, plan: &[u8]) -> Result<Run, Fail> {
    let mut run = open(alloc, plan)?;
    run.hold(0, 5).ok().ok_or("a good hold")?;
    Ok(run)
}

#[test]
fn costs_in_force(rt: HostRuntime) -> Result<(), Fail> {
    let run = open_held(rt.alloc(), ONE_MEETING)?;
    assert!(rt; cost_in_force(&run, &Sum) == Some(16));
    let run = open_held(rt.alloc(), TWO_MEETINGS)?;
    assert!(rt; cost_in_force(&run, &Sum) == Some(19));
    Ok(())
}

#[test]
fn one_meeting(rt: HostRuntime) -> Result<(), Fail> {
    let run = open(rt.alloc(), ONE_MEETING)?;
    assert!(rt; by_heap(&run, &Sum, 8, 100) == Some(Ok((6, 3, 0))));
    let run = open_held(rt.alloc(), ONE_MEETING)?;
    assert!(rt; by_heap(&run, &Sum, 8, 100) == Some(Ok((9, 3, 1))));
    assert!(rt; by_stack(&run, &Sum) == Some(Ok((9, 3, 1))));
    assert!(rt; by_dive(&run, &Sum) == Some(Ok((9, 3, 1))));
    Ok(())
}

#[test]
fn other_costs(rt: HostRuntime) -> Result<(), Fail> {
    let run = open_held(rt.alloc(), ONE_MEETING)?;
    assert!(rt; by_heap(&run, &Last, 8, 100) == Some(Ok((7, 3, 1))));
    let mut ticks = [0; FIGURES];
    ticks[0] = 2;
    ticks[1] = 4;
    let mut weights = [1; FIGURES];
    weights[0] = 3;
    let late = Due {
        ticks,
        cost: Weight { weights, cost: Sum },
    };
    assert!(rt; by_heap(&run, &late, 8, 100) == Some(Ok((15, 3, 1))));
    Ok(())
}

#[test]
fn refusals(rt: HostRuntime) -> Result<(), Fail> {
    let run = open_held(rt.alloc(), ONE_MEETING)?;
    let spent = RedrawFault::BudgetSpent { taken: 2 };
    assert!(rt; by_heap(&run, &Sum, 8, 2) == Some(Err(spent)));
    let full = RedrawFault::ListFull { taken: 1 };
    assert!(rt; by_heap(&run, &Sum, 1, 100) == Some(Err(full)));
    let none_taken = RedrawFault::BudgetSpent { taken: 0 };
    assert!(rt; by_heap(&run, &Sum, 8, 0) == Some(Err(none_taken)));
    let no_room = RedrawFault::ListFull { taken: 0 };
    assert!(rt; by_heap(&run, &Sum, 0, 0) == Some(Err(no_room)));
    Ok(())
}

#[test]
fn none_open(rt: HostRuntime) -> Result<(), Fail> {
    let mut run = open(rt.alloc(), ONE_MEETING)?;
    run.tick(0).ok().ok_or("a good tick")?;
    run.hold(0, 5).ok().ok_or("a good hold")?;
    assert!(rt; by_heap(&run, &Sum, 8, 100) == Some(Ok((14, 1, 0))));
    let run = open_held(rt.alloc(), TABLE)?;
    assert!(rt; by_heap(&run, &Sum, 1, 1) == Some(Ok((16, 1, 0))));
    Ok(())
}

// Either of the two meetings closes a ring where it is turned alone.
#[test]
fn rings(rt: HostRuntime) -> Result<(), Fail> {
    let run = open_held(rt.alloc(), TWO_MEETINGS)?;
    assert!(rt; !run.is_lawful(&[First::Other, First::Lower]));
    assert!(rt; !run.is_lawful(&[First::Lower, First::Other]));
    assert!(rt; run.is_lawful(&[First::Other, First::Other]));
    Ok(())
}

#[test]
fn two_meetings(rt: HostRuntime) -> Result<(), Fail> {
    let run = open_held(rt.alloc(), TWO_MEETINGS)?;
    assert!(rt; by_heap(&run, &Sum, 8, 100) == Some(Ok((11, 7, 2))));
    assert!(rt; by_stack(&run, &Sum) == Some(Ok((11, 5, 2))));
    assert!(rt; by_dive(&run, &Sum) == Some(Ok((11, 5, 2))));
    let driven = run.driven().ok_or("a run with a plan")?;
    let mut memory = [Node::default(); 8];
    let mut other = [Node::default(); 3];
    let (first, second) = both(
        driven,
        &Sum,
        &mut NodeHeap::new(&mut memory),
        &mut Stack::new(&mut other),
    );
    assert!(rt; first.is_ok_and(|redrawn| redrawn.cost == 11));
    assert!(rt; second.is_ok_and(|redrawn| redrawn.cost == 11));
    Ok(())
}

#[test]
fn too_many_open(rt: HostRuntime) -> Result<(), Fail> {
    let run = open(rt.alloc(), MANY_MEETINGS)?;
    let mut memory = [Node::default(); 8];
    let mut list = NodeHeap::new(&mut memory);
    let put = list.put(Node::default());
    assert!(rt; put.is_ok());
    let fault = Some(Err(RedrawFault::TooManyOpen));
    assert!(rt; redraw(&run, &Sum, &mut list, 100) == fault);
    assert_eq!(rt; list.len(), 1);
    Ok(())
}
