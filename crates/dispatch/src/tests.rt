// Lists of calls on a plan that was worked out by hand.
ghost use Rattle.std.specs.Prelude.{List, Some, IfSome};
ghost use Rattle.plans.specs.declared.plan.Plan.{Plan};
ghost use Rattle.dispatch.specs.Agreement.{Agrees};
ghost use Rattle.dispatch.specs.Law.{Stands};
ghost use Rattle.dispatch.specs.Tally.{Call, tally};

use crate::answers::Answer;
use crate::calls::{Entry, Watch};
use crate::dispatcher::Dispatcher;
use crate::slip::Slip;
use costs::cost::Cost;
use costs::sum::Sum;
use lists::node::Node;
use lists::node_heap::NodeHeap;
use lists::waiting::WaitingList;
use refusals::Refusal;
use std::alloc::Global;
use std::test::Fail;

// Shuttle 0: place 1 at tick 0, 5 at 1, 2 at 2. Shuttle 1: 3 at 0, 5 at 3, 4 at 4. One meeting, at
// place 5.
const ONE_MEETING: &[u8] =
    b"\x00\x02\x00\x00\x00\x0c\x00\x03\x00\x18\x00\x03\x00\x01\x00\x00\x00\x05\x00\x01\x00\x02\x00\x02\x00\x03\x00\x00\x00\x05\x00\x03\x00\x04\x00\x04";

// Keeps the first answers.
#[derive(Drop)]
struct Answers {
    all: [Option<Result<Answer, Refusal>>; 10],
    count: usize,
}

impl Watch for Answers {
    ghost saw = { λ old answer shown new. Unit {0} };

    fn see(&mut self, _dispatcher: &Dispatcher, answer: &Result<Answer, Refusal>) {
        if let Some(place) = self.all.get_mut(self.count) {
            *place = Some(*answer);
            self.count += 1;
        }
    }
}

// The clauses alone show that a list of calls on what was just opened ends where the law holds.
fn open_and_carry<C: Cost, L: WaitingList, W: Watch>(
    alloc: Global,
    number: u32,
    bytes: &[u8],
    entries: &mut [Entry<C, L>],
    pockets: &mut [Option<Slip>],
    watch: &mut W,
) -> Option<Dispatcher>
    ensures { IfSome result (λ d. (plan : Plan) × ((calls : List Call)
        × (Agrees d (Some (tally plan number calls)) × Stands plan number calls))) }
{
    let mut dispatcher = Dispatcher::new();
    dispatcher.open(alloc, number, bytes).ok()?;
    dispatcher.carry_all(entries, pockets, watch);
    Some(dispatcher)
}

fn open(alloc: Global) -> Result<Dispatcher, Fail> {
    let mut dispatcher = Dispatcher::new();
    dispatcher
        .open(alloc, 7, ONE_MEETING)
        .ok()
        .ok_or("a good plan")?;
    Ok(dispatcher)
}

// Spends a slip that is left.
fn spend(dispatcher: &mut Dispatcher, pocket: Option<Slip>) {
    if let Some(slip) = pocket {
        let _ = dispatcher.dismiss(slip);
    }
}

// The answers of calls, with two pockets. No `?` may stand while slips are in hand.
fn carry_out<C: Cost, L: WaitingList>(
    dispatcher: &mut Dispatcher,
    entries: &mut [Entry<C, L>],
) -> Answers {
    let mut answers = Answers {
        all: [None; 10],
        count: 0,
    };
    let mut pockets = [None, None];
    dispatcher.carry_all(entries, &mut pockets, &mut answers);
    let [first, second] = pockets;
    spend(dispatcher, first);
    spend(dispatcher, second);
    answers
}

fn draft(memory: &mut [Node], pocket: usize) -> Entry<Sum, NodeHeap<'_>> {
    Entry::Draft {
        cost: Sum,
        list: NodeHeap::new(memory),
        budget: 10,
        pocket,
    }
}

#[test]
fn a_cheaper_draft(rt: HostRuntime) -> Result<(), Fail> {
    let mut dispatcher = open(rt.alloc())?;
    let mut memory = [Node::default(); 4];
    let mut entries = [
        Entry::Hold {
            shuttle: 0,
            ticks: 5,
        },
        draft(&mut memory, 0),
        Entry::Adopt { pocket: 0 },
        Entry::Tick { standing: 0 },
        Entry::Tick { standing: 0 },
        Entry::Tick { standing: 0 },
        Entry::Tick { standing: 0 },
        Entry::Tick { standing: 0 },
        Entry::Tick { standing: 0 },
        Entry::Tick { standing: 0 },
    ];
    let answers = carry_out(&mut dispatcher, &mut entries);
    let expected = [
        Some(Ok(Answer::Held)),
        Some(Ok(Answer::Drafted {
            cost: 9,
            taken: 3,
            run: 7,
            draft: 1,
        })),
        Some(Ok(Answer::Adopted(9))),
        Some(Ok(Answer::Moved(2))),
        Some(Ok(Answer::Moved(2))),
        Some(Ok(Answer::Moved(0))),
        Some(Ok(Answer::Moved(0))),
        Some(Ok(Answer::Moved(0))),
        Some(Ok(Answer::Moved(1))),
        Some(Ok(Answer::Moved(1))),
    ];
    assert!(rt; answers.all == expected);
    Ok(())
}

#[test]
fn slips(rt: HostRuntime) -> Result<(), Fail> {
    let mut dispatcher = open(rt.alloc())?;
    let mut memory = [Node::default(); 4];
    let mut more_memory = [Node::default(); 4];
    let mut third_memory = [Node::default(); 1];
    let mut entries = [
        draft(&mut memory, 0),
        Entry::Hold {
            shuttle: 0,
            ticks: 5,
        },
        Entry::Adopt { pocket: 0 },
        Entry::Dismiss { pocket: 0 },
        draft(&mut more_memory, 0),
        draft(&mut third_memory, 1),
        Entry::Dismiss { pocket: 0 },
    ];
    let answers = carry_out(&mut dispatcher, &mut entries);
    let expected = [
        Some(Ok(Answer::Drafted {
            cost: 6,
            taken: 3,
            run: 7,
            draft: 1,
        })),
        Some(Ok(Answer::Held)),
        Some(Err(Refusal::Overtaken)),
        Some(Ok(Answer::Drafted {
            cost: 9,
            taken: 3,
            run: 7,
            draft: 2,
        })),
        Some(Err(Refusal::ListFull { taken: 1 })),
        Some(Ok(Answer::Dismissed)),
        None,
        None,
        None,
        None,
    ];
    assert!(rt; answers.all == expected);
    Ok(())
}

#[test]
fn a_refused_plan(rt: HostRuntime) -> Result<(), Fail> {
    let mut answers = Answers {
        all: [None; 10],
        count: 0,
    };
    let mut entries: [Entry<Sum, NodeHeap<'_>>; 1] = [Entry::Tick { standing: 0 }];
    let dispatcher = open_and_carry(rt.alloc(), 7, b"", &mut entries, &mut [], &mut answers);
    assert!(rt; dispatcher.is_none());
    Ok(())
}
