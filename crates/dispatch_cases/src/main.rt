// Reads cases from standard input and prints what comes of each line:
//   # TEXT          ends the case before: the slips left in the pockets are dismissed on dispatcher 0. Then a heading, printed as it is: all dispatchers are new, and all figures 0
//   open D N HEX    opens the run of dispatcher D under the number N, with a plan file
//   dues N..        the due ticks from shuttle 0 on; those not given are 0. Nothing is printed
//   weights N..     the weights from shuttle 0 on; those not given are 0. Nothing is printed
//   calls D CALLS   a list of calls on dispatcher D, carried out as one: each answer, with the draft that is in hand after it, and then how many nodes each draft's list has
//   often K D CALLS the same list K times; what the last time answers is printed
//   state D         the number of the run, each shuttle's last stop and its hold, the orders in force, and the arrivals under them
//   sheet D         the sheet
//   orders D        the order file
//   hand D          the draft in hand: its number, its cost, its orders, and whether it is overtaken
// A call is hold:S:T, tick:W, draft:COST:LIST:PLACES:BUDGET:LEFT:P, adopt:P or dismiss:P, where P is a pocket. The pockets are those of all dispatchers. A draft's list has so many places of memory, and so many nodes are left in it from before.
// COST is sum or last, with due-, weight-, due-weight- or weight-due- before it for the layers over it. LIST is heap or stack, with dive- or dive-dive- before it.
// Orders have a letter for each meeting, L where the lower shuttle goes first, O where the other does; or they are - for none.
// A refusal is printed as its number and its values.
#![tactic(auto)]

ghost use Rattle.std.specs.Prelude.{⊤};

use anyhow::anyhow;
use costs::due::Due;
use costs::figures::FIGURES;
use costs::last::Last;
use costs::sum::Sum;
use costs::weight::Weight;
use dispatch::answers::Answer;
use dispatch::calls::{Entry, Watch};
use dispatch::dispatcher::Dispatcher;
use dispatch::slip::Slip;
use either::{Either, Left, Right};
use floor::timetable::Timetable;
use lists::dive::Dive;
use lists::node::Node;
use lists::node_heap::NodeHeap;
use lists::stack::Stack;
use lists::waiting::WaitingList;
use meetings::meet::First;
use orders::write::ROOM_FOR_ORDERS;
use refusals::Refusal;
use run::run::{Driven, Run};
use sheet::sheet::{SHEET_ROOM, write_sheet};
use std::alloc::Global;
use std::io::{self, Write};
use std::slice::IterMut;
use std::str::{Split, SplitWhitespace};

// How many dispatchers a case has.
const DISPATCHERS: usize = 3;

// How many pockets they share.
const POCKETS: usize = 6;

// How many drafts there can be in a list of calls.
const DRAFTS: usize = 32;

// How many places of memory the list of each can have.
const PLACES: usize = 256;

// The costs of a list of calls, each of a kind of its own.
type Base = Either<Sum, Last>;

type OneLayer = Either<Due<Base>, Weight<Base>>;

type TwoLayers = Either<Due<Weight<Base>>, Weight<Due<Base>>>;

type AnyCost = Either<Base, Either<OneLayer, TwoLayers>>;

// Its waiting lists.
type Plain<'a> = Either<NodeHeap<'a>, Stack<'a>>;

type Dives<'a> = Either<Dive<Plain<'a>>, Dive<Dive<Plain<'a>>>>;

type AnyList<'a> = Either<Plain<'a>, Dives<'a>>;

// One of its calls.
type Call<'a> = Entry<AnyCost, AnyList<'a>>;

// The figures that layers have.
#[derive(Clone, Copy)]
struct Tables {
    dues: [u32; FIGURES],
    weights: [u32; FIGURES],
}

const NO_FIGURES: Tables = Tables {
    dues: [0; FIGURES],
    weights: [0; FIGURES],
};

// What a case has besides its pockets, whose slips cannot be let go; and memory for the lists of its drafts.
#[derive(Drop)]
struct Case {
    dispatchers: [Dispatcher; DISPATCHERS],
    tables: Tables,
    memory: Vec<[Node; PLACES]>,
}

// An answer, and then the draft in hand: its number, and whether it is overtaken.
#[derive(Clone, Copy)]
struct Seen {
    answer: Result<Answer, Refusal>,
    hand: Option<(u16, bool)>,
}

// Keeps what is seen, in order, and whether memory was wanting for some of it.
#[derive(Drop)]
struct Witness {
    seen: Vec<Seen>,
    wants_memory: bool,
}

impl Watch for Witness {
    // No clause needs to say what is kept.
    ghost saw = { λ _ _ _ _. ⊤ };

    fn see(&mut self, dispatcher: &Dispatcher, answer: &Result<Answer, Refusal>) {
        let hand = dispatcher
            .hand()
            .map(|draft| (draft.number, draft.overtaken));
        let answer = *answer;
        if self.seen.push(Seen { answer, hand }).is_err() {
            self.wants_memory = true;
        }
    }
}

fn new_dispatchers() -> [Dispatcher; DISPATCHERS] {
    [Dispatcher::new(), Dispatcher::new(), Dispatcher::new()]
}

// The letters of orders are this program's own, so they stand here and not at `First`.
fn letter_of(first: First) -> char {
    match first {
        First::Lower => 'L',
        First::Other => 'O',
    }
}

fn print_firsts(rt: &HostRuntime, firsts: &[First]) -> anyhow::Result<()> {
    if firsts.is_empty() {
        print!(rt; "-")?;
    }
    for first in firsts {
        print!(rt; "{}", letter_of(*first))?;
    }
    Ok(())
}

fn print_refusal(rt: &HostRuntime, why: Refusal) -> anyhow::Result<()> {
    match why.number() {
        Some(n) => print!(rt; "no {n}")?,
        None => print!(rt; "no memory")?,
    }
    for value in why.values().as_slice() {
        print!(rt; " {value}")?;
    }
    Ok(())
}

fn print_answer(rt: &HostRuntime, answer: Answer) -> anyhow::Result<()> {
    match answer {
        Answer::Held => print!(rt; "held")?,
        Answer::Moved(word) => print!(rt; "moved {word}")?,
        Answer::Drafted {
            cost,
            taken,
            run,
            draft,
        } => print!(rt; "draft {cost} {taken} {run} {draft}")?,
        Answer::Adopted(cost) => print!(rt; "adopted {cost}")?,
        Answer::Dismissed => print!(rt; "dismissed")?,
    }
    Ok(())
}

fn print_seen(rt: &HostRuntime, seen: Seen) -> anyhow::Result<()> {
    match seen.answer {
        Ok(answer) => print_answer(rt, answer)?,
        Err(why) => print_refusal(rt, why)?,
    }
    match seen.hand {
        None => println!(rt; "")?,
        Some((number, false)) => println!(rt; ", {number} in hand")?,
        Some((number, true)) => println!(rt; ", {number} overtaken")?,
    }
    Ok(())
}

// How many nodes the list of a draft has.
fn list_len(call: &Call<'_>) -> Option<u64> {
    match call {
        Entry::Draft { list, .. } => Some(list.len()),
        _ => None,
    }
}

fn print_lists(rt: &HostRuntime, calls: &[Call<'_>]) -> anyhow::Result<()> {
    if calls.iter().all(|call| list_len(call).is_none()) {
        return Ok(());
    }
    print!(rt; "lists")?;
    for len in calls.iter().filter_map(|call| list_len(call)) {
        print!(rt; " {len}")?;
    }
    println!(rt; "")?;
    Ok(())
}

fn next_word<'a>(words: &mut SplitWhitespace<'a>) -> anyhow::Result<&'a str> {
    words.next().ok_or(anyhow!("too few words"))
}

fn next_part<'a>(parts: &mut Split<'a, char>) -> anyhow::Result<&'a str> {
    parts.next().ok_or(anyhow!("too few parts of a call"))
}

fn next_index(parts: &mut Split<'_, char>) -> anyhow::Result<usize> {
    Ok(next_part(parts)?.parse::<usize>()?)
}

fn next_number(parts: &mut Split<'_, char>) -> anyhow::Result<u32> {
    Ok(next_part(parts)?.parse::<u32>()?)
}

fn read_table(words: SplitWhitespace<'_>) -> anyhow::Result<[u32; FIGURES]> {
    let mut table = [0; FIGURES];
    for (place, word) in table.iter_mut().zip(words) {
        *place = word.parse::<u32>()?;
    }
    Ok(table)
}

fn read_cost(tables: &Tables, name: &str) -> anyhow::Result<AnyCost> {
    let Tables {
        dues: ticks,
        weights,
    } = *tables;
    let (layers, base) = name.rsplit_once('-').unwrap_or(("", name));
    let cost = match base {
        "sum" => Left(Sum),
        "last" => Right(Last),
        _ => return Err(anyhow!("no such cost")),
    };
    Ok(match layers {
        "" => Left(cost),
        "due" => Right(Left(Left(Due { ticks, cost }))),
        "weight" => Right(Left(Right(Weight { weights, cost }))),
        "due-weight" => {
            let cost = Weight { weights, cost };
            Right(Right(Left(Due { ticks, cost })))
        }
        "weight-due" => {
            let cost = Due { ticks, cost };
            Right(Right(Right(Weight { weights, cost })))
        }
        _ => return Err(anyhow!("no such layers")),
    })
}

fn read_list<'a>(memory: &'a mut [Node], name: &str) -> anyhow::Result<AnyList<'a>> {
    let (dives, base) = name.rsplit_once('-').unwrap_or(("", name));
    let below = match base {
        "heap" => Left(NodeHeap::new(memory)),
        "stack" => Right(Stack::new(memory)),
        _ => return Err(anyhow!("no such list")),
    };
    Ok(match dives {
        "" => Left(below),
        "dive" => Right(Left(Dive::new(below))),
        "dive-dive" => Right(Right(Dive::new(Dive::new(below)))),
        _ => return Err(anyhow!("no such dives")),
    })
}

// Puts nodes in that look like the first of a search, until there are so many or the list is full.
fn leave<L: WaitingList>(list: &mut L, nodes: usize) {
    for _ in 0..nodes {
        if list.put(Node::default()).is_err() {
            return;
        }
    }
}

fn read_draft<'a>(
    tables: &Tables,
    memory: &mut IterMut<'a, [Node; PLACES]>,
    parts: &mut Split<'_, char>,
) -> anyhow::Result<Call<'a>> {
    let cost = read_cost(tables, next_part(parts)?)?;
    let name = next_part(parts)?;
    let places = memory
        .next()
        .ok_or(anyhow!("too many drafts"))?
        .get_mut(..next_index(parts)?)
        .ok_or(anyhow!("too many places"))?;
    let mut list = read_list(places, name)?;
    let budget = next_number(parts)?;
    leave(&mut list, next_index(parts)?);
    let pocket = next_index(parts)?;
    Ok(Entry::Draft {
        cost,
        list,
        budget,
        pocket,
    })
}

fn read_call<'a>(
    tables: &Tables,
    memory: &mut IterMut<'a, [Node; PLACES]>,
    word: &str,
) -> anyhow::Result<Call<'a>> {
    let mut parts = word.split(':');
    match next_part(&mut parts)? {
        "hold" => {
            let shuttle = next_index(&mut parts)?;
            let ticks = next_number(&mut parts)?;
            Ok(Entry::Hold { shuttle, ticks })
        }
        "tick" => {
            let standing = next_number(&mut parts)?;
            Ok(Entry::Tick { standing })
        }
        "draft" => read_draft(tables, memory, &mut parts),
        "adopt" => {
            let pocket = next_index(&mut parts)?;
            Ok(Entry::Adopt { pocket })
        }
        "dismiss" => {
            let pocket = next_index(&mut parts)?;
            Ok(Entry::Dismiss { pocket })
        }
        _ => Err(anyhow!("no such call")),
    }
}

fn read_calls<'a>(
    alloc: Global,
    tables: &Tables,
    memory: &'a mut [[Node; PLACES]],
    words: SplitWhitespace<'_>,
) -> anyhow::Result<Vec<Call<'a>>> {
    let mut memory = memory.iter_mut();
    let mut calls = Vec::new(alloc);
    for word in words {
        calls.push(read_call(tables, &mut memory, word)?)?;
    }
    Ok(calls)
}

// The dispatcher that a word names.
fn named<'a>(
    dispatchers: &'a mut [Dispatcher],
    words: &mut SplitWhitespace<'_>,
) -> anyhow::Result<&'a mut Dispatcher> {
    let index = next_word(words)?.parse::<usize>()?;
    dispatchers
        .get_mut(index)
        .ok_or(anyhow!("no such dispatcher"))
}

fn open(
    rt: &HostRuntime,
    dispatcher: &mut Dispatcher,
    words: &mut SplitWhitespace<'_>,
) -> anyhow::Result<()> {
    let number = next_word(words)?.parse::<u32>()?;
    let bytes = hex::decode(rt.alloc(), next_word(words)?)?;
    match dispatcher.open(rt.alloc(), number, bytes.as_slice()) {
        Ok(()) => print!(rt; "opened")?,
        Err(why) => print_refusal(rt, why)?,
    }
    println!(rt; "")?;
    Ok(())
}

// The list of calls, once.
fn carry(
    dispatcher: &mut Dispatcher,
    calls: &mut [Call<'_>],
    pockets: &mut [Option<Slip>],
    witness: &mut Witness,
) {
    witness.seen.clear();
    dispatcher.carry_all(calls, pockets, witness);
}

fn carry_out(
    rt: &HostRuntime,
    case: &mut Case,
    pockets: &mut [Option<Slip>],
    times: u32,
    mut words: SplitWhitespace<'_>,
) -> anyhow::Result<()> {
    let dispatcher = named(&mut case.dispatchers, &mut words)?;
    let mut witness = Witness {
        seen: Vec::new(rt.alloc()),
        wants_memory: false,
    };
    let memory = case.memory.as_mut_slice();
    let mut calls = read_calls(rt.alloc(), &case.tables, memory, words)?;
    for _ in 0..times {
        carry(dispatcher, calls.as_mut_slice(), pockets, &mut witness);
    }
    for seen in &witness.seen {
        print_seen(rt, *seen)?;
    }
    if witness.wants_memory {
        return Err(anyhow!("no memory for what is seen"));
    }
    print_lists(rt, calls.as_slice())
}

fn print_state(rt: &HostRuntime, driven: &Driven) -> anyhow::Result<()> {
    print!(rt; "run {}:", driven.number())?;
    for one in (0..usize::MAX).map_while(|s| driven.shuttle(s)) {
        print!(rt; " {}:{}", one.stop, one.hold)?;
    }
    print!(rt; " ")?;
    print_firsts(rt, driven.firsts())?;
    let mut timetable = Timetable::new();
    driven.expected(&mut timetable);
    for arrival in timetable.arrivals() {
        print!(rt; " {arrival}")?;
    }
    Ok(())
}

fn print_sheet(rt: &HostRuntime, run: &Run) -> anyhow::Result<()> {
    let mut room = [0u8; SHEET_ROOM];
    match write_sheet(run, &mut room) {
        Ok(len) => {
            let bytes = room.get(..len).ok_or(anyhow!("no such sheet"))?;
            println!(rt; "sheet {len}")?;
            io::writer(rt).write_all(bytes)?;
        }
        Err(why) => {
            print_refusal(rt, why)?;
            println!(rt; "")?;
        }
    }
    Ok(())
}

fn print_orders(rt: &HostRuntime, run: &Run) -> anyhow::Result<()> {
    let mut room = [0u8; ROOM_FOR_ORDERS];
    match run.write_orders(&mut room) {
        Ok(len) => {
            let bytes = room.get(..len).ok_or(anyhow!("no such orders"))?;
            let digits = hex::encode(rt.alloc(), bytes)?;
            print!(rt; "{digits}")?;
        }
        Err(why) => print_refusal(rt, why)?,
    }
    println!(rt; "")?;
    Ok(())
}

fn print_hand(rt: &HostRuntime, dispatcher: &Dispatcher) -> anyhow::Result<()> {
    let Some(draft) = dispatcher.hand() else {
        println!(rt; "hand none")?;
        return Ok(());
    };
    print!(rt; "hand {} {} ", draft.number, draft.cost)?;
    print_firsts(rt, draft.orders.as_slice())?;
    if draft.overtaken {
        print!(rt; " overtaken")?;
    }
    println!(rt; "")?;
    Ok(())
}

// What is asked of a dispatcher.
fn ask(rt: &HostRuntime, dispatcher: &Dispatcher, question: &str) -> anyhow::Result<()> {
    match question {
        "state" => {
            match dispatcher.run().driven() {
                Some(driven) => print_state(rt, driven)?,
                None => print_refusal(rt, Refusal::NoPlan)?,
            }
            println!(rt; "")?;
            Ok(())
        }
        "sheet" => print_sheet(rt, dispatcher.run()),
        "orders" => print_orders(rt, dispatcher.run()),
        "hand" => print_hand(rt, dispatcher),
        _ => Err(anyhow!("no such line")),
    }
}

// Dismisses the slips left in pockets.
fn end_case(
    rt: &HostRuntime,
    dispatchers: &mut [Dispatcher; DISPATCHERS],
    pockets: &mut [Option<Slip>],
) -> anyhow::Result<()> {
    let dispatcher = &mut dispatchers[0];
    for pocket in pockets {
        if let Some(slip) = pocket.take() {
            match dispatcher.dismiss(slip) {
                Ok(()) => print!(rt; "left: dismissed")?,
                Err(why) => {
                    print!(rt; "left: ")?;
                    print_refusal(rt, why)?;
                }
            }
            println!(rt; "")?;
        }
    }
    Ok(())
}

fn work_line(
    rt: &HostRuntime,
    case: &mut Case,
    pockets: &mut [Option<Slip>],
    line: &str,
) -> anyhow::Result<()> {
    let mut words = line.split_whitespace();
    match next_word(&mut words)? {
        "#" => {
            end_case(rt, &mut case.dispatchers, pockets)?;
            case.dispatchers = new_dispatchers();
            case.tables = NO_FIGURES;
            println!(rt; "{line}")?;
        }
        "open" => open(rt, named(&mut case.dispatchers, &mut words)?, &mut words)?,
        "dues" => case.tables.dues = read_table(words)?,
        "weights" => case.tables.weights = read_table(words)?,
        "calls" => carry_out(rt, case, pockets, 1, words)?,
        "often" => {
            let times = next_word(&mut words)?.parse::<u32>()?;
            carry_out(rt, case, pockets, times, words)?;
        }
        question => ask(rt, named(&mut case.dispatchers, &mut words)?, question)?,
    }
    Ok(())
}

fn work_lines(
    rt: &HostRuntime,
    case: &mut Case,
    pockets: &mut [Option<Slip>],
) -> anyhow::Result<()> {
    for line in rt.lines(rt.alloc()) {
        work_line(rt, case, pockets, line?.as_str())?;
    }
    end_case(rt, &mut case.dispatchers, pockets)
}

// Spends a slip, if there is one.
fn spend(dispatcher: &mut Dispatcher, slip: Option<Slip>) {
    if let Some(slip) = slip {
        let _ = dispatcher.dismiss(slip);
    }
}

fn work(rt: &HostRuntime) -> anyhow::Result<()> {
    let mut case = Case {
        dispatchers: new_dispatchers(),
        tables: NO_FIGURES,
        memory: vec![in rt.alloc(); [Node::default(); PLACES]; DRAFTS]?,
    };
    // As long as the pockets are here, nothing returns by `?`: it would let slips go.
    let mut pockets: [Option<Slip>; POCKETS] = [None, None, None, None, None, None];
    let worked = work_lines(rt, &mut case, &mut pockets);
    let [first, second, third, fourth, fifth, sixth] = pockets;
    let dispatcher = &mut case.dispatchers[0];
    spend(dispatcher, first);
    spend(dispatcher, second);
    spend(dispatcher, third);
    spend(dispatcher, fourth);
    spend(dispatcher, fifth);
    spend(dispatcher, sixth);
    worked
}

fn main(rt: HostRuntime) -> anyhow::Result<()> {
    work(&rt)
}
