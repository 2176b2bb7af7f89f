// Reads lines from standard input and prints what comes of each:
//   # text          a heading, printed as it is
//   P HEX           a new run, opened with a plan file
//   H S D           holds shuttle S for D ticks
//   T W             one tick, at which the shuttles that the word W names stand: the word of those that moved
//   dues N..        the due ticks from shuttle 0 on; those not given are 0. Nothing is printed
//   weights N..     the weights from shuttle 0 on; those not given are 0. Nothing is printed
//   I ORDERS        puts orders in force, if they are lawful
//   C COST          what the orders in force cost
//   R COST LIST PLACES BUDGET LEFT
//                   a search for the orders that cost least, with as many nodes as the budget says, over a list of as many places of memory, in which nodes are left: what the orders cost, the nodes taken, and the orders
// COST is sum or last, with due- or weight- before it for each layer over it. LIST is heap or stack, with dive- before it for a dive over it.
// Orders have a letter for each meeting, L where the lower shuttle goes first, O where the other does; or they are - for none.
// A refusal is printed as its number, with the nodes taken if it is that of a search.
#![tactic(auto)]

use anyhow::anyhow;
use costs::cost::{Cost, total};
use costs::due::Due;
use costs::figures::FIGURES;
use costs::last::Last;
use costs::sum::Sum;
use costs::weight::Weight;
use floor::timetable::Timetable;
use lists::dive::Dive;
use lists::node::Node;
use lists::node_heap::NodeHeap;
use lists::stack::Stack;
use lists::waiting::WaitingList;
use meetings::meet::First;
use redraw::finder::find_orders;
use redraw::redrawn::{RedrawFault, Redrawn};
use refusals::Refusal;
use run::run::Run;
use std::alloc::Global;
use std::str::SplitWhitespace;

// The number of every run.
const RUN: u32 = 7;

// How many nodes there is memory for.
const PLACES: usize = 1024;

// The figures that layers have.
#[derive(Clone, Copy)]
struct Tables {
    dues: [u32; FIGURES],
    weights: [u32; FIGURES],
}

// A run, and the figures of the costs that are asked of it.
#[derive(Drop)]
struct Case {
    run: Run,
    tables: Tables,
}

// A list and its memory, the nodes that a search may take, and how many nodes are left in the list from before.
#[derive(Clone, Copy)]
struct Means<'a> {
    list: &'a str,
    places: usize,
    budget: u32,
    left: usize,
}

// What is asked of a cost: the total of the orders in force, or a search.
#[derive(Clone, Copy)]
enum Question<'a> {
    Total,
    Search(Means<'a>),
}

// The letters of orders are this program's own, so they stand here and not at `First`.
fn read_firsts(alloc: Global, letters: &[u8]) -> anyhow::Result<Vec<First>> {
    let mut firsts = Vec::new(alloc);
    for letter in letters {
        firsts.push(match letter {
            b'L' => First::Lower,
            b'O' => First::Other,
            _ => return Err(anyhow!("no such order")),
        })?;
    }
    Ok(firsts)
}

fn letter_of(first: First) -> char {
    match first {
        First::Lower => 'L',
        First::Other => 'O',
    }
}

fn print_refusal(rt: &HostRuntime, why: Refusal) -> anyhow::Result<()> {
    match why.number() {
        Some(n) => println!(rt; "no {n}")?,
        None => println!(rt; "no memory")?,
    }
    Ok(())
}

fn print_fault(rt: &HostRuntime, why: RedrawFault) -> anyhow::Result<()> {
    match why {
        RedrawFault::TooManyOpen => println!(rt; "no 10")?,
        RedrawFault::ListFull { taken } => println!(rt; "no 12 {taken}")?,
        RedrawFault::BudgetSpent { taken } => println!(rt; "no 13 {taken}")?,
    }
    Ok(())
}

fn print_redrawn(rt: &HostRuntime, redrawn: &Redrawn) -> anyhow::Result<()> {
    print!(rt; "R {} {} ", redrawn.cost, redrawn.taken)?;
    let firsts = redrawn.orders.as_slice();
    if firsts.is_empty() {
        print!(rt; "-")?;
    }
    for first in firsts {
        print!(rt; "{}", letter_of(*first))?;
    }
    println!(rt; "")?;
    Ok(())
}

fn next_word<'a>(words: &mut SplitWhitespace<'a>) -> anyhow::Result<&'a str> {
    words.next().ok_or(anyhow!("too few words"))
}

fn open(rt: &HostRuntime, run: &mut Run, digits: &str) -> anyhow::Result<()> {
    let alloc = rt.alloc();
    let bytes = hex::decode(alloc, digits)?;
    match run.open(alloc, RUN, bytes.as_slice()) {
        Ok(_) => println!(rt; "P")?,
        Err(why) => print_refusal(rt, why)?,
    }
    Ok(())
}

fn hold(rt: &HostRuntime, run: &mut Run, words: &mut SplitWhitespace<'_>) -> anyhow::Result<()> {
    let shuttle = next_word(words)?.parse::<usize>()?;
    let ticks = next_word(words)?.parse::<u32>()?;
    match run.hold(shuttle, ticks) {
        Ok(_) => println!(rt; "H")?,
        Err(why) => print_refusal(rt, why)?,
    }
    Ok(())
}

fn tick(rt: &HostRuntime, run: &mut Run, word: &str) -> anyhow::Result<()> {
    match run.tick(word.parse::<u32>()?) {
        Ok(moved) => println!(rt; "T {moved}")?,
        Err(why) => print_refusal(rt, why)?,
    }
    Ok(())
}

fn read_table(words: SplitWhitespace<'_>) -> anyhow::Result<[u32; FIGURES]> {
    let mut table = [0; FIGURES];
    for (place, word) in table.iter_mut().zip(words) {
        *place = word.parse::<u32>()?;
    }
    Ok(table)
}

fn put_in_force(rt: &HostRuntime, run: &mut Run, letters: &str) -> anyhow::Result<()> {
    let firsts = read_firsts(rt.alloc(), letters.as_bytes())?;
    match run.put_in_force(firsts.as_slice()) {
        Ok(()) => println!(rt; "I")?,
        Err(_) => println!(rt; "I no")?,
    }
    Ok(())
}

fn print_total<C: Cost>(rt: &HostRuntime, run: &Run, cost: &C) -> anyhow::Result<()> {
    let mut timetable = Timetable::new();
    match run.expected(&mut timetable) {
        Ok(()) => println!(rt; "C {}", total(cost, timetable.arrivals()))?,
        Err(why) => print_refusal(rt, why)?,
    }
    Ok(())
}

// Puts nodes in that look like the first of a search, until there are so many or the list is full.
fn leave<L: WaitingList>(list: &mut L, nodes: usize) {
    for _ in 0..nodes {
        if list.put(Node::default()).is_err() {
            return;
        }
    }
}

fn search<C: Cost, L: WaitingList>(
    rt: &HostRuntime,
    run: &Run,
    cost: &C,
    list: &mut L,
    means: Means<'_>,
) -> anyhow::Result<()> {
    leave(list, means.left);
    let Some(driven) = run.driven() else {
        return print_refusal(rt, Refusal::NoPlan);
    };
    match find_orders(driven, cost, list, means.budget) {
        Ok(redrawn) => print_redrawn(rt, &redrawn),
        Err(why) => print_fault(rt, why),
    }
}

fn search_over<C: Cost>(
    rt: &HostRuntime,
    run: &Run,
    cost: &C,
    means: Means<'_>,
) -> anyhow::Result<()> {
    // An array, as a caller lends it that allocates nothing.
    let mut memory = [Node::default(); PLACES];
    let lent = memory
        .get_mut(..means.places)
        .ok_or(anyhow!("too many places"))?;
    match means.list {
        "heap" => search(rt, run, cost, &mut NodeHeap::new(lent), means),
        "stack" => search(rt, run, cost, &mut Stack::new(lent), means),
        "dive-heap" => search(rt, run, cost, &mut Dive::new(NodeHeap::new(lent)), means),
        "dive-stack" => search(rt, run, cost, &mut Dive::new(Stack::new(lent)), means),
        _ => Err(anyhow!("no such list")),
    }
}

fn ask<C: Cost>(
    rt: &HostRuntime,
    run: &Run,
    cost: &C,
    question: Question<'_>,
) -> anyhow::Result<()> {
    match question {
        Question::Total => print_total(rt, run, cost),
        Question::Search(means) => search_over(rt, run, cost, means),
    }
}

fn ask_by_name(
    rt: &HostRuntime,
    case: &Case,
    name: &str,
    question: Question<'_>,
) -> anyhow::Result<()> {
    let Tables {
        dues: ticks,
        weights,
    } = case.tables;
    let run = &case.run;
    match name {
        "sum" => ask(rt, run, &Sum, question),
        "last" => ask(rt, run, &Last, question),
        "due-sum" => ask(rt, run, &Due { ticks, cost: Sum }, question),
        "due-last" => ask(rt, run, &Due { ticks, cost: Last }, question),
        "weight-sum" => ask(rt, run, &Weight { weights, cost: Sum }, question),
        "due-weight-sum" => {
            let cost = Due {
                ticks,
                cost: Weight { weights, cost: Sum },
            };
            ask(rt, run, &cost, question)
        }
        _ => Err(anyhow!("no such cost")),
    }
}

fn read_means<'a>(words: &mut SplitWhitespace<'a>) -> anyhow::Result<Means<'a>> {
    let list = next_word(words)?;
    let places = next_word(words)?.parse::<usize>()?;
    let budget = next_word(words)?.parse::<u32>()?;
    let left = next_word(words)?.parse::<usize>()?;
    Ok(Means {
        list,
        places,
        budget,
        left,
    })
}

fn work_line(rt: &HostRuntime, case: &mut Case, line: &str) -> anyhow::Result<()> {
    let mut words = line.split_whitespace();
    match next_word(&mut words)? {
        "#" => println!(rt; "{line}")?,
        "P" => {
            case.run = Run::new();
            open(rt, &mut case.run, next_word(&mut words)?)?;
        }
        "H" => hold(rt, &mut case.run, &mut words)?,
        "T" => tick(rt, &mut case.run, next_word(&mut words)?)?,
        "dues" => case.tables.dues = read_table(words)?,
        "weights" => case.tables.weights = read_table(words)?,
        "I" => put_in_force(rt, &mut case.run, next_word(&mut words)?)?,
        "C" => ask_by_name(rt, case, next_word(&mut words)?, Question::Total)?,
        "R" => {
            let name = next_word(&mut words)?;
            let means = read_means(&mut words)?;
            ask_by_name(rt, case, name, Question::Search(means))?;
        }
        _ => return Err(anyhow!("no such line")),
    }
    Ok(())
}

fn work(rt: &HostRuntime) -> anyhow::Result<()> {
    let mut case = Case {
        run: Run::new(),
        tables: Tables {
            dues: [0; FIGURES],
            weights: [0; FIGURES],
        },
    };
    for line in rt.lines(rt.alloc()) {
        work_line(rt, &mut case, line?.as_str())?;
    }
    Ok(())
}

fn main(rt: HostRuntime) -> anyhow::Result<()> {
    work(&rt)
}
