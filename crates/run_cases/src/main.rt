// Reads cases from standard input, one in a line, and prints what comes of each:
//   # text     a heading, printed as it is
//   P HEX      a new run, opened with a plan file
//   p HEX      the same run, opened again
//   H S D      holds shuttle S for D ticks
//   T W        one tick, at which the shuttles that the word W names stand: the word of those that moved
//   S          each shuttle's last stop and its hold, and the orders in force, a letter for each meeting or - for none
//   A ORDERS   each shuttle's arrival under orders, or that these close a ring
//   E ORDERS   the entry ticks of each shuttle's stops under orders, or that these close a ring
//   F          each shuttle's arrival under the orders in force
//   O          the numbers of the open meetings
//   W ORDERS   whether orders are lawful
//   N S        the number of the next stop of shuttle S
//   I ORDERS   puts orders in force, if they are lawful
// Orders have a letter for each meeting: L where the lower shuttle goes first, O where the other does, - where the meeting is left out. They may be too few or too many, or none.
// A refusal is printed as its number.
#![tactic(auto)]

use anyhow::anyhow;
use arrayvec::ArrayVec;
use floor::timetable::Timetable;
use meetings::meet::{First, MOST_MEETINGS};
use meetings::stays::At;
use refusals::Refusal;
use run::run::Run;
use run::run::asks::EntryFault;
use std::alloc::{AllocError, Global};

// The number of every run.
const RUN: u32 = 7;

// A run, the plan file that it was opened with, which is empty before that, and the timetable in which its entry ticks are worked out. What prints is a function of the runtime and the run, since a method would take the runtime just so.
#[derive(Drop)]
struct Case {
    run: Run,
    file: Vec<u8>,
    timetable: Timetable,
}

// What a digit is worth; any other character counts as 0.
fn digit(c: u8) -> u8 {
    match c {
        b'0'..=b'9' => c - b'0',
        b'a'..=b'f' => c - b'a' + 10,
        _ => 0,
    }
}

// The bytes that pairs of digits write; a last digit without a second is passed over. It is not the
// kit's `hex`, which refuses what is no digit, and reads capital letters.
fn unhex(alloc: Global, digits: &[u8]) -> Result<Vec<u8>, AllocError> {
    let mut bytes = Vec::new(alloc);
    for pair in digits.chunks(2) {
        let [high, low] = pair else {
            break;
        };
        bytes.push((digit(*high) << 4) | digit(*low))?;
    }
    Ok(bytes)
}

// The letters of orders are this program's own, so they stand here and not at `First`.
fn first_of(letter: u8) -> Option<First> {
    match letter {
        b'L' => Some(First::Lower),
        b'O' => Some(First::Other),
        _ => None,
    }
}

fn letter_of(first: First) -> char {
    match first {
        First::Lower => 'L',
        First::Other => 'O',
    }
}

// Orders by their letters; those past the most meetings are not kept.
fn read_orders(letters: &[u8]) -> ArrayVec<Option<First>, MOST_MEETINGS> {
    let mut orders = ArrayVec::new();
    for letter in letters {
        if orders.try_push(first_of(*letter)).is_err() {
            break;
        }
    }
    orders
}

// Orders that leave no meeting out, by their letters.
fn read_firsts(heap: Global, letters: &[u8]) -> anyhow::Result<Vec<First>> {
    let mut firsts = Vec::new(heap);
    for letter in letters {
        let Some(first) = first_of(*letter) else {
            return Err(anyhow!("passing orders that leave a meeting out"));
        };
        firsts.push(first)?;
    }
    Ok(firsts)
}

fn has_plan(run: &Run) -> bool {
    run.shuttle(0).is_some()
}

fn shuttle_count(run: &Run) -> usize {
    (0..usize::MAX)
        .take_while(|s| run.shuttle(*s).is_some())
        .count()
}

// The number of stops of a shuttle, by the contents of a plan file; read here, so that no crate under test is asked.
fn stop_count(file: &[u8], shuttle: usize) -> usize {
    let at = shuttle.saturating_mul(4).saturating_add(6);
    let high = file.get(at).copied().unwrap_or(0);
    let low = file.get(at.saturating_add(1)).copied().unwrap_or(0);
    usize::from(u16::from_be_bytes([high, low]))
}

// As the console prints it, which is not under test here.
fn print_refusal(rt: &HostRuntime, why: Refusal) -> anyhow::Result<()> {
    match why.number() {
        Some(n) => println!(rt; "no {n}")?,
        None => println!(rt; "no memory")?,
    }
    Ok(())
}

fn print_fault(rt: &HostRuntime, letter: &str, why: EntryFault) -> anyhow::Result<()> {
    match why {
        EntryFault::NoPlan => print_refusal(rt, Refusal::NoPlan)?,
        EntryFault::Ring => println!(rt; "{letter} ring")?,
    }
    Ok(())
}

fn open(rt: &HostRuntime, case: &mut Case, digits: &str) -> anyhow::Result<()> {
    let heap = rt.alloc();
    let bytes = unhex(heap, digits.as_bytes())?;
    match case.run.open(heap, RUN, bytes.as_slice()) {
        Ok(_) => {
            case.file = bytes;
            println!(rt; "P")?;
        }
        Err(why) => print_refusal(rt, why)?,
    }
    Ok(())
}

fn hold(rt: &HostRuntime, run: &mut Run, rest: &str) -> anyhow::Result<()> {
    let Some((shuttle, ticks)) = rest.split_once(' ') else {
        return Err(anyhow!("a hold without ticks"));
    };
    match run.hold(shuttle.parse::<usize>()?, ticks.parse::<u32>()?) {
        Ok(_) => println!(rt; "H")?,
        Err(why) => print_refusal(rt, why)?,
    }
    Ok(())
}

fn tick(rt: &HostRuntime, run: &mut Run, rest: &str) -> anyhow::Result<()> {
    match run.tick(rest.parse::<u32>()?) {
        Ok(moved) => println!(rt; "T {moved}")?,
        Err(why) => print_refusal(rt, why)?,
    }
    Ok(())
}

fn print_shuttles(rt: &HostRuntime, run: &Run) -> anyhow::Result<()> {
    for one in (0..usize::MAX).map_while(|s| run.shuttle(s)) {
        print!(rt; " {}:{}", one.stop, one.hold)?;
    }
    Ok(())
}

fn print_firsts(rt: &HostRuntime, run: &Run) -> anyhow::Result<()> {
    if run.first(0).is_none() {
        print!(rt; "-")?;
    }
    for letter in (0..usize::MAX).map_while(|j| run.first(j)).map(letter_of) {
        print!(rt; "{letter}")?;
    }
    Ok(())
}

fn print_state(rt: &HostRuntime, run: &Run) -> anyhow::Result<()> {
    if !has_plan(run) {
        return print_refusal(rt, Refusal::NoPlan);
    }
    print!(rt; "S")?;
    print_shuttles(rt, run)?;
    print!(rt; " | ")?;
    print_firsts(rt, run)?;
    println!(rt; "")?;
    Ok(())
}

fn print_arrivals(rt: &HostRuntime, letter: &str, arrivals: &[u32]) -> anyhow::Result<()> {
    print!(rt; "{letter}")?;
    for arrival in arrivals {
        print!(rt; " {arrival}")?;
    }
    println!(rt; "")?;
    Ok(())
}

fn arrivals(rt: &HostRuntime, case: &mut Case, letters: &[u8]) -> anyhow::Result<()> {
    let orders = read_orders(letters);
    match case.run.entry_ticks(orders.as_slice(), &mut case.timetable) {
        Ok(()) => print_arrivals(rt, "A", case.timetable.arrivals()),
        Err(why) => print_fault(rt, "A", why),
    }
}

fn expected(rt: &HostRuntime, case: &mut Case) -> anyhow::Result<()> {
    match case.run.expected(&mut case.timetable) {
        Ok(()) => print_arrivals(rt, "F", case.timetable.arrivals()),
        Err(why) => print_refusal(rt, why),
    }
}

// The entry ticks of a path of so many stops.
fn print_path(
    rt: &HostRuntime,
    timetable: &Timetable,
    shuttle: usize,
    stops: usize,
) -> anyhow::Result<()> {
    let mut mark = ' ';
    for stop in 0..stops {
        print!(rt; "{mark}{}", timetable.tick(At { shuttle, stop }))?;
        mark = ',';
    }
    Ok(())
}

fn print_ticks(rt: &HostRuntime, case: &Case) -> anyhow::Result<()> {
    print!(rt; "E")?;
    for shuttle in 0..shuttle_count(&case.run) {
        let stops = stop_count(case.file.as_slice(), shuttle);
        print_path(rt, &case.timetable, shuttle, stops)?;
    }
    println!(rt; "")?;
    Ok(())
}

fn entry_ticks(rt: &HostRuntime, case: &mut Case, letters: &[u8]) -> anyhow::Result<()> {
    let orders = read_orders(letters);
    match case.run.entry_ticks(orders.as_slice(), &mut case.timetable) {
        Ok(()) => print_ticks(rt, case),
        Err(why) => print_fault(rt, "E", why),
    }
}

fn open_meetings(rt: &HostRuntime, run: &Run) -> anyhow::Result<()> {
    print!(rt; "O")?;
    let met = (0..usize::MAX).take_while(|j| run.first(*j).is_some());
    for j in met.filter(|j| run.is_open(*j)) {
        print!(rt; " {j}")?;
    }
    println!(rt; "")?;
    Ok(())
}

fn lawful(rt: &HostRuntime, run: &Run, letters: &[u8]) -> anyhow::Result<()> {
    if !has_plan(run) {
        return print_refusal(rt, Refusal::NoPlan);
    }
    let firsts = read_firsts(rt.alloc(), letters)?;
    if run.is_lawful(firsts.as_slice()) {
        println!(rt; "W yes")?;
    } else {
        println!(rt; "W no")?;
    }
    Ok(())
}

fn put_in_force(rt: &HostRuntime, run: &mut Run, letters: &[u8]) -> anyhow::Result<()> {
    if !has_plan(run) {
        return print_refusal(rt, Refusal::NoPlan);
    }
    let firsts = read_firsts(rt.alloc(), letters)?;
    match run.put_in_force(firsts.as_slice()) {
        Ok(()) => println!(rt; "I")?,
        Err(_) => println!(rt; "I no")?,
    }
    Ok(())
}

fn next_stop(rt: &HostRuntime, run: &Run, rest: &str) -> anyhow::Result<()> {
    match run.next_stop(rest.parse::<usize>()?) {
        Some(at) => println!(rt; "N {}", at.stop)?,
        None => println!(rt; "N none")?,
    }
    Ok(())
}

// What is asked of a run, or done to it.
fn on_run(rt: &HostRuntime, case: &mut Case, letter: &str, rest: &str) -> anyhow::Result<()> {
    match letter {
        "H" => hold(rt, &mut case.run, rest),
        "T" => tick(rt, &mut case.run, rest),
        "S" => print_state(rt, &case.run),
        "A" => arrivals(rt, case, rest.as_bytes()),
        "E" => entry_ticks(rt, case, rest.as_bytes()),
        "F" => expected(rt, case),
        "O" => open_meetings(rt, &case.run),
        "W" => lawful(rt, &case.run, rest.as_bytes()),
        "N" => next_stop(rt, &case.run, rest),
        "I" => put_in_force(rt, &mut case.run, rest.as_bytes()),
        _ => Err(anyhow!("no such case")),
    }
}

fn carry_out(rt: &HostRuntime, case: &mut Case, line: &str) -> anyhow::Result<()> {
    let (letter, rest) = line.split_once(' ').unwrap_or((line, ""));
    match letter {
        "#" => {
            println!(rt; "{line}")?;
            Ok(())
        }
        "P" => {
            case.run = Run::new();
            open(rt, case, rest)
        }
        "p" => open(rt, case, rest),
        _ => on_run(rt, case, letter, rest),
    }
}

fn work(rt: &HostRuntime) -> anyhow::Result<()> {
    let heap = rt.alloc();
    let mut case = Case {
        run: Run::new(),
        file: Vec::new(heap),
        timetable: Timetable::new(),
    };
    for line in rt.lines(heap) {
        let line = line?;
        carry_out(rt, &mut case, line.as_str())?;
    }
    Ok(())
}

fn main(rt: HostRuntime) -> anyhow::Result<()> {
    work(&rt)
}
