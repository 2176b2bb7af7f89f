// Reads cases from standard input, one in a line, and prints what comes of each:
//   # text     a heading, printed as it is
//   HEX        a plan file: what the register prints of it, and the order file of its own orders
//   > HEX      an order file for the last plan that was taken: who goes first at each meeting, or that it is none
//   = N        the last plan's order file, written into a buffer of N bytes that held 170 (hexadecimal aa) throughout
#![tactic(auto)]

use meetings::meet::First;
use orders::read::read_orders;
use orders::waits::plan_firsts;
use orders::write::write_orders;
use plans::plan::Plan;
use plans::plan::opening::read_plan;
use refusals::Refusal;
use report::answer_text;
use std::alloc::{AllocError, Global};

// The longest buffer that is shown.
const LONGEST_BUFFER: usize = 50000;

// What a digit is worth; any other character counts as 0.
fn digit(c: u8) -> u8 {
    match c {
        b'0'..=b'9' => c - b'0',
        b'a'..=b'f' => c - b'a' + 10,
        _ => 0,
    }
}

// The bytes that pairs of digits write; a last digit without a second is passed over. It is not the
// kit's `hex`, which refuses what is no digit, and reads capital letters.
fn unhex(alloc: Global, digits: &[u8]) -> Result<Vec<u8>, AllocError> {
    let mut bytes = Vec::new(alloc);
    for pair in digits.chunks(2) {
        let [high, low] = pair else {
            break;
        };
        bytes.push((digit(*high) << 4) | digit(*low))?;
    }
    Ok(bytes)
}

// Digit by digit, with no text made first.
fn print_hex(rt: &HostRuntime, bytes: &[u8]) -> anyhow::Result<()> {
    for byte in bytes {
        print!(rt; "{byte:02x}")?;
    }
    println!(rt; "")?;
    Ok(())
}

// The order file of the plan's own orders, and all of the buffer that it is written into.
fn print_written(rt: &HostRuntime, plan: &Plan, out: &mut [u8]) -> anyhow::Result<()> {
    let firsts = plan_firsts(rt.alloc(), plan)?;
    match write_orders(plan, firsts.as_slice(), out) {
        Ok(len) => print!(rt; "{len} bytes ")?,
        Err(fault) => {
            if let Some(number) = Refusal::from(fault).number() {
                print!(rt; "no {number} ")?;
            }
        }
    }
    print_hex(rt, out)
}

fn print_orders(rt: &HostRuntime, plan: &Plan, size: usize) -> anyhow::Result<()> {
    // An array, so that no memory is wanted for it.
    let mut buffer = [170u8; LONGEST_BUFFER];
    if size > buffer.len() {
        return Ok(());
    }
    print_written(rt, plan, &mut buffer[..size])
}

// The words of orders are this program's own.
fn print_firsts(rt: &HostRuntime, plan: &Plan, digits: &[u8]) -> anyhow::Result<()> {
    let heap = rt.alloc();
    let bytes = unhex(heap, digits)?;
    match read_orders(heap, plan, bytes.as_slice()) {
        Ok(firsts) => {
            print!(rt; "first")?;
            for f in firsts {
                match f {
                    First::Lower => print!(rt; " lower")?,
                    First::Other => print!(rt; " other")?,
                }
            }
            println!(rt; "")?;
        }
        // Want of memory is printed so too.
        Err(_) => println!(rt; "no order file of the plan")?,
    }
    Ok(())
}

// A plan file; answers the plan, if it is taken.
fn print_plan(rt: &HostRuntime, digits: &[u8]) -> anyhow::Result<Option<Plan>> {
    let heap = rt.alloc();
    let bytes = unhex(heap, digits)?;
    let answer = read_plan(heap, bytes.as_slice());
    let text = answer_text(heap, &answer)?;
    print!(rt; "{text}")?;
    Ok(answer.ok())
}

// The number that the digits of a line write. It is no `parse`, since what is no digit is passed over.
fn number(digits: &[u8]) -> usize {
    digits
        .iter()
        .filter_map(|digit| char::from(*digit).to_digit(10))
        .fold(0, |n: usize, digit| {
            n.saturating_mul(10).saturating_add(digit as usize)
        })
}

fn on_plan(rt: &HostRuntime, plan: &Plan, line: &[u8]) -> anyhow::Result<()> {
    match line {
        [b'>', _, rest @ ..] => print_firsts(rt, plan, rest),
        [b'=', rest @ ..] => print_orders(rt, plan, number(rest)),
        _ => Ok(()),
    }
}

fn work(rt: &HostRuntime) -> anyhow::Result<()> {
    let mut last: Option<Plan> = None;
    for line in rt.lines(rt.alloc()) {
        let line = line?;
        if line.as_str().starts_with('#') {
            println!(rt; "{line}")?;
        } else if line.as_str().starts_with('>') || line.as_str().starts_with('=') {
            if let Some(plan) = &last {
                on_plan(rt, plan, line.as_bytes())?;
            }
        } else {
            last = print_plan(rt, line.as_bytes())?;
        }
    }
    Ok(())
}

fn main(rt: HostRuntime) -> anyhow::Result<()> {
    work(&rt)
}
