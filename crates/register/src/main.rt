// Reads plan.bin in the folder it runs in, writes the order file of its own orders beside it, and prints the plan, or why it is refused. A file that cannot be read counts as empty.
#![tactic(auto)]

use orders::waits::plan_firsts;
use orders::write::{ROOM_FOR_ORDERS, write_orders};
use plans::plan::Plan;
use plans::plan::opening::read_plan;
use report::{answer_text, orders_line};
use std::fs;

// Writes orders.bin, and prints what that involved.
fn save_orders(rt: &HostRuntime, plan: &Plan) -> anyhow::Result<()> {
    let heap = rt.alloc();
    let firsts = plan_firsts(heap, plan)?;
    // An array, so that no memory is wanted for it.
    let mut buffer = [0u8; ROOM_FOR_ORDERS];
    let len = write_orders(plan, firsts.as_slice(), &mut buffer).unwrap();
    fs::write(rt, "orders.bin", &buffer[..len])?;
    let line = orders_line(heap, plan.meetings().len(), len)?;
    print!(rt; "{line}")?;
    Ok(())
}

fn work(rt: &HostRuntime) -> anyhow::Result<()> {
    let heap = rt.alloc();
    let bytes = fs::read(rt, "plan.bin").unwrap_or_else(|_| Vec::new(heap));
    let answer = read_plan(heap, bytes.as_slice());
    let text = answer_text(heap, &answer)?;
    print!(rt; "{text}")?;
    if let Ok(plan) = &answer {
        save_orders(rt, plan)?;
    }
    Ok(())
}

fn main(rt: HostRuntime) -> anyhow::Result<()> {
    work(&rt)
}
