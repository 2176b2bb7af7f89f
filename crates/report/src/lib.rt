// What the register prints. The lines are functions and no impls of `Display`: the values are of types of other crates, and those crates know nothing of what a program prints.
#![tactic(auto)]

ghost use Rattle.std.specs.Prelude.{◌≡◌, ◌++◌, length, IfOk, string_bytes, sum_by, OnOk};
ghost use Rattle.files.specs.Views.{path_of, paths_of};
ghost use Rattle.refusals.specs.Refusals.{refusal};
ghost use Rattle.report.specs.Texts.{path_text, path_texts, wait_text, wait_texts, counts_text, text_of_plan, refusal_text, text_of_answer, orders_text};

use files::plan::{Path, Stop};
use meetings::stays::At;
use orders::waits::{Wait, plan_waits};
use plans::plan::Plan;
use plans::plan::opening::PlanFault;
use refusals::Refusal;
use std::alloc::{AllocError, Global};

// A path, in a line.
pub fn path_line(heap: Global, shuttle: usize, path: &Path) -> Result<String, AllocError>
    ensures { IfOk result (λ t. string_bytes t ≡ path_text shuttle (path_of path.now)) }
{
    let mut text = format!(in heap; "shuttle {shuttle}:")?;
    for stop in &path.stops {
        let Stop { place, tick } = *stop;
        write!(text, " place {place} (tick {tick})")?;
    }
    text.push_str("\n")?;
    Ok(text)
}

// A wait, in a line.
pub fn wait_line(heap: Global, wait: &Wait) -> Result<String, AllocError>
    ensures { IfOk result (λ t. string_bytes t ≡ wait_text wait.now) }
{
    let At { shuttle, stop } = wait.second;
    let other = wait.awaited.shuttle;
    let awaited = wait.awaited.stop;
    format!(in heap;
        "stop {stop} of shuttle {shuttle} waits for stop {awaited} of shuttle {other}\n"
    )
}

/// A refusal, in a line: its number and its values, or that memory was wanting.
pub fn refusal_line(alloc: Global, why: Refusal) -> Result<String, AllocError>
    ensures { IfOk result (λ t. string_bytes t ≡ refusal_text (refusal why)) }
{
    let Some(number) = why.number() else {
        return String::from_str(alloc, "no memory\n");
    };
    let mut text = format!(in alloc; "no {number}")?;
    let values = why.values();
    for value in values.as_slice() {
        write!(text, " {value}")?;
    }
    text.push_str("\n")?;
    Ok(text)
}

// How many stops all paths have together.
fn stop_total(paths: &[Path]) -> u128
    ensures { result ≡ sum_by length (paths_of paths.now) }
{
    paths.iter().map(|path| path.stops.len() as u128).sum()
}

// The numbers of shuttles, stops, tables and meetings.
pub fn counts_line(heap: Global, plan: &Plan) -> Result<String, AllocError>
    ensures { IfOk result (λ t. string_bytes t ≡ counts_text plan.now) }
{
    let shuttles = plan.paths().len();
    let stops = stop_total(plan.paths());
    let tables = plan.tables().len();
    let meetings = plan.meetings().len();
    format!(in heap; "plan {shuttles} {stops} {tables} {meetings}\n")
}

// A line for each path.
fn add_paths(heap: Global, plan: &Plan, text: &mut String) -> Result<(), AllocError>
    ensures { OnOk result (string_bytes text.new ≡ string_bytes text.old ++ path_texts 0 plan.now.paths) }
{
    for (shuttle, path) in plan.paths().iter().enumerate() {
        let line = path_line(heap, shuttle, path)?;
        text.push_str(line.as_str())?;
    }
    Ok(())
}

// A line for each wait. One function for both kinds of lines would take a closure that allocates, and would be no shorter.
fn add_waits(heap: Global, waits: &[Wait], text: &mut String) -> Result<(), AllocError>
    ensures { OnOk result (string_bytes text.new ≡ string_bytes text.old ++ wait_texts waits.now) }
{
    for wait in waits {
        let line = wait_line(heap, wait)?;
        text.push_str(line.as_str())?;
    }
    Ok(())
}

// The whole plan: its counts, a line for each path, and a line for each wait.
fn plan_text(heap: Global, plan: &Plan) -> Result<String, AllocError>
    ensures { IfOk result (λ t. string_bytes t ≡ text_of_plan plan.now) }
{
    let mut text = counts_line(heap, plan)?;
    add_paths(heap, plan, &mut text)?;
    let waits = plan_waits(heap, plan)?;
    add_waits(heap, waits.as_slice(), &mut text)?;
    Ok(text)
}

/// All that the register prints of an answer: the plan, or the refusal alone.
pub fn answer_text(alloc: Global, answer: &Result<Plan, PlanFault>) -> Result<String, AllocError>
    ensures { IfOk result (λ t. string_bytes t ≡ text_of_answer answer.now) }
{
    match answer {
        Ok(plan) => plan_text(alloc, plan),
        Err(fault) => refusal_line(alloc, Refusal::from(*fault)),
    }
}

// What writing the order file involved.
pub fn orders_line(heap: Global, meetings: usize, bytes: usize) -> Result<String, AllocError>
    ensures { IfOk result (λ t. string_bytes t ≡ orders_text meetings bytes) }
{
    format!(in heap; "orders.bin: {meetings} meetings, {bytes} bytes\n")
}
