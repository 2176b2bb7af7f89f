// Reads lines from standard input and prints what costs make of arrivals:
//   # text            a heading, printed as it is
//   dues N..          the due ticks from shuttle 0 on; those not given are 0
//   weights N..       the weights from shuttle 0 on; those not given are 0
//   total COST N..    the total of the arrivals from shuttle 0 on
//   next COST T S A   the next total, from the total T and the arrival A of shuttle S
// COST is sum or last, with due- or weight- before it for each layer over it.
#![tactic(auto)]

use anyhow::anyhow;
use costs::cost::{Cost, total};
use costs::due::Due;
use costs::figures::FIGURES;
use costs::last::Last;
use costs::sum::Sum;
use costs::weight::Weight;
use std::alloc::Global;
use std::str::SplitWhitespace;

// The figures that layers have.
#[derive(Clone, Copy)]
struct Tables {
    dues: [u32; FIGURES],
    weights: [u32; FIGURES],
}

fn read_table(words: SplitWhitespace<'_>) -> anyhow::Result<[u32; FIGURES]> {
    let mut table = [0; FIGURES];
    for (place, word) in table.iter_mut().zip(words) {
        *place = word.parse::<u32>()?;
    }
    Ok(table)
}

fn read_arrivals(heap: Global, words: SplitWhitespace<'_>) -> anyhow::Result<Vec<u32>> {
    let mut arrivals = Vec::new(heap);
    for word in words {
        arrivals.push(word.parse::<u32>()?)?;
    }
    Ok(arrivals)
}

fn next_total<C: Cost>(cost: &C, words: &mut SplitWhitespace<'_>) -> anyhow::Result<u64> {
    let total = words.next().ok_or(anyhow!("no total"))?.parse::<u64>()?;
    let shuttle = words.next().ok_or(anyhow!("no shuttle"))?.parse::<usize>()?;
    let arrival = words.next().ok_or(anyhow!("no arrival"))?.parse::<u32>()?;
    Ok(cost.next(total, shuttle, arrival))
}

// What is asked of a cost.
#[derive(Clone, Copy)]
enum Question {
    Total,
    Next,
}

fn work_cost<C: Cost>(
    rt: &HostRuntime,
    cost: &C,
    question: Question,
    mut words: SplitWhitespace<'_>,
) -> anyhow::Result<()> {
    let answer = match question {
        Question::Total => total(cost, read_arrivals(rt.alloc(), words)?.as_slice()),
        Question::Next => next_total(cost, &mut words)?,
    };
    println!(rt; "{answer}")?;
    Ok(())
}

fn work_line(
    rt: &HostRuntime,
    tables: &Tables,
    question: Question,
    mut words: SplitWhitespace<'_>,
) -> anyhow::Result<()> {
    let Tables {
        dues: ticks,
        weights,
    } = *tables;
    match words.next() {
        Some("sum") => work_cost(rt, &Sum, question, words),
        Some("last") => work_cost(rt, &Last, question, words),
        Some("due-sum") => work_cost(rt, &Due { ticks, cost: Sum }, question, words),
        Some("due-last") => work_cost(rt, &Due { ticks, cost: Last }, question, words),
        Some("weight-sum") => work_cost(rt, &Weight { weights, cost: Sum }, question, words),
        Some("weight-last") => work_cost(
            rt,
            &Weight {
                weights,
                cost: Last,
            },
            question,
            words,
        ),
        Some("due-weight-sum") => {
            let cost = Due {
                ticks,
                cost: Weight { weights, cost: Sum },
            };
            work_cost(rt, &cost, question, words)
        }
        Some("weight-due-sum") => {
            let cost = Weight {
                weights,
                cost: Due { ticks, cost: Sum },
            };
            work_cost(rt, &cost, question, words)
        }
        _ => Err(anyhow!("no such cost")),
    }
}

fn work(rt: &HostRuntime) -> anyhow::Result<()> {
    let mut tables = Tables {
        dues: [0; FIGURES],
        weights: [0; FIGURES],
    };
    for line in rt.lines(rt.alloc()) {
        let line = line?;
        let mut words = line.as_str().split_whitespace();
        match words.next() {
            Some("dues") => tables.dues = read_table(words)?,
            Some("weights") => tables.weights = read_table(words)?,
            Some("#") => println!(rt; "{line}")?,
            Some("total") => work_line(rt, &tables, Question::Total, words)?,
            Some("next") => work_line(rt, &tables, Question::Next, words)?,
            _ => return Err(anyhow!("no such line")),
        }
    }
    Ok(())
}

fn main(rt: HostRuntime) -> anyhow::Result<()> {
    work(&rt)
}
