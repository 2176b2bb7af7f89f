// Reads lines from standard input and prints what a waiting list makes of each:
//   # text               a heading, printed as it is
//   LIST PLACES WORDS    the list is made over as many places of memory, and each word is a call of it:
//     B.D.T   a node is put in, with its bound, its word of those decided and its word of those turned; a list that is full answers "full"
//     -       the first node is taken and printed so, or "none"
//     x       the list is cleared
//     ?       the length is printed
// A LIST is heap or stack, with dive- before it for each dive over it. At the end of a line all that are left are taken and printed, and then one more.
#![tactic(auto)]

ghost use Rattle.std.specs.Prelude.{◌≡◌, ◌<◌, true, length, IfOk};

use anyhow::anyhow;
use lists::dive::Dive;
use lists::node::Node;
use lists::node_heap::NodeHeap;
use lists::stack::Stack;
use lists::waiting::WaitingList;
use std::str::{Split, SplitWhitespace};

fn next_number(parts: &mut Split<'_, char>) -> anyhow::Result<u64> {
    let part = parts.next().ok_or(anyhow!("a node of too few numbers"))?;
    Ok(part.parse::<u64>()?)
}

fn read_node(word: &str) -> anyhow::Result<Node> {
    let mut parts = word.split('.');
    let bound = next_number(&mut parts)?;
    let decided = next_number(&mut parts)?;
    let turned = next_number(&mut parts)?;
    Ok(Node {
        bound,
        decided,
        turned,
    })
}

fn put_one<L: WaitingList>(rt: &HostRuntime, list: &mut L, word: &str) -> anyhow::Result<()> {
    if list.put(read_node(word)?).is_err() {
        print!(rt; " full")?;
    }
    Ok(())
}

// Takes the first out and prints it; answers whether there was one.
fn take_one<L: WaitingList>(rt: &HostRuntime, list: &mut L) -> anyhow::Result<bool>
    ensures { IfOk result (λ some. some ≡ true → length (L.nodes list.new) < length (L.nodes list.old)) }
{
    let Some(
        Node {
            bound,
            decided,
            turned,
        },
    ) = list.take()
    else {
        print!(rt; " none")?;
        return Ok(false);
    };
    print!(rt; " {bound}.{decided}.{turned}")?;
    Ok(true)
}

fn call_one<L: WaitingList>(rt: &HostRuntime, list: &mut L, word: &str) -> anyhow::Result<()> {
    match word {
        "-" => {
            take_one(rt, list)?;
        }
        "x" => list.clear(),
        "?" => print!(rt; " {}", list.len())?,
        _ => put_one(rt, list, word)?,
    }
    Ok(())
}

fn work_calls<L: WaitingList>(
    rt: &HostRuntime,
    list: &mut L,
    words: SplitWhitespace<'_>,
) -> anyhow::Result<()> {
    print!(rt; "answers")?;
    for word in words {
        call_one(rt, list, word)?;
    }
    while take_one(rt, list)? {}
    println!(rt; "")?;
    Ok(())
}

fn work_line(
    rt: &HostRuntime,
    memory: &mut [Node],
    name: &str,
    words: SplitWhitespace<'_>,
) -> anyhow::Result<()> {
    match name {
        "heap" => work_calls(rt, &mut NodeHeap::new(memory), words),
        "stack" => work_calls(rt, &mut Stack::new(memory), words),
        "dive-heap" => work_calls(rt, &mut Dive::new(NodeHeap::new(memory)), words),
        "dive-stack" => work_calls(rt, &mut Dive::new(Stack::new(memory)), words),
        "dive-dive-heap" => work_calls(rt, &mut Dive::new(Dive::new(NodeHeap::new(memory))), words),
        "dive-dive-stack" => work_calls(rt, &mut Dive::new(Dive::new(Stack::new(memory))), words),
        _ => Err(anyhow!("no such list")),
    }
}

fn work(rt: &HostRuntime) -> anyhow::Result<()> {
    for line in rt.lines(rt.alloc()) {
        let line = line?;
        if line.as_str().starts_with('#') {
            println!(rt; "{line}")?;
            continue;
        }
        let mut words = line.as_str().split_whitespace();
        let name = words.next().ok_or(anyhow!("a line without a list"))?;
        let places = words
            .next()
            .ok_or(anyhow!("a list without places"))?
            .parse::<usize>()?;
        // An array, as a caller lends it that allocates nothing.
        let mut memory = [Node::default(); 256];
        let lent = memory.get_mut(..places).ok_or(anyhow!("too many places"))?;
        work_line(rt, lent, name, words)?;
    }
    Ok(())
}

fn main(rt: HostRuntime) -> anyhow::Result<()> {
    work(&rt)
}
