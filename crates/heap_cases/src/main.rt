// Reads lines from standard input and prints what a heap of 256 places makes of each:
//   # text     a heading, printed as it is
//   WORDS      a number is put in, with its place in the line; - takes the first out and prints it
// At the end of a line all that are left are taken out and printed, each as NUMBER.PLACE, and then one more.
// A call that finds the heap full prints "full", and one that finds it empty "none".
#![tactic(auto)]

ghost use Rattle.std.specs.Prelude.{◌≡◌, ◌<◌, true, length, IfOk};
ghost use Rattle.heap_cases.specs.Numbers.{numbered_le};
ghost use Rattle.std.proofs.Common.{rules};

use heap::bounded::BoundedHeap;
use heap::order::TotalOrder;

// By the number, then by the place.
#[derive(Clone, Copy, PartialEq, Eq, PartialOrd, Ord)]
struct Numbered {
    key: u32,
    place: u32,
}

impl TotalOrder for Numbered {
    ghost le = { numbered_le };

    ghost total = { Prim.search rules };

    ghost transitive = { Prim.search rules };

    ghost antisymmetric = { Prim.search rules };

    fn no_later(&self, other: &Numbered) -> bool {
        self <= other
    }
}

fn put_one(
    rt: &HostRuntime,
    numbers: &mut BoundedHeap<'_, Numbered>,
    one: Numbered,
) -> anyhow::Result<()> {
    if numbers.put(one).is_err() {
        print!(rt; " full")?;
    }
    Ok(())
}

// Takes the first out and prints it; answers whether there was one.
fn take_one(rt: &HostRuntime, numbers: &mut BoundedHeap<'_, Numbered>) -> anyhow::Result<bool>
    ensures { IfOk result (λ some. some ≡ true → length numbers.new.row < length numbers.old.row) }
{
    let Some(Numbered { key, place }) = numbers.take_first() else {
        print!(rt; " none")?;
        return Ok(false);
    };
    print!(rt; " {key}.{place}")?;
    Ok(true)
}

fn work_words(rt: &HostRuntime, memory: &mut [Numbered], line: &str) -> anyhow::Result<()> {
    print!(rt; "answers")?;
    let mut numbers = BoundedHeap::new(memory);
    for (place, word) in line.split_whitespace().enumerate() {
        if word == "-" {
            take_one(rt, &mut numbers)?;
        } else {
            let key = word.parse::<u32>()?;
            let place = u32::try_from(place)?;
            put_one(rt, &mut numbers, Numbered { key, place })?;
        }
    }
    while take_one(rt, &mut numbers)? {}
    println!(rt; "")?;
    Ok(())
}

fn work(rt: &HostRuntime) -> anyhow::Result<()> {
    for line in rt.lines(rt.alloc()) {
        let line = line?;
        if line.as_str().starts_with('#') {
            println!(rt; "{line}")?;
        } else {
            // An array, as a caller lends it that allocates nothing.
            let mut memory = [Numbered { key: 0, place: 0 }; 256];
            work_words(rt, &mut memory, line.as_str())?;
        }
    }
    Ok(())
}

fn main(rt: HostRuntime) -> anyhow::Result<()> {
    work(&rt)
}
