// Reads plan.bin in the folder it runs in and opens it in a dispatcher; then carries out the lines of standard input, to its end, and prints the reply to each. A file that cannot be read counts as empty.
#![tactic(auto)]

ghost use Rattle.desk.specs.Replies.{Shown};

use desk::{carry_out, refused};
use dispatch::dispatcher::Dispatcher;
use lines::replies::{Reply, ReplyLine};
use sheet::sheet::SHEET_ROOM;
use std::fs;
use std::io::{self, BufRead, BufReader, Write};

// The number of the console's run.
const RUN: u32 = 1;

fn print_line(rt: &HostRuntime, reply: Reply) -> anyhow::Result<()> {
    let line = ReplyLine { reply };
    print!(rt; "{line}")?;
    Ok(())
}

// A sheet is printed above its reply.
fn print_reply(rt: &HostRuntime, reply: Reply, sheet: &[u8]) -> anyhow::Result<()>
    requires { Shown reply sheet.now }
{
    if let Reply::Sheet { bytes } = reply {
        io::writer(rt).write_all(&sheet[..bytes])?;
    }
    print_line(rt, reply)
}

fn open(rt: &HostRuntime, dispatcher: &mut Dispatcher) -> anyhow::Result<()> {
    let heap = rt.alloc();
    let bytes = fs::read(rt, "plan.bin").unwrap_or_else(|_| Vec::new(heap));
    if let Err(why) = dispatcher.open(heap, RUN, bytes.as_slice()) {
        print_line(rt, refused(why))?;
    }
    Ok(())
}

fn work(rt: &HostRuntime) -> anyhow::Result<()> {
    let mut dispatcher = Dispatcher::new();
    open(rt, &mut dispatcher)?;
    let mut input = BufReader::new(rt.alloc(), rt.stdin())?;
    // `rt.lines` would give lines without their ends, which are judged here; so the loop reads, up to a count that no input reaches.
    for _ in 0..u64::MAX {
        let mut line = Vec::new(rt.alloc());
        if input.read_until(b'\n', &mut line)? == 0 {
            break;
        }
        let mut sheet = [0u8; SHEET_ROOM];
        let reply = carry_out(&mut dispatcher, line.as_slice(), &mut sheet);
        print_reply(rt, reply, &sheet)?;
    }
    Ok(())
}

fn main(rt: HostRuntime) -> anyhow::Result<()> {
    work(&rt)
}
