// What the console answers.
ghost use Rattle.std.specs.Prelude.{◌≡◌, IfOk, Some, string_bytes};
ghost use Rattle.lines.specs.Replies.{reply_words, reply_text};

use std::alloc::{AllocError, Global};
use std::fmt;

// A hold was taken, a tick was made and this word moved, orders of this cost were put in force, the sheet was written and has so many bytes, the command was refused with a number, or memory was wanting.
// The number is what is printed; the kinds of refusals are those of the crates that refuse.
#[derive(Clone, Copy, PartialEq, Eq, Debug)]
pub enum Reply {
    Held,
    Ticked { moved: u32 },
    Redrawn { cost: u64 },
    Sheet { bytes: usize },
    Refused { number: u8 },
    NoMemory,
}

impl fmt::Display for Reply {
    ghost output = { λ r. Some (reply_words r) };

    fn fmt<W: fmt::Write>(&self, f: &mut fmt::Formatter<W>) -> fmt::Result {
        match self {
            Reply::Held => write!(f, "H"),
            Reply::Ticked { moved } => write!(f, "T {moved}"),
            Reply::Redrawn { cost } => write!(f, "R {cost}"),
            Reply::Sheet { .. } => write!(f, "S"),
            Reply::Refused { number } => write!(f, "no {number}"),
            Reply::NoMemory => write!(f, "no memory"),
        }
    }
}

/// The line of a reply, with its end.
#[derive(Clone, Copy, PartialEq, Eq, Debug)]
pub struct ReplyLine {
    pub reply: Reply,
}

impl fmt::Display for ReplyLine {
    ghost output = { λ line. Some (reply_text line.reply) };

    fn fmt<W: fmt::Write>(&self, f: &mut fmt::Formatter<W>) -> fmt::Result {
        writeln!(f, "{}", self.reply)
    }
}

// The line of a reply.
pub fn reply_line(heap: Global, reply: Reply) -> Result<String, AllocError>
    ensures { IfOk result (λ t. string_bytes t ≡ reply_text reply) }
{
    let line = ReplyLine { reply };
    format!(in heap; "{line}")
}
