// A command, its line, and the reading of a line.
ghost use Rattle.std.specs.Prelude.{◌≡◌, IfOk, Some, string_bytes};
ghost use Rattle.lines.specs.Lines.{command_of, command_text, ReadsExactly};

use crate::numbers::{last_number, last_two_numbers};
use std::alloc::{AllocError, Global};

// Hold a shuttle for some ticks, tick with a standing word, put the cheapest orders in force that a search with a budget finds, or show the sheet.
#[derive(Clone, Copy, PartialEq, Eq, Debug)]
pub enum Command {
    Hold { shuttle: u32, ticks: u32 },
    Tick { standing: u32 },
    Redraw { budget: u32 },
    Sheet,
}

// The command of a whole line, its end included; none where the line is bad. It is no `TryFrom`: a bad line has no error to say more with.
pub fn read_line(line: &[u8]) -> Option<Command>
    ensures value { result ≡ command_of line.now }
    ensures exact { ReadsExactly result line.now }
{
    let [letter, rest @ ..] = line else {
        return None;
    };
    match char::from(*letter) {
        'H' => {
            let (shuttle, ticks) = last_two_numbers(rest)?;
            Some(Command::Hold { shuttle, ticks })
        }
        'T' => {
            let standing = last_number(rest)?;
            Some(Command::Tick { standing })
        }
        'R' => {
            let budget = last_number(rest)?;
            Some(Command::Redraw { budget })
        }
        'S' => match rest {
            [b'\n'] => Some(Command::Sheet),
            _ => None,
        },
        _ => None,
    }
}

// The line of a command.
// It is no `Display`: that the line reads back rests on the range of each number, which a proof has where the command is taken apart here.
pub fn command_line(heap: Global, command: Command) -> Result<String, AllocError>
    ensures text { IfOk result (λ t. string_bytes t ≡ command_text command) }
    ensures back { IfOk result (λ t. command_of (string_bytes t) ≡ Some command) }
{
    match command {
        Command::Hold { shuttle, ticks } => format!(in heap; "H {shuttle} {ticks}\n"),
        Command::Tick { standing } => format!(in heap; "T {standing}\n"),
        Command::Redraw { budget } => format!(in heap; "R {budget}\n"),
        Command::Sheet => String::from_str(heap, "S\n"),
    }
}
