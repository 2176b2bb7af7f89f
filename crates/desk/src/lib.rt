//! What the console makes of a line.
#![tactic(auto)]

ghost use Rattle.std.specs.Prelude.{◌≡◌, ◌≤◌, length, Some};
ghost use Rattle.lines.specs.Lines.{command_of};
ghost use Rattle.desk.specs.Calls.{refused_by};
ghost use Rattle.desk.specs.Replies.{CarriesOut, IsNotShort, Shown, SheetShown};

pub mod calls;

use calls::{hold, redraw, tick};
use dispatch::dispatcher::Dispatcher;
use dispatch::laws::tallies_stand;
use lines::commands::{Command, read_line};
use lines::replies::Reply;
use refusals::Refusal;
use sheet::sheet::{SHEET_ROOM, write_sheet};
use sheet::sheets_stand;

/// The reply to what is refused.
pub fn refused(why: Refusal) -> Reply
    ensures { result ≡ refused_by why }
{
    why.number()
        .map_or(Reply::NoMemory, |number| Reply::Refused { number })
}

// Writes the sheet.
fn show(dispatcher: &Dispatcher, sheet: &mut [u8]) -> Reply
    ensures reply { SheetShown dispatcher.now result sheet.old sheet.new }
    ensures shown { Shown result sheet.new }
    ensures room { SHEET_ROOM ≤ length sheet.old → IsNotShort result }
{
    sheets_stand();
    write_sheet(dispatcher.run(), sheet).map_or_else(refused, |bytes| Reply::Sheet { bytes })
}

/// Carries out a command on a dispatcher. The sheet is written into the front of a buffer, which no
/// other command touches.
pub fn obey(dispatcher: &mut Dispatcher, command: Command, sheet: &mut [u8]) -> Reply
    ensures carries { CarriesOut (Some command) result
        dispatcher.old dispatcher.new sheet.old sheet.new }
    ensures shown { Shown result sheet.new }
    ensures room { SHEET_ROOM ≤ length sheet.old → IsNotShort result }
{
    tallies_stand();
    match command {
        Command::Hold { shuttle, ticks } => hold(dispatcher, shuttle, ticks),
        Command::Tick { standing } => tick(dispatcher, standing),
        Command::Redraw { budget } => redraw(dispatcher, budget),
        Command::Sheet => show(dispatcher, sheet),
    }
}

/// Carries out a line on a dispatcher; a bad line is refused before any call.
pub fn carry_out(dispatcher: &mut Dispatcher, line: &[u8], sheet: &mut [u8]) -> Reply
    ensures carries { CarriesOut (command_of line.now) result
        dispatcher.old dispatcher.new sheet.old sheet.new }
    ensures shown { Shown result sheet.new }
    ensures room { SHEET_ROOM ≤ length sheet.old → IsNotShort result }
{
    tallies_stand();
    match read_line(line) {
        None => refused(Refusal::BadLine),
        Some(command) => obey(dispatcher, command, sheet),
    }
}

#[cfg(test)]
mod tests;
