// Reading an order file back: the orders whose file it is, or that it is the file of none.
ghost use Rattle.std.specs.Prelude.{◌≡◌, ◌^◌, ◌<◌, MatchBool, IsTrue, ◌↔◌, ◌≢◌, slice_index};
ghost use Rattle.files.specs.Layout.{word};
ghost use Rattle.plans.specs.Kept.{IsKept};
ghost use Rattle.orders.specs.declared.read.ReadFault.TheVariants.{Memory};
ghost use Rattle.orders.specs.Plans.{plan_orders};
ghost use Rattle.orders.specs.Reading.{EntryIs, Lists, Guessed, Guesses};
ghost use Rattle.orders.specs.RoundTrip.{ReadsOrders};
ghost use Rattle.orders.specs.Waits.{FitsMeeting};

use crate::waits::{Wait, wait_of};
use crate::write::{ROOM_FOR_ORDERS, write_orders};
use meetings::laws::{joins_stand, meetings_stand};
use meetings::meet::{First, Meeting};
use plans::plan::Plan;
use std::alloc::{AllocError, AllocFailed, Global};

// Why no orders are read: the file is not an order file of the plan, or memory is wanting.
#[derive(Clone, Copy, PartialEq, Eq, Debug)]
pub enum ReadFault {
    NotOrders,
    Memory,
}

// Want of memory comes as two types of error. Both conversions are written out: a derived one (`thiserror`) has no clause that says what comes of it, and two of one generic conversion would be no fewer.
impl From<AllocError> for ReadFault {
    ghost from_gives = { λ _ r. r ≡ Memory };

    fn from(_e: AllocError) -> ReadFault {
        ReadFault::Memory
    }
}

impl<T: Drop> From<AllocFailed<T>> for ReadFault {
    ghost from_gives = { λ _ r. r ≡ Memory };

    fn from(_e: AllocFailed<T>) -> ReadFault {
        ReadFault::Memory
    }
}

// The functions below take a place beside the bytes: each reads at places of its own, reckoned from numbers of the file, and none goes on where another stopped.

// The byte at a place; past the end it is 0.
fn byte_at(bytes: &[u8], at: usize) -> u8
    ensures { result ≡ slice_index bytes.now at }
{
    bytes.get(at).copied().unwrap_or(0)
}

// The number at a place.
fn word_at(bytes: &[u8], at: usize) -> usize
    requires { at < 2 ^ 32 }
    ensures value { result ≡ word bytes.now at }
    ensures small { result < 2 ^ 16 }
{
    usize::from(u16::from_be_bytes([byte_at(bytes, at), byte_at(bytes, at + 1)]))
}

// Whether a wait is the entry at a place.
fn entry_is(bytes: &[u8], at: usize, wait: &Wait) -> bool
    requires { at < 2 ^ 31 }
    ensures { IsTrue result ↔ EntryIs bytes.now at wait.now }
{
    word_at(bytes, at) == wait.second.stop
        && word_at(bytes, at + 2) == wait.awaited.shuttle
        && word_at(bytes, at + 4) == wait.awaited.stop
}

// Whether a wait is among the entries from a place on.
fn lists(bytes: &[u8], begin: usize, count: usize, wait: &Wait) -> bool
    requires small { begin < 2 ^ 16 }
    requires few { count < 2 ^ 16 }
    ensures { IsTrue result ↔ Lists bytes.now begin count wait.now }
{
    (0..count).any(|k| entry_is(bytes, begin + 6 * k, wait))
}

// Who goes first at a meeting, if the file is one of the plan: the other shuttle, if the lower one's body has the wait.
fn guess(bytes: &[u8], meeting: &Meeting) -> First
    requires { FitsMeeting meeting.now }
    ensures { Guessed bytes.now meeting.now result }
{
    let shuttle = meeting.lower.shuttle;
    let begin = word_at(bytes, 2 + 4 * shuttle);
    let count = word_at(bytes, 4 + 4 * shuttle);
    let wait = wait_of(meeting, First::Other);
    if lists(bytes, begin, count, &wait) {
        First::Other
    } else {
        First::Lower
    }
}

// The guess at each meeting of the plan.
fn guesses(heap: Global, bytes: &[u8], plan: &Plan) -> Result<Vec<First>, ReadFault>
    ensures value { Guesses result bytes.now plan.now.meetings }
    ensures kept { IsKept plan.now }
{
    meetings_stand();
    let mut firsts = Vec::new(heap);
    for meeting in plan.meetings() {
        firsts.push(guess(bytes, meeting))?;
    }
    Ok(firsts)
}

// Whether the order file of these orders is just these bytes.
fn is_file(plan: &Plan, firsts: &[First], bytes: &[u8]) -> bool
    ensures { MatchBool result (bytes.now ≡ plan_orders plan.now firsts.now) (bytes.now ≢ plan_orders plan.now firsts.now) }
{
    // An array, so that the comparison itself cannot fail for want of memory.
    let mut scratch = [0u8; ROOM_FOR_ORDERS];
    let len = write_orders(plan, firsts, &mut scratch).unwrap();
    &scratch[..len] == bytes
}

// The orders whose file these bytes are, one for each meeting of the plan.
pub fn read_orders(heap: Global, plan: &Plan, bytes: &[u8]) -> Result<Vec<First>, ReadFault>
    ensures { ReadsOrders result plan.now bytes.now }
{
    meetings_stand();
    joins_stand::<u8>();
    let firsts = guesses(heap, bytes, plan)?;
    if is_file(plan, firsts.as_slice(), bytes) {
        Ok(firsts)
    } else {
        Err(ReadFault::NotOrders)
    }
}
