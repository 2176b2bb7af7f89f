// Writing an order file into a buffer.
ghost use Rattle.std.specs.Prelude.{◌≡◌, ◌+◌, ◌*◌, ◌<◌, ◌≤◌, length, IsOk};
ghost use Rattle.files.specs.Bytes.{word_bytes};
ghost use Rattle.orders.specs.File.{wait_bytes, body_bytes, over, FitsWait, Written};
ghost use Rattle.orders.specs.Plans.{plan_orders, orders_length, shuttles_of, waits_of};
ghost use Rattle.orders.specs.Plans.{contents_bytes, bodies_bytes, file_bytes, file_length};
ghost use Rattle.orders.specs.Waits.{body_of};

use crate::waits::{Wait, count_second, wait_of};
use files::plan::MOST_SHUTTLES;
use meetings::laws::{joins_stand, meetings_stand};
use meetings::meet::{First, MOST_MEETINGS};
use plans::plan::Plan;

/// Room for any order file: the number of shuttles, an entry for each, and a wait for each meeting.
pub const ROOM_FOR_ORDERS: usize = 2 + 4 * MOST_SHUTTLES + 6 * MOST_MEETINGS;

// The buffer is shorter than the file.
#[derive(Clone, Copy, PartialEq, Eq, Debug)]
pub enum OrderFault {
    Short,
}

// A number of 16 bits, high byte first. The place is passed beside the buffer: contents and bodies are written in turns at places that are reckoned from counts, so a slice from each place on would be cut by the same number.
fn put_word(out: &mut [u8], at: usize, n: u16)
    requires { at + 2 ≤ length out.old }
    ensures { out.new ≡ over out.old at (word_bytes n) }
{
    out[at..at + 2].copy_from_slice(&n.to_be_bytes());
}

fn put_wait(out: &mut [u8], at: usize, wait: &Wait)
    requires space { at + 6 ≤ length out.old }
    requires fits { FitsWait wait.now }
    ensures { out.new ≡ over out.old at (wait_bytes wait.now) }
{
    put_word(out, at, wait.second.stop as u16);
    put_word(out, at + 2, wait.awaited.shuttle as u16);
    put_word(out, at + 4, wait.awaited.stop as u16);
}

// Orders of a plan: who goes first at each of its meetings, in meeting order. A meeting beyond the last of them is left out.
#[derive(Clone, Copy)]
struct Orders<'a> {
    plan: &'a Plan,
    firsts: &'a [First],
}

// Its loops go over the numbers of shuttles: by its number a shuttle's waits are found, and of its path nothing is asked.
impl<'a> Orders<'a> {
    // How many shuttles the plan has.
    fn shuttles(&self) -> usize
        ensures value { result ≡ shuttles_of self.now }
        ensures few { result ≤ MOST_SHUTTLES }
    {
        self.plan.paths().len()
    }

    // How many waits a shuttle has.
    fn count(&self, shuttle: usize) -> usize
        ensures count { result ≡ length (body_of shuttle (waits_of self.now)) }
        ensures few { result ≤ MOST_MEETINGS }
    {
        count_second(self.plan.meetings(), self.firsts, shuttle)
    }

    // The waits of a shuttle; answers the place behind them.
    fn put_body(&self, out: &mut [u8], at: usize, shuttle: usize) -> usize
        requires { at + length (body_bytes (waits_of self.now) shuttle) ≤ length out.old }
        ensures bytes { out.new ≡ over out.old at (body_bytes (waits_of self.now) shuttle) }
        ensures next { result ≡ at + length (body_bytes (waits_of self.now) shuttle) }
    {
        meetings_stand();
        let mut next = at;
        for (meeting, first) in self.plan.meetings().iter().zip(self.firsts) {
            let wait = wait_of(meeting, *first);
            if wait.second.shuttle == shuttle {
                put_wait(out, next, &wait);
                next += 6;
            }
        }
        next
    }

    // The bodies of all shuttles, behind the contents.
    fn put_bodies(&self, out: &mut [u8])
        requires { 2 + 4 * shuttles_of self.now + length (bodies_bytes self.now) ≤ length out.old }
        ensures { out.new ≡ over out.old (2 + 4 * shuttles_of self.now) (bodies_bytes self.now) }
    {
        joins_stand::<u8>();
        let shuttles = self.shuttles();
        let mut at = 2 + 4 * shuttles;
        for shuttle in 0..shuttles {
            at = self.put_body(out, at, shuttle);
        }
    }

    // The contents: where each body begins, and how many waits it has.
    fn put_contents(&self, out: &mut [u8])
        requires { 2 + 4 * shuttles_of self.now ≤ length out.old }
        ensures { out.new ≡ over out.old 2 (contents_bytes self.now) }
    {
        joins_stand::<u8>();
        let shuttles = self.shuttles();
        let mut at = 2;
        let mut begin = 2 + 4 * shuttles;
        for shuttle in 0..shuttles {
            let count = self.count(shuttle);
            put_word(out, at, begin as u16);
            put_word(out, at + 2, count as u16);
            at += 4;
            begin += 6 * count;
        }
    }

    // How long the file is.
    fn file_len(&self) -> usize
        ensures bytes { result ≡ length (file_bytes self.now) }
        ensures value { result ≡ file_length self.now }
        ensures few { result ≤ ROOM_FOR_ORDERS }
    {
        meetings_stand();
        joins_stand::<u8>();
        let waits = self.plan.meetings().len().min(self.firsts.len());
        2 + 4 * self.shuttles() + 6 * waits
    }

    fn put_file(&self, out: &mut [u8]) -> Result<usize, OrderFault>
        ensures written { Written result (file_bytes self.now) out.old out.new }
        ensures size { length (file_bytes self.now) ≡ file_length self.now }
        ensures room { ROOM_FOR_ORDERS ≤ length out.old → IsOk result }
    {
        joins_stand::<u8>();
        let len = self.file_len();
        if out.len() < len {
            return Err(OrderFault::Short);
        }
        put_word(out, 0, self.shuttles() as u16);
        self.put_contents(out);
        self.put_bodies(out);
        Ok(len)
    }
}

/// Writes the order file of a plan, by who goes first at each meeting, into the front of a buffer, and
/// answers its length. A meeting without a first, and a first without a meeting, are left out.
pub fn write_orders(plan: &Plan, firsts: &[First], out: &mut [u8]) -> Result<usize, OrderFault>
    ensures written { Written result (plan_orders plan.now firsts.now) out.old out.new }
    ensures size { length (plan_orders plan.now firsts.now) ≡ orders_length plan.now firsts.now }
    ensures room { ROOM_FOR_ORDERS ≤ length out.old → IsOk result }
{
    Orders { plan, firsts }.put_file(out)
}
