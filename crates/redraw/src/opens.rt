// The open meetings of a run.
ghost use Rattle.std.specs.Prelude.{◌≡◌, ◌<◌, ◌≤◌, ◌↔◌, length, IfSome, IsSome};
ghost use Rattle.meetings.specs.declared.meet.TheConstants.{MOST_MEETINGS};
ghost use Rattle.floor.specs.Words.{bit as bit_of};
ghost use Rattle.run.specs.Lawful.{first_at};
ghost use Rattle.run.specs.Opens.{open_meetings};
ghost use Rattle.run.specs.Sound.{RunsSoundly};
ghost use Rattle.run.specs.State.{meetings_on};
ghost use Rattle.redraw.specs.declared.finder.TheConstants.{MOST_OPEN};
ghost use Rattle.redraw.specs.Nodes.{leaves_before as leaves_first, lowest as lowest_of};
ghost use Rattle.redraw.specs.Nodes.{numbers_of, violates as violates_at};
ghost use Rattle.redraw.specs.Orders.{KeepsClosed, first_or_turned, orders_of, orders_of_word};

use crate::finder::MOST_OPEN;
use crate::redrawn::CompleteOrders;
use arrayvec::ArrayVec;
use floor::timetable::Timetable;
use meetings::meet::{First, MOST_MEETINGS};
use orders::waits::wait_at;
use run::laws::runs_stand;
use run::run::Driven;

// Whether a word has a bit.
fn has_bit(word: u64, bit: usize) -> bool
    requires { bit < 64 }
    ensures { result ≡ bit_of word bit }
{
    (word >> bit) % 2 == 1
}

// The numbers of the open meetings, if they are not too many.
fn list_opens(driven: &Driven) -> Option<ArrayVec<usize, MOST_OPEN>>
    ensures listed { IfSome result (λ opens. opens.items ≡ open_meetings driven.now) }
    ensures few { IsSome result ↔ (length (open_meetings driven.now) ≤ MOST_OPEN) }
    ensures sound { RunsSoundly driven.now }
{
    runs_stand();
    let mut opens = ArrayVec::new();
    for meeting in 0..driven.plan().meetings().len() {
        if driven.is_open(meeting) {
            if opens.is_full() {
                return None;
            }
            opens.push(meeting);
        }
    }
    Some(opens)
}

// The open meetings in number order: bit k of a word stands for the k-th of them.
#[derive(Drop)]
pub(crate) struct OpenMeetings<'a> {
    pub(crate) driven: &'a Driven,
    numbers: ArrayVec<usize, MOST_OPEN>,
    ghost listed: { numbers.items ≡ open_meetings driven.now },
    ghost few: { length numbers.items ≤ MOST_OPEN },
    ghost ordered: { length driven.now.firsts ≡ length (meetings_on driven.now) },
    ghost fits: { length (meetings_on driven.now) ≤ MOST_MEETINGS },
}

impl<'a> OpenMeetings<'a> {
    // None, if they are too many.
    pub(crate) fn new(driven: &'a Driven) -> Option<OpenMeetings<'a>>
        ensures driven { IfSome result (λ opens. opens.driven.now ≡ driven.now) }
        ensures few { IsSome result ↔ (length (open_meetings driven.now) ≤ MOST_OPEN) }
        ensures sound { RunsSoundly driven.now }
    {
        let numbers = list_opens(driven)?;
        Some(OpenMeetings { driven, numbers })
    }

    // Who goes first at a meeting, as in force or turned.
    fn first(&self, meeting: usize, turns: bool) -> First
        requires { meeting < length self.now.driven.now.firsts }
        ensures { result ≡ first_or_turned turns (first_at self.now.driven.now.firsts meeting) }
    {
        match (self.driven.firsts()[meeting], turns) {
            (First::Lower, false) | (First::Other, true) => First::Lower,
            (First::Other, false) | (First::Lower, true) => First::Other,
        }
    }

    // Orders that name all meetings as in force.
    pub(crate) fn in_force(&self) -> ArrayVec<Option<First>, MOST_MEETINGS>
        ensures { KeepsClosed self.now.driven.now result.items }
    {
        let mut orders = ArrayVec::new();
        for first in self.driven.firsts() {
            orders.push(Some(*first));
        }
        orders
    }

    // Gives each open meeting the order that a node has for it.
    pub(crate) fn decide(&self, decided: u64, turned: u64, orders: &mut [Option<First>])
        requires { KeepsClosed self.now.driven.now orders.old }
        ensures { orders.new ≡ orders_of self.now.driven.now decided turned }
    {
        runs_stand();
        for (bit, &meeting) in self.numbers.as_slice().iter().enumerate() {
            let first = self.first(meeting, has_bit(turned, bit));
            orders[meeting] = has_bit(decided, bit).then_some(first);
        }
    }

    // The complete orders of a word.
    pub(crate) fn complete(&self, turned: u64) -> CompleteOrders
        ensures { result ≡ orders_of_word self.now.driven.now turned }
    {
        runs_stand();
        let mut orders = CompleteOrders::new(self.driven.firsts());
        for (bit, &meeting) in self.numbers.as_slice().iter().enumerate() {
            orders.set(meeting, self.first(meeting, has_bit(turned, bit)));
        }
        orders
    }

    // Whether the first in force leaves a meeting before the second enters.
    fn leaves_before(&self, timetable: &Timetable, meeting: usize) -> bool
        requires { meeting < length self.now.driven.now.firsts }
        ensures { result ≡ leaves_first self.now.driven.now (numbers_of timetable.now) meeting }
    {
        let first = self.driven.firsts()[meeting];
        match wait_at(self.driven.plan(), meeting, first) {
            Some(wait) => timetable.tick(wait.awaited) < timetable.tick(wait.second),
            None => unreachable!(),
        }
    }

    // Whether a meeting, given with its bit, is undecided, and the first in force does not leave it
    // before the second enters.
    fn violates(&self, decided: u64, timetable: &Timetable, bit: usize, meeting: usize) -> bool
        requires bit { bit < 64 }
        requires meeting { meeting < length self.now.driven.now.firsts }
        ensures { result
            ≡ violates_at self.now.driven.now decided (numbers_of timetable.now) (bit, meeting) }
    {
        !has_bit(decided, bit) && !self.leaves_before(timetable, meeting)
    }

    // The bit of the lowest undecided open meeting that the first in force does not leave before
    // the second enters; none, if there is no such meeting.
    pub(crate) fn lowest(&self, decided: u64, timetable: &Timetable) -> Option<u32>
        ensures { result ≡ lowest_of self.now.driven.now decided (numbers_of timetable.now) }
    {
        runs_stand();
        for (bit, &meeting) in self.numbers.as_slice().iter().enumerate() {
            if self.violates(decided, timetable, bit, meeting) {
                return Some(bit as u32);
            }
        }
        None
    }
}
