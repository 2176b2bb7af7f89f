// The shuttles of a run: the last stop that each has entered, and its hold.
ghost use Rattle.std.specs.Prelude.{◌≡◌, ◌+◌, ◌^◌, ◌<◌, ◌≤◌, length, if◌then◌else◌, IfOk, MatchBool, nat_eq, slice_get, slice_set};
ghost use Rattle.floor.specs.Shuttles.{shuttle_at, all_fresh, holding, step, CanStep, stepped};
ghost use Rattle.floor.specs.Words.{bit};

use files::plan::MOST_SHUTTLES;
use std::alloc::{AllocError, Global};
use std::marker::Model;

// The last stop entered, and the hold ticks left.
#[derive(Clone, Copy, PartialEq, Eq, Debug)]
pub struct Shuttle {
    pub stop: usize,
    pub hold: u16,
}

/// A record for each shuttle. A clause sees the list of them.
#[derive(Drop)]
pub struct Shuttles {
    records: Vec<Shuttle>,
}

impl Model for Shuttles {
    ghost use Rattle.std.specs.Prelude.{List};
    ghost use Rattle.floor.specs.declared.table.Shuttle.{Shuttle};

    ghost Value = { List Shuttle };

    ghost view = { λ t. t.records.items };
}

// Whether a shuttle is named by a word.
pub(crate) fn names(word: u32, shuttle: usize) -> bool
    requires { shuttle < MOST_SHUTTLES }
    ensures { result ≡ bit word shuttle }
{
    (word >> shuttle) % 2 == 1
}

// Whether a word names a shuttle that is not below a count.
pub(crate) fn too_many(standing: u32, count: usize) -> bool
    requires { count ≤ MOST_SHUTTLES }
    ensures { MatchBool result (2 ^ count ≤ standing) (standing < 2 ^ count) }
{
    count < MOST_SHUTTLES && standing >> count != 0
}

impl Shuttle {
    // The shuttle after a tick, by whether it moves: a hold above 0 falls by one.
    fn after_tick(self, moves: bool) -> Shuttle
        requires { self.stop < 65536 }
        ensures { result ≡ step moves self }
    {
        Shuttle {
            stop: self.stop + usize::from(moves),
            hold: self.hold.saturating_sub(1),
        }
    }
}

impl Shuttles {
    // All at stop 0, without holds.
    pub(crate) fn fresh(alloc: Global, count: usize) -> Result<Shuttles, AllocError>
        ensures { IfOk result (λ t. t ≡ all_fresh count) }
    {
        Ok(Shuttles {
            records: vec![in alloc; Shuttle { stop: 0, hold: 0 }; count]?,
        })
    }

    // The record of a shuttle, if there is one.
    pub(crate) fn get(&self, shuttle: usize) -> Option<Shuttle>
        ensures { result ≡ slice_get self.now shuttle }
    {
        self.records.get(shuttle).copied()
    }

    // The record of a shuttle that there is.
    pub(crate) fn at(&self, shuttle: usize) -> Shuttle
        requires { shuttle < length self.now }
        ensures { result ≡ shuttle_at self.now shuttle }
    {
        self.records[shuttle]
    }

    // Replaces the hold of one shuttle.
    pub(crate) fn set_hold(&mut self, shuttle: usize, ticks: u16)
        requires { shuttle < length self.old }
        ensures { self.new ≡ slice_set self.old shuttle (holding ticks (shuttle_at self.old shuttle)) }
    {
        self.records[shuttle].hold = ticks;
    }

    // The shuttles that a word names enter their next stops, and every hold above 0 falls by one.
    pub(crate) fn step(&mut self, moved: u32)
        requires few { length self.old ≤ MOST_SHUTTLES }
        requires fits { CanStep self.old }
        ensures { self.new ≡ stepped (bit moved) 0 self.old }
    {
        for (shuttle, one) in self.records.iter_mut().enumerate() {
            *one = one.after_tick(names(moved, shuttle));
        }
    }
}
