// What a redrawing answers.
ghost use Rattle.std.specs.Prelude.{◌≡◌, ◌<◌, ◌≤◌, length, slice_set};
ghost use Rattle.meetings.specs.declared.meet.TheConstants.{MOST_MEETINGS};
ghost use Rattle.redraw.specs.declared.redrawn.RedrawFault.TheVariants as fault;
ghost use Rattle.redraw.specs.Faults.{from_search, refusal_of};

use meetings::meet::{First, MOST_MEETINGS};
use refusals::Refusal;
use search::found::SearchFault;
use std::marker::Model;

/// Passing orders that leave no meeting out, in memory of their own: nothing is allocated for them.
/// A clause sees who goes first at each meeting.
#[derive(Drop)]
pub struct CompleteOrders {
    firsts: [First; MOST_MEETINGS],
    len: usize,
}

impl Model for CompleteOrders {
    ghost use Rattle.std.specs.Prelude.{◌≤◌, List, take};
    ghost use Rattle.meetings.specs.declared.meet.First.{First};
    ghost use Rattle.meetings.specs.declared.meet.TheConstants.{MOST_MEETINGS};

    ghost Value = { List First };

    ghost view = { λ o. take o.len o.firsts };

    ghost invariant = { λ o. o.len ≤ MOST_MEETINGS };
}

impl CompleteOrders {
    // These firsts.
    pub(crate) fn new(firsts: &[First]) -> CompleteOrders
        requires { length firsts.now ≤ MOST_MEETINGS }
        ensures { result ≡ firsts.now }
    {
        let mut all = [First::Lower; MOST_MEETINGS];
        let len = firsts.len();
        all[..len].copy_from_slice(firsts);
        CompleteOrders { firsts: all, len }
    }

    // Gives a meeting another first.
    pub(crate) fn set(&mut self, meeting: usize, first: First)
        requires { meeting < length self.old }
        ensures { self.new ≡ slice_set self.old meeting first }
    {
        self.firsts[meeting] = first;
    }

    /// Who goes first at each meeting.
    pub fn as_slice(&self) -> &[First]
        ensures { result.now ≡ self.now }
    {
        &self.firsts[..self.len]
    }
}

/// The orders that cost least, their cost, and how many nodes the search took.
#[derive(Drop)]
pub struct Redrawn {
    pub cost: u64,
    pub taken: u32,
    pub orders: CompleteOrders,
}

/// Why there are none, with how many nodes were taken.
#[derive(Clone, Copy, Debug, PartialEq, Eq)]
pub enum RedrawFault {
    /// More than 64 meetings are open.
    TooManyOpen,
    /// The list refused a node.
    ListFull { taken: u32 },
    /// As many nodes were taken as the budget allows, and another waited.
    BudgetSpent { taken: u32 },
}

// The conversions are written out, since derived ones (`thiserror`) have no clause that says what
// comes of each fault.
impl From<SearchFault> for RedrawFault {
    ghost from_gives = { λ e r. r ≡ from_search e };

    fn from(fault: SearchFault) -> RedrawFault {
        match fault {
            SearchFault::Full { taken } => RedrawFault::ListFull { taken },
            SearchFault::Budget { taken } => RedrawFault::BudgetSpent { taken },
        }
    }
}

impl From<RedrawFault> for Refusal {
    ghost from_gives = { λ e r. r ≡ refusal_of e };

    fn from(fault: RedrawFault) -> Refusal {
        match fault {
            RedrawFault::TooManyOpen => Refusal::TooManyOpen,
            RedrawFault::ListFull { taken } => Refusal::ListFull { taken },
            RedrawFault::BudgetSpent { taken } => Refusal::BudgetSpent { taken },
        }
    }
}
