// What is asked of a run.
ghost use Rattle.std.specs.Prelude.{◌≡◌, ◌↔◌, length, IsTrue, false, Some, Ok};
ghost use Rattle.std.specs.Option.{option_and_then, option_copied, option_map, option_map_or};
ghost use Rattle.run.specs.declared.run.asks.EntryFault.TheVariants as fault;
ghost use Rattle.run.specs.Asks.{shuttle_of, next_of, first_of};
ghost use Rattle.run.specs.Lawful.{Agrees, LawfulFor, Lawful};
ghost use Rattle.run.specs.Opens.{OpenIn, OpenOn, open_at};
ghost use Rattle.run.specs.Sound.{RunsSoundly};
ghost use Rattle.run.specs.Timing.{HasExpected, TicksUnder, Expected};

use super::{Driven, Run};
use crate::laws::runs_stand;
use floor::passing::PassingOrders;
use floor::table::Shuttle;
use floor::timetable::{Ring, Timetable};
use meetings::meet::First;
use meetings::stays::At;
use plans::plan::Plan;
use refusals::Refusal;

/// Why there are no entry ticks: the run has no plan, or the orders close a ring.
#[derive(Clone, Copy, PartialEq, Eq, Debug)]
pub enum EntryFault {
    NoPlan,
    Ring,
}

// Written out, since a derived conversion (`thiserror`) has no clause that says what comes of it.
impl From<Ring> for EntryFault {
    ghost from_gives = { λ _ r. r ≡ fault.Ring };

    fn from(_ring: Ring) -> EntryFault {
        EntryFault::Ring
    }
}

impl Driven {
    /// The number that the caller gave the run.
    pub fn number(&self) -> u32
        ensures { result ≡ self.now.number }
    {
        self.number
    }

    /// The plan that is driven.
    pub fn plan(&self) -> &Plan
        ensures value { result.now ≡ self.now.plan }
        ensures sound { RunsSoundly self.now }
    {
        self.floor.plan()
    }

    /// Who goes first at each meeting, by the orders in force.
    pub fn firsts(&self) -> &[First]
        ensures { result.now ≡ self.now.firsts }
    {
        self.firsts.as_slice()
    }

    /// Who goes first at a meeting, if there is such a meeting.
    pub fn first(&self, meeting: usize) -> Option<First>
        ensures { result ≡ first_of meeting self.now }
    {
        self.firsts.get(meeting).copied()
    }

    /// The record of a shuttle; none of one that is not in the plan.
    pub fn shuttle(&self, shuttle: usize) -> Option<Shuttle>
        ensures { result ≡ shuttle_of shuttle self.now }
    {
        self.floor.shuttle(shuttle)
    }

    /// The next stop of a shuttle; none at its last stop, and none of one that is not in the plan.
    pub fn next_stop(&self, shuttle: usize) -> Option<At>
        ensures { result ≡ next_of shuttle self.now }
    {
        self.floor.next_stop(shuttle)
    }

    /// Whether a meeting is open.
    pub fn is_open(&self, meeting: usize) -> bool
        ensures test { result ≡ open_at self.now meeting }
        ensures open { IsTrue result ↔ OpenOn meeting self.now }
    {
        self.floor.is_open(meeting)
    }

    // Whether orders agree with those in force wherever a meeting is not open.
    fn agrees(&self, orders: &[First]) -> bool
        requires { length orders.now ≡ length self.now.firsts }
        ensures { IsTrue result ↔ Agrees self.now orders.now }
    {
        orders.iter().zip(self.firsts()).enumerate().all(|(meeting, (order, first))| order == first
            || self.is_open(meeting))
    }

    /// Whether passing orders are lawful.
    pub fn is_lawful(&self, orders: &[First]) -> bool
        ensures { IsTrue result ↔ LawfulFor self.now orders.now }
    {
        if orders.len() != self.plan().meetings().len() || !self.agrees(orders) {
            return false;
        }
        let mut timetable = Timetable::new();
        timetable
            .work_out(&self.floor, PassingOrders::Named(orders))
            .is_ok()
    }

    /// The entry ticks of all stops under orders, of which some may be left out, and the arrivals.
    pub fn entry_ticks(
        &self,
        orders: &[Option<First>],
        timetable: &mut Timetable,
    ) -> Result<(), EntryFault>
        ensures { TicksUnder orders.now (Some self.now) result timetable.old timetable.new }
    {
        timetable.work_out(&self.floor, PassingOrders::Partial(orders))?;
        Ok(())
    }

    /// The entry ticks and the arrivals under the orders in force: there always are some.
    pub fn expected(&self, timetable: &mut Timetable)
        ensures { HasExpected self.now timetable.new }
    {
        runs_stand();
        timetable
            .work_out(&self.floor, PassingOrders::Named(self.firsts.as_slice()))
            .unwrap();
    }
}

impl Run {
    /// What is driven; none without a plan.
    pub fn driven(&self) -> Option<&Driven>
        ensures { option_copied result ≡ self.now }
    {
        self.driven.as_ref()
    }

    /// The number that the caller gave the run.
    pub fn number(&self) -> Option<u32>
        ensures { result ≡ option_map (λ st. st.number) self.now }
    {
        Some(self.driven.as_ref()?.number())
    }

    /// The record of a shuttle; none of one that is not in the plan.
    pub fn shuttle(&self, shuttle: usize) -> Option<Shuttle>
        ensures { result ≡ option_and_then (shuttle_of shuttle) self.now }
    {
        self.driven.as_ref()?.shuttle(shuttle)
    }

    /// The next stop of a shuttle; none at its last stop, and none of one that is not in the plan.
    pub fn next_stop(&self, shuttle: usize) -> Option<At>
        ensures { result ≡ option_and_then (next_of shuttle) self.now }
    {
        self.driven.as_ref()?.next_stop(shuttle)
    }

    /// Who goes first at a meeting, by the orders in force.
    pub fn first(&self, meeting: usize) -> Option<First>
        ensures { result ≡ option_and_then (first_of meeting) self.now }
    {
        self.driven.as_ref()?.first(meeting)
    }

    /// Whether a meeting is open; none is without a plan.
    pub fn is_open(&self, meeting: usize) -> bool
        ensures test { result ≡ option_map_or (λ st. open_at st meeting) self.now false }
        ensures open { IsTrue result ↔ OpenIn meeting self.now }
    {
        self.driven
            .as_ref()
            .is_some_and(|driven| driven.is_open(meeting))
    }

    /// Whether passing orders are lawful; none are without a plan.
    pub fn is_lawful(&self, orders: &[First]) -> bool
        ensures { IsTrue result ↔ Lawful orders.now self.now }
    {
        self.driven
            .as_ref()
            .is_some_and(|driven| driven.is_lawful(orders))
    }

    /// The entry ticks of all stops under orders, of which some may be left out, and the arrivals.
    pub fn entry_ticks(
        &self,
        orders: &[Option<First>],
        timetable: &mut Timetable,
    ) -> Result<(), EntryFault>
        ensures { TicksUnder orders.now self.now result timetable.old timetable.new }
    {
        let driven = self.driven.as_ref().ok_or(EntryFault::NoPlan)?;
        driven.entry_ticks(orders, timetable)
    }

    /// The entry ticks and the arrivals under the orders in force.
    pub fn expected(&self, timetable: &mut Timetable) -> Result<(), Refusal>
        ensures { Expected self.now result timetable.old timetable.new }
    {
        let driven = self.driven.as_ref().ok_or(Refusal::NoPlan)?;
        driven.expected(timetable);
        Ok(())
    }
}
