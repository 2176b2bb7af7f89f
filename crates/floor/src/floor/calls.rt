// The calls on a floor.
ghost use Rattle.std.specs.Prelude.{◌≡◌, IfOk};
ghost use Rattle.floor.specs.Calls.{judged, unless};
ghost use Rattle.floor.specs.Passing.{orders_of};
ghost use Rattle.floor.specs.Refused.{from_floor};
ghost use Rattle.floor.specs.Positions.{fresh_on, held, hold_fault, moved_at, standing_fault, ticked};

use super::Floor;
use crate::index::Index;
use crate::passing::PassingOrders;
use crate::scene::Scene;
use crate::table::{Shuttles, too_many};
use meetings::laws::meetings_stand;
use plans::plan::Plan;
use refusals::Refusal;
use std::alloc::{AllocError, Global};
use traffic::steps_stand;

/// The longest hold.
pub const LONGEST_HOLD: u32 = 4095;

/// Why a call is refused: a shuttle that is not in the plan, a hold at a last stop, a hold too long.
#[derive(Clone, Copy, PartialEq, Eq, Debug)]
pub enum FloorFault {
    NoShuttle,
    AtLastStop,
    LongHold,
}

// The conversion is written out, as those of the other faults are.
impl From<FloorFault> for Refusal {
    ghost from_gives = { λ e r. r ≡ from_floor e };

    fn from(fault: FloorFault) -> Refusal {
        match fault {
            FloorFault::NoShuttle => Refusal::NoShuttle,
            FloorFault::AtLastStop => Refusal::AtLastStop,
            FloorFault::LongHold => Refusal::LongHold,
        }
    }
}

impl Floor {
    /// The plan with every shuttle at stop 0 and no holds.
    pub fn new(alloc: Global, plan: Plan) -> Result<Floor, AllocError>
        ensures { IfOk result (λ f. f ≡ fresh_on plan) }
    {
        meetings_stand();
        let index = Index::new(alloc, plan.paths(), plan.meetings())?;
        let shuttles = Shuttles::fresh(alloc, plan.paths().len())?;
        Ok(Floor {
            plan,
            index,
            shuttles,
        })
    }

    // Refuses a hold for a shuttle that is not in the plan, at a last stop, or too long.
    fn check_hold(&self, shuttle: usize, ticks: u32) -> Result<(), FloorFault>
        ensures { result ≡ judged (hold_fault self.now shuttle ticks) tt }
    {
        if shuttle >= self.count() {
            return Err(FloorFault::NoShuttle);
        }
        if self.next_stop(shuttle).is_none() {
            return Err(FloorFault::AtLastStop);
        }
        if ticks > LONGEST_HOLD {
            return Err(FloorFault::LongHold);
        }
        Ok(())
    }

    /// Replaces the hold of a shuttle. A refused call changes nothing.
    pub fn hold(&mut self, shuttle: usize, ticks: u32) -> Result<(), FloorFault>
        ensures result { result ≡ judged (hold_fault self.old shuttle ticks) tt }
        ensures after { self.new ≡ unless (hold_fault self.old shuttle ticks) (held shuttle ticks self.old) self.old }
    {
        self.check_hold(shuttle, ticks)?;
        // A cast: the longest hold is 4,095 and no type's greatest number, so a `try_from` would test a second bound, and that test could not fail.
        self.shuttles.set_hold(shuttle, ticks as u16);
        Ok(())
    }

    /// One tick under orders: all move together. Answers the word of those that moved. A refused call changes nothing.
    pub fn tick(&mut self, orders: PassingOrders<'_>, standing: u32) -> Result<u32, FloorFault>
        ensures result { result ≡ judged (standing_fault self.old standing) (moved_at (orders_of orders.entry) standing self.old) }
        ensures after { self.new ≡ unless (standing_fault self.old standing) (ticked (orders_of orders.entry) standing self.old) self.old }
    {
        if too_many(standing, self.count()) {
            return Err(FloorFault::NoShuttle);
        }
        let scene = Scene {
            floor: self,
            orders,
        };
        steps_stand();
        let moved = scene.moved_word(standing);
        self.shuttles.step(moved);
        Ok(moved)
    }
}
