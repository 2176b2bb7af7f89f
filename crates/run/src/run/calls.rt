// The calls on a run.
ghost use Rattle.std.specs.Prelude.{◌≡◌, Some, None};
ghost use Rattle.plans.specs.Opening.{RefusedByNumber};
ghost use Rattle.refusals.specs.Refusals.{refusal};
ghost use Rattle.run.specs.Calls.{TakesHold, TakesTick, Opened, Drives};
ghost use Rattle.run.specs.Guards.{Keeps, KeepsOn};
ghost use Rattle.run.specs.Lawful.{PutInForce};

use super::{Driven, Run};
use crate::laws::runs_stand;
use floor::floor::Floor;
use floor::passing::PassingOrders;
use meetings::meet::First;
use orders::waits::plan_firsts;
use plans::plan::opening::read_plan;
use refusals::Refusal;
use std::alloc::Global;

/// Passing orders that are not lawful.
#[derive(Clone, Copy, PartialEq, Eq, Debug)]
pub struct Unlawful;

impl Driven {
    // Every shuttle at stop 0, no holds, and the plan's orders.
    fn new(alloc: Global, number: u32, bytes: &[u8]) -> Result<Driven, Refusal>
        ensures drives { Drives result number bytes.now }
        ensures numbers { RefusedByNumber refusal result bytes.now }
    {
        runs_stand();
        let plan = read_plan(alloc, bytes)?;
        let firsts = plan_firsts(alloc, &plan)?;
        let floor = Floor::new(alloc, plan)?;
        Ok(Driven {
            number,
            floor,
            firsts,
        })
    }

    fn hold(&mut self, shuttle: usize, ticks: u32) -> Result<(), Refusal>
        ensures { TakesHold shuttle ticks result (Some self.old) (Some self.new) }
    {
        runs_stand();
        self.floor.hold(shuttle, ticks).map_err(Refusal::from)
    }

    fn tick(&mut self, standing: u32) -> Result<u32, Refusal>
        ensures took { TakesTick standing result (Some self.old) (Some self.new) }
        ensures keeps { KeepsOn standing self.old self.new }
    {
        runs_stand();
        let orders = PassingOrders::Named(self.firsts.as_slice());
        self.floor.tick(orders, standing).map_err(Refusal::from)
    }

    // Puts lawful orders in force.
    fn put_in_force(&mut self, orders: &[First]) -> Result<(), Unlawful>
        ensures { PutInForce orders.now result (Some self.old) (Some self.new) }
    {
        runs_stand();
        if !self.is_lawful(orders) {
            return Err(Unlawful);
        }
        self.firsts.copy_from_slice(orders);
        Ok(())
    }
}

impl Run {
    /// A run without a plan.
    pub fn new() -> Run
        ensures { result ≡ None }
    {
        Run { driven: None }
    }

    /// Gives a run its plan, from the bytes of a plan file, and the number that the caller chose.
    pub fn open(&mut self, alloc: Global, number: u32, bytes: &[u8]) -> Result<(), Refusal>
        ensures opened { Opened result number bytes.now self.old self.new }
        ensures numbers { self.old ≡ None → RefusedByNumber refusal result bytes.now }
    {
        if self.driven.is_some() {
            return Err(Refusal::HasPlan);
        }
        let driven = Driven::new(alloc, number, bytes)?;
        self.driven = Some(driven);
        Ok(())
    }

    /// Replaces the hold of a shuttle.
    pub fn hold(&mut self, shuttle: usize, ticks: u32) -> Result<(), Refusal>
        ensures { TakesHold shuttle ticks result self.old self.new }
    {
        let driven = self.driven.as_mut().ok_or(Refusal::NoPlan)?;
        driven.hold(shuttle, ticks)
    }

    /// One tick, at which the shuttles that a word names stand. Answers the word of those that
    /// moved.
    pub fn tick(&mut self, standing: u32) -> Result<u32, Refusal>
        ensures took { TakesTick standing result self.old self.new }
        ensures keeps { Keeps standing self.old self.new }
    {
        let driven = self.driven.as_mut().ok_or(Refusal::NoPlan)?;
        driven.tick(standing)
    }

    /// Puts lawful orders in force; others are refused, and without a plan none are lawful.
    pub fn put_in_force(&mut self, orders: &[First]) -> Result<(), Unlawful>
        ensures { PutInForce orders.now result self.old self.new }
    {
        let driven = self.driven.as_mut().ok_or(Unlawful)?;
        driven.put_in_force(orders)
    }
}
