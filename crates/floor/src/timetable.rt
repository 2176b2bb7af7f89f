// The timetable of a floor under orders.
ghost use Rattle.std.specs.Prelude.{◌≡◌, ◌≤◌, [], None, OnOk, OnErr, length};
ghost use Rattle.traffic.specs.Ticks.{entry_ticks};
ghost use Rattle.floor.specs.Passing.{orders_of};
ghost use Rattle.floor.specs.Positions.{paths_in, scene_in};
ghost use Rattle.floor.specs.Times.{IsTimetable, tick_of};

use crate::floor::Floor;
use crate::passing::PassingOrders;
use crate::scene::Scene;
pub use crate::worklist::Ring;
use crate::worklist::Worklist;
use files::plan::MOST_SHUTTLES;
use meetings::stays::At;
use std::marker::Model;
use traffic::{plans_stand, rounds_stand};

/// The entry ticks of a plan's stops, and the arrivals of its shuttles. It stays with its user, who has it worked out again and again.
#[derive(Drop)]
pub struct Timetable {
    worklist: Worklist,
    arrivals: [u32; MOST_SHUTTLES],
    shuttles: usize,
}

impl Model for Timetable {
    ghost use Rattle.std.specs.Prelude.{◌≤◌, take};
    ghost use Rattle.files.specs.declared.plan.TheConstants.{MOST_SHUTTLES};
    ghost use Rattle.floor.specs.Times.{Times};

    ghost Value = { Times };

    ghost use Rattle.floor.specs.Worklists.{rows_of, Shaped};

    ghost view = { λ t. record { rows = rows_of t.worklist; arrivals = take t.shuttles t.arrivals } };

    ghost invariant = { λ t. Shaped t.worklist × (t.shuttles ≤ MOST_SHUTTLES) };
}

impl Timetable {
    /// A timetable of no shuttles.
    pub fn new() -> Timetable
        ensures { result.arrivals ≡ [] }
    {
        Timetable {
            worklist: Worklist::new(),
            arrivals: [0; MOST_SHUTTLES],
            shuttles: 0,
        }
    }

    /// The entry tick of a stop; 0 where there is no room for one. Of a stop that was not worked out it may be any.
    pub fn tick(&self, at: At) -> u32
        ensures { result ≡ tick_of self.now at }
    {
        self.worklist.tick(at)
    }

    /// The entry tick of each shuttle's last stop, in the order of their numbers.
    pub fn arrivals(&self) -> &[u32]
        ensures value { result.now ≡ self.now.arrivals }
        ensures few { length result.now ≤ MOST_SHUTTLES }
    {
        &self.arrivals[..self.shuttles]
    }

    /// Works out the entry ticks of a floor under orders. After a ring it may hold anything.
    pub fn work_out(&mut self, floor: &Floor, orders: PassingOrders<'_>) -> Result<(), Ring>
        ensures ticks { OnOk result (IsTimetable (scene_in floor.now (orders_of orders.entry)) (length (paths_in floor.now)) self.new) }
        ensures ring { OnErr result (entry_ticks (scene_in floor.now (orders_of orders.entry)) (length (paths_in floor.now)) ≡ None) }
    {
        rounds_stand();
        plans_stand();
        let scene = Scene { floor, orders };
        self.shuttles = floor.count();
        self.worklist.run(&scene);
        self.worklist.arrive(&scene, &mut self.arrivals)
    }
}
