// A run, with or without a plan. The calls on it are in `run/calls.rt`.
use floor::floor::Floor;
use meetings::meet::First;
use std::marker::Model;

pub mod asks;
pub mod calls;
pub mod writes;

/// A plan that is driven: its floor, who goes first at each meeting, and the number that the caller
/// gave the run.
#[derive(Drop)]
pub struct Driven {
    number: u32,
    floor: Floor,
    firsts: Vec<First>,
}

impl Model for Driven {
    ghost use Rattle.run.specs.State.{State};

    ghost Value = { State };

    ghost use Rattle.run.specs.Views.{state_in, IsDriven};

    ghost view = { state_in };

    ghost invariant = { IsDriven };
}

/// A run is driven once it has a plan.
#[derive(Drop)]
pub struct Run {
    driven: Option<Driven>,
}

impl Model for Run {
    ghost use Rattle.std.specs.Prelude.{Option};
    ghost use Rattle.run.specs.State.{State};

    ghost Value = { Option State };

    ghost view = { λ r. r.driven };
}
