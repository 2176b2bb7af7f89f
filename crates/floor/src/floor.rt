// The floor of a plan: where its shuttles are on their paths.
use crate::index::Index;
use crate::table::Shuttles;
use plans::plan::Plan;
use std::marker::Model;

pub mod asks;
pub mod calls;
mod stops;

/// A plan with its index, and a record for each of its shuttles, which is on its path.
#[derive(Drop)]
pub struct Floor {
    plan: Plan,
    index: Index,
    shuttles: Shuttles,
}

impl Model for Floor {
    ghost use Rattle.floor.specs.Floors.{IsFloor};
    ghost use Rattle.floor.specs.Positions.{Position};

    ghost Value = { Position };

    ghost view = { λ f. record { plan = f.plan; shuttles = f.shuttles } };

    ghost invariant = { λ f. IsFloor (record { plan = f.plan; shuttles = f.shuttles }) f.index };
}
