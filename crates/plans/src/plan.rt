// An opened plan.
ghost use Rattle.std.specs.Prelude.{◌≡◌};
ghost use Rattle.files.specs.Views.{paths_of};
ghost use Rattle.plans.specs.Kept.{IsKept};

use files::plan::Path;
use meetings::meet::Meeting;
use std::marker::Model;

pub mod opening;

/// A plan that keeps all rules, with its meetings. Only opening makes one.
#[derive(Drop)]
pub struct Plan {
    paths: Vec<Path>,
    tables: Vec<u16>,
    meetings: Vec<Meeting>,
}

impl Model for Plan {
    ghost use Rattle.plans.specs.Kept.{OpenedPlan, IsKept};

    ghost Value = { OpenedPlan };

    ghost use Rattle.plans.specs.Shown.{shown};

    ghost view = { shown };

    ghost invariant = { λ a. IsKept (shown a) };
}

impl Plan {
    /// The path of each shuttle.
    pub fn paths(&self) -> &[Path]
        ensures value { paths_of result.now ≡ self.now.paths }
        ensures kept { IsKept self.now }
    {
        self.paths.as_slice()
    }

    /// The places that are tables.
    pub fn tables(&self) -> &[u16]
        ensures value { result.now ≡ self.now.tables }
        ensures kept { IsKept self.now }
    {
        self.tables.as_slice()
    }

    /// The meetings, in meeting order.
    pub fn meetings(&self) -> &[Meeting]
        ensures value { result.now ≡ self.now.meetings }
        ensures kept { IsKept self.now }
    {
        self.meetings.as_slice()
    }
}
