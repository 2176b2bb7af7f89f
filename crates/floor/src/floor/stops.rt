// What the plan, the index and the records of a floor say of its shuttles and stops.
ghost use Rattle.std.specs.Prelude.{◌≡◌, ℕ, ◌<◌, ◌≤◌, length};
ghost use Rattle.std.specs.Int.{bit_at};
ghost use Rattle.files.specs.Rules.{path_at};
ghost use Rattle.meetings.specs.Laws.{StopOf};
ghost use Rattle.traffic.specs.Scene.{at};
ghost use Rattle.floor.specs.Indexes.{IsPathOf};
ghost use Rattle.floor.specs.Positions.{IsSound, entered_in, meetings_in, paths_in};
ghost use Rattle.floor.specs.Shuttles.{shuttle_at};

use super::Floor;
use crate::index::PathTouches;
use crate::table::Shuttle;
use files::plan::{MOST_SHUTTLES, MOST_STOPS};
use meetings::stays::At;

// That a stop or a shuttle is the floor's is required where it is asked for: a type that holds the floor beside the numbers would say no more, and each caller would make one.
impl Floor {
    // How many shuttles there are.
    pub(crate) fn count(&self) -> usize
        ensures all { result ≡ length (paths_in self.now) }
        ensures few { result ≤ MOST_SHUTTLES }
        ensures sound { IsSound self.now }
    {
        self.plan.paths().len()
    }

    // The word that names every shuttle.
    pub(crate) fn everyone(&self) -> u32
        ensures { (s : ℕ) → s < length (paths_in self.now) → bit_at result s ≡ 1 }
    {
        // A cast: of 32 shuttles the word is the greatest of its type, and no shift in that type gives it.
        ((1u64 << self.count()) - 1) as u32
    }

    // How many stops the path of a shuttle has.
    pub(crate) fn stop_count(&self, shuttle: usize) -> usize
        requires { shuttle < length (paths_in self.now) }
        ensures all { result ≡ length (path_at (paths_in self.now) shuttle) }
        ensures some { 1 ≤ result }
        ensures few { result ≤ MOST_STOPS }
    {
        self.plan.paths()[shuttle].stops.len()
    }

    // The record of a shuttle of the plan.
    pub(crate) fn state(&self, shuttle: usize) -> Shuttle
        requires { shuttle < length (paths_in self.now) }
        ensures record { result ≡ shuttle_at self.now.shuttles shuttle }
        ensures stop { StopOf (paths_in self.now) (at shuttle result.stop) }
        ensures sound { IsSound self.now }
    {
        self.shuttles.at(shuttle)
    }

    // Whether a shuttle has entered a stop.
    pub(crate) fn has_entered(&self, at: At) -> bool
        requires { at.shuttle < length (paths_in self.now) }
        ensures { result ≡ entered_in self.now at }
    {
        at.stop <= self.state(at.shuttle).stop
    }

    // The touches of a path's stops.
    pub(crate) fn path(&self, shuttle: usize) -> PathTouches<'_>
        requires { shuttle < length (paths_in self.now) }
        ensures path { IsPathOf (meetings_in self.now) shuttle (length (path_at (paths_in self.now) shuttle)) result }
        ensures sound { IsSound self.now }
    {
        self.index.path(shuttle)
    }
}
