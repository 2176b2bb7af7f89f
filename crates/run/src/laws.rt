//! The laws of runs, on the contract of a function that does nothing.
ghost use Rattle.run.specs.Laws.{RunLaws};

use floor::laws::floors_stand;
use traffic::{entry_ticks_stand, plans_stand, rounds_stand, steps_stand, waits_stand};

/// What every run keeps, and what follows from it.
pub fn runs_stand()
    ensures { RunLaws }
{
    entry_ticks_stand();
    rounds_stand();
    steps_stand();
    waits_stand();
    plans_stand();
    floors_stand();
}
