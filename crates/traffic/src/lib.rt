//! The laws of traffic, each on the contract of a function that does nothing.
#![tactic(auto)]

ghost use Rattle.traffic.specs.Stands.{EntryTickLaws, RoundLaws, SweepLaws, StepLaws, WaitLaws, PlanLaws};

use meetings::laws::meetings_stand;

/// Entry ticks: unique, there exactly when something ranks the stops, and those of the execution; and what waits do to them.
pub fn entry_ticks_stand()
    ensures { EntryTickLaws }
{}

/// Entry ticks worked out by rounds of their rule, as a function of the scene.
pub fn rounds_stand()
    ensures { RoundLaws }
{}

/// Entry ticks worked out stop by stop.
pub fn sweeps_stand()
    ensures { SweepLaws }
{}

/// Safety and progress of one step.
pub fn steps_stand()
    ensures { StepLaws }
{}

/// What stops wait for at the meetings of a list.
pub fn waits_stand()
    ensures { WaitLaws }
{}

/// What a plan gives the laws: a fresh run has no ring, full orders settle every shared place, and tables are served in plan order.
pub fn plans_stand()
    ensures { PlanLaws }
{
    meetings_stand();
}
