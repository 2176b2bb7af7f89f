//! The law over whole lists of calls, on the contract of a function that does nothing.
ghost use Rattle.std.specs.Prelude.{◌≡◌};
ghost use Rattle.dispatch.specs.declared.dispatcher.TheConstants.{MOST_DRAFTS};
ghost use Rattle.dispatch.specs.Law.{TalliesStand};

use redraw::laws::redraws_stand;
use run::laws::runs_stand;

/// What stands of every tally: no collision, arrival, and the least cost.
pub fn tallies_stand()
    ensures stand { TalliesStand }
    ensures most { MOST_DRAFTS ≡ 60000 }
{
    runs_stand();
    redraws_stand();
}
