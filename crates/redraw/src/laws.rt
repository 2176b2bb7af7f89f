//! The laws of redrawing, on the contract of a function that does nothing.
ghost use Rattle.redraw.specs.Laws.{RedrawLaws};

use costs::cost::totals_stand;
use run::laws::runs_stand;
use search::searches_stand;
use traffic::{entry_ticks_stand, rounds_stand, waits_stand};

/// What is redrawn is best, and what words and nodes have to do with orders.
pub fn redraws_stand()
    ensures { RedrawLaws }
{
    entry_ticks_stand();
    rounds_stand();
    waits_stand();
    runs_stand();
    totals_stand();
    searches_stand();
}
