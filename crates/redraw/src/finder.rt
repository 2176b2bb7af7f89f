// The search for the passing orders of a run that cost least.
ghost use Rattle.std.specs.Prelude.{◌≡◌, ◌+◌, ◌^◌, ◌<◌, ◌≤◌, ◌↔◌, [], length, Err, IfOk, IsOk, IsTrue};
ghost use Rattle.run.specs.Opens.{open_meetings};
ghost use Rattle.search.specs.Reaching.{HasRoom};
ghost use Rattle.redraw.specs.declared.redrawn.RedrawFault.TheVariants.{TooManyOpen};
ghost use Rattle.redraw.specs.Costs.{IsBest};
ghost use Rattle.redraw.specs.Redraws.{OneCost, Redraws};

use crate::laws::redraws_stand;
use crate::opens::OpenMeetings;
use crate::problem::Redraw;
use crate::redrawn::{RedrawFault, Redrawn};
use costs::cost::Cost;
use lists::waiting::WaitingList;
use run::run::Driven;
use search::best_first::search;

/// With how many open meetings orders can be redrawn: as many as a word has bits.
pub const MOST_OPEN: usize = 64;

/// Whether few enough meetings are open for orders to be redrawn.
pub fn can_redraw(driven: &Driven) -> bool
    ensures { IsTrue result ↔ (length (open_meetings driven.now) ≤ MOST_OPEN) }
{
    OpenMeetings::new(driven).is_some()
}

/// The lawful passing orders that cost least, unless too many meetings are open, or the list or the
/// budget is too small.
pub fn find_orders<C: Cost, L: WaitingList>(
    driven: &Driven,
    cost: &C,
    list: &mut L,
    budget: u32,
) -> Result<Redrawn, RedrawFault>
    ensures redraws { length (open_meetings driven.now) ≤ MOST_OPEN
        → Redraws (C.start cost.now) (C.next cost.now) driven.now (L.capacity list.old) budget
        L.nodes L.moves result list.old list.new }
    ensures best { IfOk result (λ redrawn.
        IsBest (C.start cost.now) (C.next cost.now) driven.now redrawn.orders redrawn.cost) }
    ensures same { IfOk result (λ redrawn.
        OneCost (C.start cost.now) (C.next cost.now) driven.now redrawn.cost) }

    // Of n meetings at most 2 ^ n nodes wait, in a list that puts only first n + 1; and less than
    // twice 2 ^ n are taken.
    ensures finds { length (open_meetings driven.now) ≤ MOST_OPEN
        → HasRoom (length (open_meetings driven.now)) L.moves (L.capacity list.old)
        → 2 ^ (length (open_meetings driven.now) + 1) ≤ budget + 1 → IsOk result }
    ensures too_many { MOST_OPEN < length (open_meetings driven.now) → result ≡ Err TooManyOpen }
    ensures kept { MOST_OPEN < length (open_meetings driven.now) → list.new ≡ list.old }
    ensures empty { length (open_meetings driven.now) ≤ MOST_OPEN → L.nodes list.new ≡ [] }
    ensures size { L.capacity list.new ≡ L.capacity list.old }
{
    redraws_stand();
    let opens = OpenMeetings::new(driven).ok_or(RedrawFault::TooManyOpen)?;
    let mut redraw = Redraw::new(&opens, cost);
    let found = search(&mut redraw, list, budget)?;
    Ok(Redrawn {
        cost: found.cost,
        taken: found.taken,
        orders: opens.complete(found.turned),
    })
}
