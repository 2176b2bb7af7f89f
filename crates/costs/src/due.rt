// Lateness, by any cost.
ghost use Rattle.costs.specs.Figures.{figure as figure_of, ticks_past};
ghost use Rattle.costs.specs.Layers.{layer_later, layer_greater, layer_fits, past_hands_on};

use crate::cost::Cost;
use crate::figures::{FIGURES, figure};

// Hands on the ticks past the due tick of a shuttle, or 0.
#[derive(Clone, Debug, PartialEq, Eq, Drop)]
pub struct Due<C> {
    pub ticks: [u32; FIGURES],
    pub cost: C,
}

impl<C: Cost> Cost for Due<C> {
    ghost start = { λ due. C.start due.cost };

    ghost next = { λ due total shuttle arrival. C.next due.cost total shuttle (ticks_past (figure_of due.ticks shuttle) arrival) };

    fn start(&self) -> u64 {
        self.cost.start()
    }

    fn next(&self, total: u64, shuttle: usize, arrival: u32) -> u64 {
        let late = arrival.saturating_sub(figure(&self.ticks, shuttle));
        self.cost.next(total, shuttle, late)
    }

    ghost later = { λ due. layer_later _ _ (past_hands_on due.ticks) (C.later due.cost) };

    ghost greater = { λ due. layer_greater _ _ (past_hands_on due.ticks) (C.greater due.cost) };

    ghost fits = { λ due. layer_fits _ _ _ (past_hands_on due.ticks) (C.fits due.cost) };
}
