// Arrivals times weights, by any cost.
ghost use Rattle.costs.specs.Figures.{figure as figure_of, weighed_arrival};
ghost use Rattle.costs.specs.Layers.{layer_later, layer_greater, layer_fits, weighed_hands_on};

use crate::cost::Cost;
use crate::figures::{FIGURES, figure};

// The greatest weight.
const HEAVIEST: u32 = 1000;

// Hands on the arrival times the weight of a shuttle.
#[derive(Clone, Debug, PartialEq, Eq, Drop)]
pub struct Weight<C> {
    pub weights: [u32; FIGURES],
    pub cost: C,
}

impl<C: Cost> Cost for Weight<C> {
    ghost start = { λ weight. C.start weight.cost };

    ghost next = { λ weight total shuttle arrival. C.next weight.cost total shuttle (weighed_arrival (figure_of weight.weights shuttle) arrival) };

    fn start(&self) -> u64 {
        self.cost.start()
    }

    fn next(&self, total: u64, shuttle: usize, arrival: u32) -> u64 {
        let weight = figure(&self.weights, shuttle).min(HEAVIEST);
        self.cost
            .next(total, shuttle, arrival.saturating_mul(weight))
    }

    ghost later = { λ weight. layer_later _ _ (weighed_hands_on weight.weights) (C.later weight.cost) };

    ghost greater = { λ weight. layer_greater _ _ (weighed_hands_on weight.weights) (C.greater weight.cost) };

    ghost fits = { λ weight. layer_fits _ _ _ (weighed_hands_on weight.weights) (C.fits weight.cost) };
}
