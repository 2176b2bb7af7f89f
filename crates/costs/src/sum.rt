// The sum of the arrivals.
ghost use Rattle.std.proofs.Common.{rules};
ghost use Rattle.costs.specs.Totals.{total_with};

use crate::cost::Cost;

// Adds the arrivals.
#[derive(Clone, Copy, Debug, Default, PartialEq, Eq)]
pub struct Sum;

impl Cost for Sum {
    ghost start = { λ _. 0 };

    ghost next = { λ _ total _ arrival. total_with total arrival };

    fn start(&self) -> u64 {
        0
    }

    fn next(&self, total: u64, _shuttle: usize, arrival: u32) -> u64 {
        total.saturating_add(u64::from(arrival))
    }

    ghost later = { Prim.search rules };

    ghost greater = { Prim.search rules };

    ghost fits = { Prim.search rules };
}
