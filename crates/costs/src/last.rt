// The last of the arrivals.
ghost use Rattle.std.specs.Prelude.{max};
ghost use Rattle.std.proofs.Common.{rules};

use crate::cost::Cost;

// Keeps the last arrival.
#[derive(Clone, Copy, Debug, Default, PartialEq, Eq)]
pub struct Last;

impl Cost for Last {
    ghost start = { λ _. 0 };

    ghost next = { λ _ total _ arrival. max total arrival };

    fn start(&self) -> u64 {
        0
    }

    fn next(&self, total: u64, _shuttle: usize, arrival: u32) -> u64 {
        total.max(u64::from(arrival))
    }

    ghost later = { Prim.search rules };

    ghost greater = { Prim.search rules };

    ghost fits = { Prim.search rules };
}
