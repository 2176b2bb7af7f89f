// A layer over a layer, costs of several kinds in one list, and totals at their ends. The expected values were worked out by hand.
ghost use Rattle.std.specs.Prelude.{◌≤◌};
ghost use Rattle.std.specs.List.{All, AllZip};

use crate::cost::{Cost, total};
use crate::due::Due;
use crate::figures::FIGURES;
use crate::last::Last;
use crate::sum::Sum;
use crate::weight::Weight;
use either::{Either, Left, Right};

// How much more later arrivals cost: it falls nowhere below 0, by any cost.
fn rise<C: Cost>(cost: &C, arrivals: &[u32], later: &[u32]) -> u64
    requires { AllZip (λ a b. a ≤ b) arrivals.now later.now }
{
    total(cost, later) - total(cost, arrivals)
}

// Shuttle 0 counts half as much as shuttle 1, and is due at tick 3.
fn weighed_lateness() -> Due<Weight<Sum>> {
    let mut ticks = [0; FIGURES];
    ticks[0] = 3;
    let mut weights = [1000; FIGURES];
    weights[0] = 500;
    Due {
        ticks,
        cost: Weight { weights, cost: Sum },
    }
}

#[test]
fn layers_over_layers(rt: HostRuntime) {
    let cost = weighed_lateness();
    assert_eq!(rt; total(&cost, &[2, 4]), 4000);
    assert_eq!(rt; rise(&cost, &[2, 4], &[7, 9]), 7000);
}

// Each cost of a list goes by its own kind.
#[test]
fn costs_of_three_kinds(rt: HostRuntime) {
    let costs: [Either<Either<Sum, Last>, Due<Weight<Sum>>>; 3] = [
        Left(Left(Sum)),
        Left(Right(Last)),
        Right(weighed_lateness()),
    ];
    let totals = costs.map(|cost| total(&cost, &[7, 9]));
    assert_eq!(rt; totals, [16, 9, 11000]);
}

#[test]
fn totals_at_their_ends(rt: HostRuntime) {
    assert_eq!(rt; Sum.next(u64::MAX - 1, 0, 1), u64::MAX);
    assert_eq!(rt; Sum.next(u64::MAX - 1, 0, 2), u64::MAX);
    assert_eq!(rt; Last.next(u64::MAX, 0, u32::MAX), u64::MAX);
    let heavy = Weight {
        weights: [1001; FIGURES],
        cost: Sum,
    };
    assert_eq!(rt; heavy.next(0, 32, 4_294_967), 4_294_967_000);
    assert_eq!(rt; heavy.next(0, 32, 4_294_968), 4_294_967_295);
}
