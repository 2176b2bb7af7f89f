// A cost of one of two kinds, so that a list of calls can have both.
ghost use Rattle.either.specs.Either.{either};
ghost use Rattle.costs.specs.Kinds.{each_side};

use crate::cost::Cost;
use either::{Either, for_both};

impl<C: Cost, D: Cost> Cost for Either<C, D> {
    ghost start = { either C.start D.start };

    ghost next = { either C.next D.next };

    fn start(&self) -> u64 {
        for_both!(self, cost => cost.start())
    }

    fn next(&self, total: u64, shuttle: usize, arrival: u32) -> u64 {
        for_both!(self, cost => cost.next(total, shuttle, arrival))
    }

    ghost later = { each_side _ C.later D.later };

    ghost greater = { each_side _ C.greater D.greater };

    ghost fits = { each_side _ C.fits D.fits };
}
