// A waiting list of one of two kinds, so that a list of calls can have both.
ghost use Rattle.either.specs.Either.{either};
ghost use Rattle.lists.specs.Kinds.{EitherMoves, either_bounded};

use crate::node::Node;
use crate::waiting::{Full, WaitingList};
use either::{Either, for_both};

impl<L: WaitingList, M: WaitingList> WaitingList for Either<L, M> {
    ghost nodes = { either L.nodes M.nodes };

    ghost capacity = { either L.capacity M.capacity };

    ghost moves = { EitherMoves L.moves M.moves };

    fn take(&mut self) -> Option<Node> {
        for_both!(self, list => list.take())
    }

    fn put(&mut self, node: Node) -> Result<(), Full> {
        for_both!(self, list => list.put(node))
    }

    fn clear(&mut self) {
        for_both!(self, list => list.clear());
    }

    fn len(&self) -> u64 {
        for_both!(self, list => list.len())
    }

    ghost bounded = { either_bounded L.nodes M.nodes L.capacity M.capacity L.bounded M.bounded };
}
