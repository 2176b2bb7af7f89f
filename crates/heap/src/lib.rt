// Heaps over lent memory, for records with a total order: the least is taken first.
#![tactic(auto)]

ghost use Rattle.heap.specs.Laws.{ComparisonsOrder, OrdersAreReflexive, SortsAscend, SortsKeepElements, RowsAreUnique, InsertsAscend, InsertsAddOne, InsertsAtPlace, PlacesDivide, FirstsAreLeast};

pub mod bounded;
pub mod heap;
pub mod order;

/// The row of some elements: the one ascending list of them, and what an insertion does to it.
pub fn rows_stand<T>()
    ensures ordered { ComparisonsOrder T }
    ensures reflexive { OrdersAreReflexive T }
    ensures ascends { SortsAscend T }
    ensures same { SortsKeepElements T }
    ensures unique { RowsAreUnique T }
    ensures inserted { InsertsAscend T }
    ensures one { InsertsAddOne T }
    ensures place { InsertsAtPlace T }
    ensures divides { PlacesDivide T }
{}

/// The first of a heap is no later than any other.
pub fn heaps_stand<T>()
    ensures least { FirstsAreLeast T }
{}

#[cfg(test)]
mod tests;
