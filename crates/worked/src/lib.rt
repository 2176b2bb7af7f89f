//! Plans that were worked out by hand: what runs and drafts make of them.
#![tactic(auto)]

ghost use Rattle.costs.specs.declared.last.Last.{Last};
ghost use Rattle.costs.specs.declared.sum.Sum.{Sum};
ghost use Rattle.dispatch.specs.Costing.{IsCostOf};
ghost use Rattle.worked.specs.Costs.{by_sum, by_last};
ghost use Rattle.worked.specs.Table.{WorkedPlans};

use costs::cost::Cost;
use costs::last::Last;
use costs::sum::Sum;
use heap::rows_stand;
use lists::node::Node;
use lists::node_heap::NodeHeap;
use lists::stack::Stack;
use lists::waiting::WaitingList;
use meetings::laws::meetings_stand;

/// The table of worked plans, by the rules of the heap and of the stack; its costs are `Sum` and
/// `Last`. The function does nothing: its contract is what it is for.
pub fn worked_plans_stand()
    ensures plans { WorkedPlans
        ⟦<NodeHeap<'static> as WaitingList>⟧.moves ⟦<Stack<'static> as WaitingList>⟧.moves }
    ensures sum { (sum : Sum)
        → IsCostOf (⟦<Sum as Cost>⟧.start sum) (⟦<Sum as Cost>⟧.next sum) by_sum }
    ensures last { (last : Last)
        → IsCostOf (⟦<Last as Cost>⟧.start last) (⟦<Last as Cost>⟧.next last) by_last }
{
    rows_stand::<Node>();
    meetings_stand();
}
