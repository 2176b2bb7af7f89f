// The search, by any waiting list.
ghost use Rattle.std.specs.Prelude.{◌≡◌, ◌+◌, ◌^◌, ◌<◌, ◌≤◌, [], ◌∷◌, IfOk, IsOk};
ghost use Rattle.search.specs.Decisions.{with_bit as word_with};
ghost use Rattle.search.specs.Questions.{Least};
ghost use Rattle.search.specs.Reaching.{HasRoom, PutsEach, ReachesCleared, Searches};
ghost use Rattle.search.specs.Steps.{best_after, children, from_root, go_on, look as look_of};

use crate::finding::Finding;
use crate::found::{Best, Found, SearchFault};
use crate::problem::Problem;
use lists::node::Node;
use lists::waiting::{Full, WaitingList};

// What is found at a node; a ring too where the node cannot lead below the best cost.
fn look<P: Problem>(problem: &mut P, node: Node, best: u64) -> Finding
    ensures found { result ≡ look_of (P.question problem.old) best node }
    ensures same { P.question problem.new ≡ P.question problem.old }
{
    if node.bound >= best {
        return Finding::Ring;
    }
    match problem.evaluate(node.decided, node.turned) {
        Finding::Done { cost } if cost >= best => Finding::Ring,
        Finding::Branch { cost, .. } if cost >= best => Finding::Ring,
        finding => finding,
    }
}

// A word with one bit more.
fn with_bit(word: u64, bit: u32) -> u64
    requires { bit < 64 }
    ensures { result ≡ word_with word bit }
{
    word | 1 << bit
}

// Puts one node and then another.
fn put_both<L: WaitingList>(list: &mut L, first: Node, second: Node) -> Result<(), Full>
    ensures each { PutsEach L.nodes L.moves L.capacity (first ∷ second ∷ [])
        result list.old list.new }
    ensures size { L.capacity list.new ≡ L.capacity list.old }
{
    list.put(first)?;
    list.put(second)
}

// Looks at a node: it may be the best, or lead to two more.
fn visit<P: Problem, L: WaitingList>(
    problem: &mut P,
    list: &mut L,
    node: Node,
    best: &mut Best,
) -> Result<(), Full>
    ensures best { best.new
        ≡ best_after best.old node (look_of (P.question problem.old) best.old.cost node) }
    ensures each { PutsEach L.nodes L.moves L.capacity
        (children node (look_of (P.question problem.old) best.old.cost node))
        result list.old list.new }
    ensures size { L.capacity list.new ≡ L.capacity list.old }
    ensures same { P.question problem.new ≡ P.question problem.old }
{
    match look(problem, node, best.cost) {
        Finding::Ring => Ok(()),
        Finding::Done { cost } => {
            *best = Best {
                turned: node.turned,
                cost,
            };
            Ok(())
        }
        Finding::Branch { cost, next } => {
            let kept = Node {
                bound: cost,
                decided: with_bit(node.decided, next),
                turned: node.turned,
            };
            let turned = Node {
                turned: with_bit(node.turned, next),
                ..kept
            };
            put_both(list, kept, turned)
        }
    }
}

// Takes nodes from the list and looks at them, until none waits or as many were taken as the budget
// says.
fn go_through<P: Problem, L: WaitingList>(
    problem: &mut P,
    list: &mut L,
    mut best: Best,
    budget: u32,
) -> Result<Found, SearchFault>
    ensures course { ReachesCleared L.nodes L.moves
        (go_on (P.question problem.old) (L.capacity list.old) budget 0 best)
        result list.old list.new }
    ensures size { L.capacity list.new ≡ L.capacity list.old }
    ensures same { P.question problem.new ≡ P.question problem.old }
{
    let mut taken = 0;
    while !list.is_empty() {
        if taken == budget {
            return Err(SearchFault::Budget { taken });
        }
        let Some(node) = list.take() else {
            unreachable!()
        };
        taken += 1;
        if visit(problem, list, node, &mut best).is_err() {
            return Err(SearchFault::Full { taken });
        }
    }
    Ok(best.found(taken))
}

// Starts with a node with nothing decided.
fn start_from_root<P: Problem, L: WaitingList>(
    problem: &mut P,
    list: &mut L,
    budget: u32,
) -> Result<Found, SearchFault>
    ensures course { ReachesCleared L.nodes L.moves
        (from_root (P.question problem.old) (L.capacity list.old) budget)
        result list.old list.new }
    ensures size { L.capacity list.new ≡ L.capacity list.old }
    ensures same { P.question problem.new ≡ P.question problem.old }
{
    let root = Node {
        bound: 0,
        decided: 0,
        turned: 0,
    };
    if list.put(root).is_err() {
        return Err(SearchFault::Full { taken: 0 });
    }
    let best = Best {
        turned: 0,
        cost: problem.start(),
    };
    go_through(problem, list, best, budget)
}

/// The decisions that cost least of all that are allowed, unless the list or the budget is too
/// small.
pub fn search<P: Problem, L: WaitingList>(
    problem: &mut P,
    list: &mut L,
    budget: u32,
) -> Result<Found, SearchFault>
    ensures course { Searches L.nodes L.moves (P.question problem.old) (L.capacity list.old) budget
        result list.old list.new }
    ensures least { IfOk result (λ found. Least (P.question problem.old) found.turned found.cost) }
    // Of n meetings at most 2 ^ n nodes wait, in a list that puts only first n + 1; and less than
    // twice 2 ^ n are taken.
    ensures finds { HasRoom (P.question problem.old).count L.moves (L.capacity list.old)
        → 2 ^ ((P.question problem.old).count + 1) ≤ budget + 1 → IsOk result }
    ensures same { P.question problem.new ≡ P.question problem.old }
    ensures empty { L.nodes list.new ≡ [] }
    ensures size { L.capacity list.new ≡ L.capacity list.old }
{
    list.clear();
    let answer = start_from_root(problem, list, budget);
    list.clear();
    answer
}
