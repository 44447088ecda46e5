//! A topological order of a graph, or a cycle.

ghost use Rattle.std.specs.Prelude.{◌≡◌, ℕ, List, IfOk};
ghost use Rattle.std.specs.List.Sorted.{IsNonDecreasingBy};
ghost use Rattle.digraph.specs.Clauses.Graphs.{CycleIsSimple, IsGraph, IsOrderOrCycle};
ghost use Rattle.digraph.specs.Machinery.Placings.{IsPlacing};

use crate::arc::Arc;
use crate::incoming::by_target;
use crate::placing::{Placing, begin};
use crate::trace::{Trace, trace_back};
use std::alloc::{AllocError, Global};

/// A topological order of a graph, or a cycle that rules one out.
#[derive(Drop)]
pub enum Outcome {
    /// Each node once, and each arc forward.
    Order(Vec<u32>),
    /// At least one arc: each starts at the node where the one before ends, and the first where the last one ends. No two
    /// arcs start at the same node.
    Cycle(Vec<Arc>),
}

// Places the remaining nodes, if there is no cycle among them.
fn place_rest(alloc: Global, arcs: &[Arc], begun: Placing) -> Result<Outcome, AllocError>
    requires { IsNonDecreasingBy (λ a. a.to) arcs.now }
    ensures found { IfOk result (λ found. (nodes : List ℕ) → IsGraph nodes arcs.now → IsPlacing nodes arcs.now begun
        → IsOrderOrCycle nodes arcs.now found) }
    ensures simple { IfOk result CycleIsSimple }
{
    let Placing {
        mut placed,
        mut remaining,
    } = begun;
    'place: while let Some(first) = remaining.first() {
        match trace_back(alloc, arcs, &remaining, *first)? {
            Trace::Cycle(cycle) => return Ok(Outcome::Cycle(cycle)),
            Trace::Source(t) => {
                placed.push(t)?;
                remaining.remove(&t);
            }
        }
    }
    Ok(Outcome::Order(placed))
}

/// Returns a topological order of the graph, or a cycle of its arcs; `AllocError` if memory is refused. A list may
/// repeat nodes and arcs. For n nodes and a arcs it takes O(n log n + a) steps if there is an order and at least a
/// quarter of the numbers from the least node to the greatest are nodes, and O((n + a) log n) otherwise; with more than
/// 4,294,967,295 arcs it may take much longer. Beside the arcs it needs four bytes for each of them, and for each node some
/// 20 to 30 if the numbers of the nodes follow one another, and up to some 90 otherwise.
///
/// Of the topological orders it returns the one that is smallest place by place: among the nodes whose predecessors
/// have all been placed, the smallest always comes next.
///
/// Once every remaining node still waits for another, there is a cycle among them. To find it, the function walks
/// backward from the smallest of them, at each step to the smallest remaining predecessor of the node at hand, and
/// stops when it returns to a node where it has been. The cycle is the part of this walk between the two visits, given
/// in the direction of its arcs, from its smallest node on.
pub fn topological_order(
    alloc: Global,
    nodes: &[u32],
    arcs: Vec<Arc>,
) -> Result<Outcome, AllocError>
    requires { IsGraph nodes.now arcs.items }
    ensures found { IfOk result (IsOrderOrCycle nodes.now arcs.items) }
    ensures simple { IfOk result CycleIsSimple }
{
    let begun = begin(alloc, nodes, &arcs)?;
    if begun.remaining.is_empty() {
        return Ok(Outcome::Order(begun.placed));
    }
    place_rest(alloc, &by_target(arcs), begun)
}
