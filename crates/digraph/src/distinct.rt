//! Lists of arcs without repeats.

ghost use Rattle.std.specs.Prelude.{◌↔◌, Contains};
ghost use Rattle.std.specs.List.Sorted.{IsStrictlySortedBy};
ghost use Rattle.digraph.specs.Clauses.Graphs.{arc_cmp};

use crate::arc::Arc;

/// Returns the arcs, each once, by the nodes that they leave; those that leave the same node by the nodes that they enter.
/// It takes O(n log n) steps for n arcs, and no memory.
pub fn each_once(mut arcs: Vec<Arc>) -> Vec<Arc>
    ensures same { (a : Arc) → Contains arcs.items a ↔ Contains result.items a }
    ensures rise { IsStrictlySortedBy arc_cmp result.items }
{
    arcs.sort_unstable_by_key(|a| (a.from, a.to));
    arcs.dedup();
    arcs
}
