//! Walks backward along the arcs of a graph.

ghost use Rattle.std.specs.Prelude.{◌≡◌, ◌<◌, ◌≤◌, ◌==◌, ℕ, true, length, Contains, IfOk, All, count_by, slice_index_or};
ghost use Rattle.std.specs.List.{list_any};
ghost use Rattle.std.specs.List.Sorted.{IsNonDecreasingBy};
ghost use Rattle.std.specs.Ordering.{nat_cmp};
ghost use Rattle.std.specs.BTreeSet.{contains};
ghost use Rattle.digraph.specs.Clauses.Graphs.{IsCycle, IsPath, IsSimple};
ghost use Rattle.digraph.specs.Machinery.Traces.{IsTrace};

use crate::arc::Arc;
use crate::incoming::arc_from_remaining;
use std::alloc::{AllocError, Global};
use std::collections::BTreeSet;

/// Where a walk backward along the arcs ends.
#[derive(Drop)]
pub(crate) enum Trace {
    /// At a remaining node, none of whose predecessors remains.
    Source(u32),
    /// In a simple cycle.
    Cycle(Vec<Arc>),
}

// The place of the first arc to the node.
fn first_to(path: &[Arc], at: u32) -> usize
    requires { list_any (λ a. a.to == at) path.now ≡ true }
    ensures within { result < length path.now }
    ensures returns { (d : Arc) → (slice_index_or path.now result d).to ≡ at }
{
    for i in 0..path.len() {
        if path[i].to == at {
            return i;
        }
    }
    0
}

// The place of the arc from the smallest node.
fn least_start(path: &[Arc]) -> usize
    ensures { result ≤ length path.now }
{
    let mut least = 0;
    for i in 0..path.len() {
        if path[i].from < path[least].from {
            least = i;
        }
    }
    least
}

// The part of the path up to its first return to its start, beginning at its smallest node.
fn close(path: &mut Vec<Arc>, at: u32, graph: &[Arc])
    requires returns { list_any (λ a. a.to == at) path.old.items ≡ true }
    requires path { (t : ℕ) × IsPath at path.old.items t }
    requires known { All (Contains graph.now) path.old.items }
    requires once { (t : ℕ) → count_by (λ a. a.to == t) path.old.items ≤ 1 }
    ensures closes { IsCycle graph.now path.new.items }
    ensures simple { IsSimple path.new.items }
{
    path.truncate(first_to(path, at) + 1);
    path.rotate_left(least_start(path));
}

/// Walks backward from the node, at each step to the smallest remaining predecessor, up to a node that has none or
/// one where it has been; `AllocError` if memory is refused.
pub(crate) fn trace_back(
    alloc: Global,
    arcs: &[Arc],
    remaining: &BTreeSet<u32>,
    from: u32,
) -> Result<Trace, AllocError>
    requires rises { IsNonDecreasingBy (λ a. a.to) arcs.now }
    requires is_remaining { contains nat_cmp remaining.now from ≡ true }
    ensures { IfOk result (IsTrace arcs.now remaining.now) }
{
    if arc_from_remaining(arcs, remaining, from).is_none() {
        return Ok(Trace::Source(from));
    }
    let mut unmet = remaining.clone()?;
    let mut trail = Vec::new(alloc);
    let mut at = from;
    'back: while unmet.remove(&at) {
        match arc_from_remaining(arcs, remaining, at) {
            None => return Ok(Trace::Source(at)),
            Some(a) => {
                at = a.from;
                trail.push(a)?;
            }
        }
    }
    trail.reverse();
    close(&mut trail, at, arcs);
    Ok(Trace::Cycle(trail))
}
