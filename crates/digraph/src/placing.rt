//! The nodes with which an order begins, and those that remain.

ghost use Rattle.std.specs.Prelude.{◌≡◌, ◌==◌, ◌+◌, ℕ, true, cond, Contains, IfOk, count_by};
ghost use Rattle.digraph.specs.Clauses.Graphs.{IsGraph};
ghost use Rattle.digraph.specs.Machinery.NodeSets.{has};
ghost use Rattle.digraph.specs.Machinery.Placings.{IsPlacing, KeepsOrder, StandsForward};

use crate::arc::Arc;
use crate::candidate::Candidate;
use crate::node_set::NodeSet;
use std::alloc::{AllocError, Global};
use std::collections::BTreeSet;

/// Nodes in an order, and the nodes that remain.
#[derive(Drop)]
pub(crate) struct Placing {
    /// The nodes that are placed, in their order.
    pub placed: Vec<u32>,
    /// The nodes that aren't placed.
    pub remaining: BTreeSet<u32>,
}

// Removes the nodes, and returns whether each was there when its turn came.
fn remove_all(set: &mut NodeSet, nodes: &[u32]) -> bool
    ensures { result ≡ true → (q : ℕ)
        → count_by (λ u. u == q) nodes.now + cond (has set.new q) 1 0 ≡ cond (has set.old q) 1 0 }
{
    for t in nodes {
        if !set.remove(*t) {
            return false;
        }
    }
    true
}

// Whether the ends of the arc stand in the candidate, and the first one before the second.
fn is_forward(candidate: &Candidate, a: Arc) -> bool
    ensures { result ≡ true → StandsForward candidate.now.nodes.items a }
{
    let from = candidate.place(a.from);
    let to = candidate.place(a.to);
    from < to
        && candidate.nodes.get(from) == Some(&a.from)
        && candidate.nodes.get(to) == Some(&a.to)
}

// Whether the arc goes forward in the candidate, or into a node that remains.
fn keeps_order(candidate: &Candidate, remaining: &NodeSet, a: Arc) -> bool
    ensures { result ≡ true → KeepsOrder candidate.now.nodes.items (has remaining.now) a }
{
    is_forward(candidate, a) || remaining.contains(a.to)
}

// Whether each arc goes forward in the candidate, or into a node that remains.
fn keep_order(candidate: &Candidate, remaining: &NodeSet, arcs: &[Arc]) -> bool
    ensures { result ≡ true → (a : Arc) → Contains arcs.now a
        → KeepsOrder candidate.now.nodes.items (has remaining.now) a }
{
    for a in arcs {
        if !keeps_order(candidate, remaining, *a) {
            return false;
        }
    }
    true
}

/// Returns the candidate for the graph with the nodes that it leaves. It would place no node if the candidate were wrong,
/// which never happens, though nothing proves that.
pub(crate) fn begin(alloc: Global, nodes: &[u32], arcs: &[Arc]) -> Result<Placing, AllocError>
    requires { IsGraph nodes.now arcs.now }
    ensures { IfOk result (IsPlacing nodes.now arcs.now) }
{
    let candidate = Candidate::of(alloc, nodes, arcs)?;
    let mut remaining = NodeSet::of(alloc, nodes)?;
    if remove_all(&mut remaining, &candidate.nodes) && keep_order(&candidate, &remaining, arcs) {
        let remaining = remaining.into_tree(alloc)?;
        return Ok(Placing {
            placed: candidate.nodes,
            remaining,
        });
    }
    Ok(Placing {
        placed: Vec::new(alloc),
        remaining: NodeSet::of(alloc, nodes)?.into_tree(alloc)?,
    })
}
