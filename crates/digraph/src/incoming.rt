//! The arcs into a node, in a list that is ordered by where its arcs go.

ghost use Rattle.std.specs.Prelude.{◌≡◌, ◌<◌, ◌≤◌, ◌↔◌, ℕ, true, false, length, Contains, IfSome, IfNone, slice_index_or};
ghost use Rattle.std.specs.List.Sorted.{IsNonDecreasingBy};
ghost use Rattle.std.specs.Ordering.{nat_cmp};
ghost use Rattle.std.specs.BTreeSet.{contains};

use crate::arc::Arc;
use std::collections::BTreeSet;

/// Returns the arcs by where they go, and those into one node by where they come from. It takes O(n log n) steps for n
/// arcs, and no memory.
pub(crate) fn by_target(mut arcs: Vec<Arc>) -> Vec<Arc>
    ensures rises { IsNonDecreasingBy (λ a. a.to) result.items }
    ensures same { (a : Arc) → Contains arcs.items a ↔ Contains result.items a }
{
    arcs.sort_unstable_by_key(|a| (a.to, a.from));
    arcs
}

/// Returns the first arc into the node that comes from a remaining node.
pub(crate) fn arc_from_remaining(arcs: &[Arc], remaining: &BTreeSet<u32>, to: u32) -> Option<Arc>
    requires { IsNonDecreasingBy (λ a. a.to) arcs.now }
    ensures found { IfSome result (λ a. Contains arcs.now a × (a.to ≡ to) × (contains nat_cmp remaining.now a.from ≡ true)) }
    ensures none { IfNone result
        ((a : Arc) → Contains arcs.now a → a.to ≡ to → contains nat_cmp remaining.now a.from ≡ false) }
{
    let mut i = first_into(arcs, to);
    while i < arcs.len() {
        let a = arcs[i];
        if a.to != to {
            return None;
        }
        if remaining.contains(&a.from) {
            return Some(a);
        }
        i += 1;
    }
    None
}

// The first place from which on no arc goes to a smaller node.
fn first_into(arcs: &[Arc], to: u32) -> usize
    requires { IsNonDecreasingBy (λ a. a.to) arcs.now }
    ensures within { result ≤ length arcs.now }
    ensures below { (k : ℕ) (d : Arc) → k < result → (slice_index_or arcs.now k d).to < to }
    ensures above { (k : ℕ) (d : Arc) → result ≤ k → k < length arcs.now → to ≤ (slice_index_or arcs.now k d).to }
{
    arcs.partition_point(|a| a.to < to)
}
