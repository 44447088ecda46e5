//! Sets of nodes.

ghost use Rattle.std.specs.Prelude.{◌≡◌, ◌==◌, ℕ, false, cond, IfOk};
ghost use Rattle.std.specs.List.{list_any};
ghost use Rattle.std.specs.Ordering.{nat_cmp};
ghost use Rattle.std.specs.BTreeSet.{contains};
ghost use Rattle.digraph.specs.Machinery.NodeSets.{has};

use crate::marks::Marks;
use crate::slots::{bounds, is_small};
use std::alloc::{AllocError, Global};
use std::collections::BTreeSet;

/// A set of nodes.
#[derive(Drop)]
pub(crate) enum NodeSet {
    /// One mark for each number from the least node to the greatest.
    Marks(Marks),
    /// The nodes, if they are too far apart for marks.
    Tree(BTreeSet<u32>),
}

// The nodes in a tree.
fn tree_of(alloc: Global, nodes: &[u32]) -> Result<BTreeSet<u32>, AllocError>
    ensures { IfOk result (λ s. (q : ℕ) → contains nat_cmp s q ≡ list_any (λ u. u == q) nodes.now) }
{
    let mut tree = BTreeSet::new(alloc);
    for t in nodes {
        tree.insert(*t)?;
    }
    Ok(tree)
}

impl NodeSet {
    /// Returns the set of these nodes. It has at most some four marks for each node and 1,024 more.
    pub fn of(alloc: Global, nodes: &[u32]) -> Result<NodeSet, AllocError>
        ensures { IfOk result (λ s. (q : ℕ) → has s q ≡ list_any (λ u. u == q) nodes.now) }
    {
        let (least, greatest) = bounds(nodes);
        if is_small(greatest.saturating_sub(least), nodes.len()) {
            let marks = Marks::of(alloc, nodes, least, greatest)?;
            return Ok(NodeSet::Marks(marks));
        }
        Ok(NodeSet::Tree(tree_of(alloc, nodes)?))
    }

    /// Returns whether the node is in the set.
    pub fn contains(&self, node: u32) -> bool
        ensures { result ≡ has self.now node }
    {
        match self {
            NodeSet::Marks(marks) => marks.contains(node),
            NodeSet::Tree(tree) => tree.contains(&node),
        }
    }

    /// Removes the node, and returns whether it was in the set.
    pub fn remove(&mut self, node: u32) -> bool
        ensures was { result ≡ has self.old node }
        ensures now { (q : ℕ) → has self.new q ≡ cond (node == q) false (has self.old q) }
    {
        match self {
            NodeSet::Marks(marks) => marks.remove(node),
            NodeSet::Tree(tree) => tree.remove(&node),
        }
    }

    /// Returns the nodes in a tree, in which the smallest is found at once.
    pub fn into_tree(self, alloc: Global) -> Result<BTreeSet<u32>, AllocError>
        ensures { IfOk result (λ s. (q : ℕ) → contains nat_cmp s q ≡ has self q) }
    {
        match self {
            NodeSet::Marks(marks) => tree_of(alloc, &marks.numbers(alloc)?),
            NodeSet::Tree(tree) => Ok(tree),
        }
    }
}
