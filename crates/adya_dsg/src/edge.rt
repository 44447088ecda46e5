//! Edges of the direct serialization graph (Adya 1999, section 3.1.4).

ghost use Rattle.std.specs.Prelude.{◌≡◌, ◌++◌, ℕ, List, OnOk, map};
ghost use Rattle.adya_values.specs.Meaning.Edges.{Kind as PlainKind};
ghost use Rattle.adya_values.specs.Computing.EdgeList.{joined};
ghost use Rattle.adya_dsg.specs.Mirror.{kind_of, edge_of};
ghost use Rattle.adya_dsg.specs.Machinery.Arcs.{ends};

use adya_values::{Key, Txn};
use digraph::Arc;
use std::alloc::AllocError;

/// What joins two transactions.
#[derive(Clone, Copy, PartialEq, Eq, Hash)]
pub enum Kind {
    /// A write dependency: `to` installs the version after that of `from`.
    Ww,
    /// A read dependency: `to` reads what `from` installed.
    Wr,
    /// An anti-dependency: `to` installs the version after the one that `from` reads.
    Rw,
}

/// An edge from one transaction to another, by a key.
#[derive(Clone, Copy, PartialEq, Eq, Hash)]
pub struct Edge {
    /// The transaction that has to come first.
    pub from: Txn,
    /// What joins the two.
    pub kind: Kind,
    /// The object that both touch.
    pub key: Key,
    /// The transaction that has to come later.
    pub to: Txn,
}

impl Edge {
    /// Returns the two ends of the edge.
    pub(crate) fn arc(&self) -> Arc
        ensures { result ≡ ends (edge_of self.now) }
    {
        Arc {
            from: self.from.get(),
            to: self.to.get(),
        }
    }
}

/// Adds the edge between the two transactions, if both are given and differ.
pub(crate) fn push_edge(
    edges: &mut Vec<Edge>,
    from: Option<Txn>,
    kind: Kind,
    key: Key,
    to: Option<Txn>,
) -> Result<(), AllocError>
    ensures { OnOk result (map edge_of edges.new.items
        ≡ map edge_of edges.old.items ++ joined (kind_of kind) key from to) }
{
    let (Some(from), Some(to)) = (from, to) else {
        return Ok(());
    };
    if from != to {
        edges.push(Edge {
            from,
            kind,
            key,
            to,
        })?;
    }
    Ok(())
}

/// Adds the arc between the two transactions, if both are given and differ: the ends of the edge that [`push_edge`] adds,
/// whatever its kind and key.
pub(crate) fn push_arc(
    arcs: &mut Vec<Arc>,
    from: Option<Txn>,
    to: Option<Txn>,
) -> Result<(), AllocError>
    ensures { OnOk result ((kind : PlainKind) (key : List ℕ)
        → arcs.new.items ≡ arcs.old.items ++ map ends (joined kind key from to)) }
{
    let (Some(from), Some(to)) = (from, to) else {
        return Ok(());
    };
    if from == to {
        return Ok(());
    }
    arcs.push(Arc {
        from: from.get(),
        to: to.get(),
    })?;
    Ok(())
}
