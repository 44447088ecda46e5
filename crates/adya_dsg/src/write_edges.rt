//! The edges of an order line: its write dependencies.

ghost use Rattle.std.specs.Prelude.{◌≡◌, ◌++◌, ℕ, List, map, OnOk};
ghost use Rattle.adya_dsg.specs.Mirror.{edge_of};
ghost use Rattle.adya_dsg.specs.Machinery.Arcs.{ends};
ghost use Rattle.adya_dsg.specs.Machinery.PartEdges.{line_edges};

use crate::edge::{push_arc, push_edge};
use crate::{Edge, Kind};
use adya_values::{Key, Txn};
use digraph::Arc;
use std::alloc::AllocError;

/// Adds the write dependencies of the order line of this key, with these writers.
pub(crate) fn push_write_edges(
    edges: &mut Vec<Edge>,
    key: Key,
    writers: &[Txn],
) -> Result<(), AllocError>
    ensures { OnOk result (map edge_of edges.new.items
        ≡ map edge_of edges.old.items ++ line_edges key writers.now) }
{
    let [first, rest @ ..] = writers else {
        return Ok(());
    };
    let mut last = *first;
    for to in rest {
        push_edge(edges, Some(last), Kind::Ww, key, Some(*to))?;
        last = *to;
    }
    Ok(())
}

/// Adds the arcs of the write dependencies of an order line with these writers, whatever its key.
pub(crate) fn push_write_arcs(arcs: &mut Vec<Arc>, writers: &[Txn]) -> Result<(), AllocError>
    ensures { OnOk result ((key : List ℕ)
        → arcs.new.items ≡ arcs.old.items ++ map ends (line_edges key writers.now)) }
{
    let [first, rest @ ..] = writers else {
        return Ok(());
    };
    let mut last = *first;
    for to in rest {
        push_arc(arcs, Some(last), Some(*to))?;
        last = *to;
    }
    Ok(())
}
