//! The arcs of all edges.

ghost use Rattle.std.specs.Prelude.{◌≡◌, ◌++◌, IfOk, OnOk, map};
ghost use Rattle.adya_values.specs.Computing.EdgeList.{edge_list};
ghost use Rattle.adya_dsg.specs.Machinery.VersionOrders.{ordered_history};
ghost use Rattle.adya_dsg.specs.Machinery.Arcs.{AreEnds, Decide, ends};
ghost use Rattle.adya_dsg.specs.Mirror.{edge_of};

use crate::Edge;
use crate::part_edges::{count_parts, push_part_edges};
use crate::selection::Selector;
use crate::version_orders::VersionOrders;
use adya_laws::edge_list_keeps_first;
use digraph::{Arc, each_once};
use std::alloc::{AllocError, Global};

/// With at most twice as many arcs no repeats are looked for.
const FEW: usize = 32768;

/// Returns the arcs of all edges; `AllocError` if memory is refused. Many edges may have the same ends, if many events
/// select versions of the same keys, so repeats are removed each time that the arcs have become twice as many.
pub(crate) fn arcs_of_edges(alloc: Global, versions: &VersionOrders) -> Result<Vec<Arc>, AllocError>
    ensures sound { IfOk result (λ v. AreEnds (edge_list (ordered_history versions.now)) v.items) }
    ensures enough { IfOk result (λ v. Decide (edge_list (ordered_history versions.now)) v.items) }
{
    edge_list_keeps_first();
    let mut arcs = Vec::new(alloc);
    let mut kept = FEW;
    let mut selector = Selector::of(alloc, versions)?;
    let mut edges = Vec::new(alloc);
    for part in 0..count_parts(versions) {
        edges.clear();
        push_part_edges(&mut selector, &mut edges, versions, part)?;
        add_arcs(&mut arcs, &edges)?;
        if arcs.len() / 2 > kept {
            arcs = each_once(arcs);
            kept = arcs.len();
        }
    }
    Ok(arcs)
}

/// Adds the arcs of the edges.
fn add_arcs(arcs: &mut Vec<Arc>, edges: &[Edge]) -> Result<(), AllocError>
    ensures { OnOk result (arcs.new.items ≡ arcs.old.items ++ map ends (map edge_of edges.now)) }
{
    for edge in edges {
        arcs.push(edge.arc())?;
    }
    Ok(())
}
