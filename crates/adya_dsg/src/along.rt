//! The edges along a cycle of arcs.

ghost use Rattle.std.specs.Prelude.{◌≡◌, ◌++◌, List, Some, map, IfOk};
ghost use Rattle.adya_values.specs.Meaning.Edges.{Edge as PlainEdge};
ghost use Rattle.adya_values.specs.Computing.EdgeList.{dependencies, edge_list};
ghost use Rattle.adya_dsg.specs.Machinery.VersionOrders.{ordered_history};
ghost use Rattle.adya_dsg.specs.Mirror.{edge_of};
ghost use Rattle.adya_dsg.specs.Machinery.Arcs.{AreEnds};
ghost use Rattle.adya_dsg.specs.Machinery.Along.{HasFirst, Wants, first_along};

use crate::Edge;
use crate::part_edges::{count_parts, push_part_edges};
use crate::selection::Selector;
use crate::version_orders::VersionOrders;
use adya_laws::edge_list_keeps_first;
use digraph::Arc;
use std::alloc::{AllocError, Global};
use std::collections::{BTreeMap, BTreeSet};

/// Returns the ends of the arcs.
fn ends_of(alloc: Global, cycle: &[Arc]) -> Result<BTreeSet<(u32, u32)>, AllocError>
    ensures { IfOk result (λ s. Wants s cycle.now) }
{
    let mut ends = BTreeSet::new(alloc);
    for a in cycle {
        ends.insert((a.from, a.to))?;
    }
    Ok(ends)
}

/// Notes each of the edges whose ends are wanted, unless an edge with these ends is noted already.
fn note_first(
    wanted: &BTreeSet<(u32, u32)>,
    first: &mut BTreeMap<(u32, u32), Edge>,
    edges: &[Edge],
) -> Result<(), AllocError>
    ensures { IfOk result (λ u. (cycle : List Arc) (before : List PlainEdge)
        → Wants wanted.now cycle
        → HasFirst first.old cycle before
        → HasFirst first.new cycle (before ++ map edge_of edges.now)) }
{
    for e in edges {
        let arc = e.arc();
        let ends = (arc.from, arc.to);
        if wanted.contains(&ends) && !first.contains_key(&ends) {
            first.insert(ends, *e)?;
        }
    }
    Ok(())
}

/// Returns the first edge with the ends of each arc.
fn first_edges(
    alloc: Global,
    versions: &VersionOrders,
    cycle: &[Arc],
) -> Result<BTreeMap<(u32, u32), Edge>, AllocError>
    ensures { IfOk result (λ m. HasFirst m cycle.now (dependencies (ordered_history versions.now))) }
{
    let wanted = ends_of(alloc, cycle)?;
    let mut first = BTreeMap::new(alloc);
    let mut selector = Selector::of(alloc, versions)?;
    let mut edges = Vec::new(alloc);
    for part in 0..count_parts(versions) {
        edges.clear();
        push_part_edges(&mut selector, &mut edges, versions, part)?;
        note_first(&wanted, &mut first, &edges)?;
    }
    Ok(first)
}

/// Returns for each arc the first edge of the history with its ends; `AllocError` if memory is refused.
pub(crate) fn edges_along(
    alloc: Global,
    versions: &VersionOrders,
    cycle: &[Arc],
) -> Result<Vec<Edge>, AllocError>
    requires { AreEnds (edge_list (ordered_history versions.now)) cycle.now }
    ensures { let es = edge_list (ordered_history versions.now) in
        IfOk result (λ v. map Some (map edge_of v.items) ≡ map (first_along es) cycle.now) }
{
    edge_list_keeps_first();
    let first = first_edges(alloc, versions, cycle)?;
    let mut along = Vec::new(alloc);
    for a in cycle {
        along.push(first[&(a.from, a.to)])?;
    }
    Ok(along)
}
