//! The edges of an event.

ghost use Rattle.std.specs.Prelude.{◌≡◌, ◌<◌, ◌++◌, length, map, true, OnOk};
ghost use Rattle.std.specs.List.{list_any};
ghost use Rattle.adya_values.specs.Meaning.Selections.{is_scan};
ghost use Rattle.adya_values.specs.Computing.EdgeList.{event_edges, read_edges, overwrite_edges};
ghost use Rattle.adya_dsg.specs.Machinery.VersionOrders.{ordered_history};
ghost use Rattle.adya_dsg.specs.Mirror.{edge_of};
ghost use Rattle.adya_dsg.specs.Machinery.Choices.{choice_of, event_at, key_at};
ghost use Rattle.adya_dsg.specs.Machinery.Links.{choice_links};
ghost use Rattle.adya_dsg.specs.Machinery.PartEdges.{choice_edges};

use crate::edge::push_edge;
use crate::event_links::overwriter;
use crate::selection::{Selection, Selector};
use crate::version_orders::VersionOrders;
use crate::{Edge, Kind};
use std::alloc::AllocError;

/// Adds the edges of the event.
pub(crate) fn push_event_edges(
    selector: &mut Selector,
    edges: &mut Vec<Edge>,
    versions: &VersionOrders,
    event: usize,
) -> Result<(), AllocError>
    requires { event < length (ordered_history versions.now).events }
    ensures { let h = ordered_history versions.now in
        OnOk result (map edge_of edges.new.items ≡ map edge_of edges.old.items ++ event_edges h (event_at h event)) }
{
    selector.select(versions, event)?;
    for at in selector.selections.as_slice() {
        push_edges_at(edges, versions, event, *at)?;
    }
    Ok(())
}

fn push_edges_at(
    edges: &mut Vec<Edge>,
    versions: &VersionOrders,
    event: usize,
    at: Selection,
) -> Result<(), AllocError>
    requires there { event < length (ordered_history versions.now).events }
    requires within { at.line < length (ordered_history versions.now).orders }
    ensures { let h = ordered_history versions.now in
        OnOk result (map edge_of edges.new.items
        ≡ map edge_of edges.old.items ++ choice_edges h (event_at h event) (choice_of h at)) }
{
    if !versions.is_scan(event) {
        return push_read_edges(edges, versions, event, at);
    }
    push_sources(edges, versions, event, at)?;
    push_overwriters(edges, versions, event, at)
}

/// Adds the edges of a read, which are its links: the read dependency on whoever installed what it reads, and the
/// anti-dependency on whoever overwrites it.
fn push_read_edges(
    edges: &mut Vec<Edge>,
    versions: &VersionOrders,
    event: usize,
    at: Selection,
) -> Result<(), AllocError>
    requires there { event < length (ordered_history versions.now).events }
    requires within { at.line < length (ordered_history versions.now).orders }
    ensures { let h = ordered_history versions.now in
        OnOk result (map edge_of edges.new.items
        ≡ map edge_of edges.old.items ++ choice_links h (event_at h event) (choice_of h at)) }
{
    let key = versions.key(at.line);
    let txn = versions.txn(event);
    let writer = versions.installer(at.line, at.place);
    push_edge(edges, writer, Kind::Wr, key, Some(txn))?;
    let to = overwriter(versions, event, at);
    push_edge(edges, Some(txn), Kind::Rw, key, to)
}

/// Adds the read dependencies of a scan: on whoever installed the version that it selects, and on those before who
/// changed the matches.
fn push_sources(
    edges: &mut Vec<Edge>,
    versions: &VersionOrders,
    event: usize,
    at: Selection,
) -> Result<(), AllocError>
    requires scan { is_scan (event_at (ordered_history versions.now) event) ≡ true }
    requires scans { list_any is_scan (ordered_history versions.now).events ≡ true }
    requires there { event < length (ordered_history versions.now).events }
    requires within { at.line < length (ordered_history versions.now).orders }
    ensures { let h = ordered_history versions.now in
        OnOk result (map edge_of edges.new.items
        ≡ map edge_of edges.old.items ++ read_edges h (event_at h event) (key_at h at.line) at.place) }
{
    let key = versions.key(at.line);
    let txn = versions.txn(event);
    let changes = versions.changes(at.line);
    for place in changes {
        if *place < at.place {
            let from = versions.installer(at.line, *place);
            push_edge(edges, from, Kind::Wr, key, Some(txn))?;
        }
    }
    let from = versions.installer(at.line, at.place);
    push_edge(edges, from, Kind::Wr, key, Some(txn))
}

/// Adds the anti-dependencies of a scan: on whoever overwrites the visible version that it selects, and on those after
/// it who change the matches.
fn push_overwriters(
    edges: &mut Vec<Edge>,
    versions: &VersionOrders,
    event: usize,
    at: Selection,
) -> Result<(), AllocError>
    requires scan { is_scan (event_at (ordered_history versions.now) event) ≡ true }
    requires scans { list_any is_scan (ordered_history versions.now).events ≡ true }
    requires there { event < length (ordered_history versions.now).events }
    requires within { at.line < length (ordered_history versions.now).orders }
    ensures { let h = ordered_history versions.now in
        OnOk result (map edge_of edges.new.items
        ≡ map edge_of edges.old.items ++ overwrite_edges h (event_at h event) (key_at h at.line) at.place) }
{
    let key = versions.key(at.line);
    let txn = versions.txn(event);
    let mut seen = at.place;
    if versions.is_visible(at.line, at.place) {
        let to = versions.writers(at.line).get(at.place).copied();
        push_edge(edges, Some(txn), Kind::Rw, key, to)?;
        seen = at.place + 1;
    }
    let changes = versions.changes(at.line);
    for place in changes {
        if seen < *place {
            let to = versions.installer(at.line, *place);
            push_edge(edges, Some(txn), Kind::Rw, key, to)?;
        }
    }
    Ok(())
}
