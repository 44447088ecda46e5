//! The edges of a history part by part: those of each order line, and then those of each event.

ghost use Rattle.std.specs.Prelude.{◌≡◌, ◌<◌, ◌++◌, length, map, OnOk};
ghost use Rattle.adya_dsg.specs.Machinery.VersionOrders.{ordered_history};
ghost use Rattle.adya_dsg.specs.Mirror.{edge_of};
ghost use Rattle.adya_dsg.specs.Machinery.PartEdges.{parts, part_edges};

use crate::Edge;
use crate::event_edges::push_event_edges;
use crate::selection::Selector;
use crate::version_orders::VersionOrders;
use crate::write_edges::push_write_edges;
use std::alloc::AllocError;

/// Returns how many parts the history has: its order lines and its events.
pub(crate) fn count_parts(versions: &VersionOrders) -> usize
    ensures { result ≡ length (parts (ordered_history versions.now)) }
{
    versions.line_count() + versions.event_count()
}

/// Adds the edges of the part: of the order line at this index or, if there are only so many lines, of the event. Only
/// the events of committed transactions have edges.
pub(crate) fn push_part_edges(
    selector: &mut Selector,
    edges: &mut Vec<Edge>,
    versions: &VersionOrders,
    part: usize,
) -> Result<(), AllocError>
    requires { part < length (parts (ordered_history versions.now)) }
    ensures { OnOk result (map edge_of edges.new.items
        ≡ map edge_of edges.old.items ++ part_edges (ordered_history versions.now) part) }
{
    let lines = versions.line_count();
    if part < lines {
        return push_write_edges(edges, versions.key(part), versions.writers(part));
    }
    let event = part - lines;
    if versions.is_committed(event) {
        push_event_edges(selector, edges, versions, event)?;
    }
    Ok(())
}
