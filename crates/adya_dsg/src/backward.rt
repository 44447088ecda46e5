//! The first edge that doesn't go forward.

ghost use Rattle.std.specs.Prelude.{◌≡◌, ◌<◌, None, true, IfOk, option_map, filter, flat_map, length};
ghost use Rattle.std.specs.List.{find};
ghost use Rattle.adya_values.specs.Mirror.Lines.{orders_of};
ghost use Rattle.adya_values.specs.Mirror.Histories.{serial_txns};
ghost use Rattle.adya_values.specs.Meaning.Events.{txn_of, is_committed};
ghost use Rattle.adya_values.specs.Computing.EdgeList.{write_edges, event_edges};
ghost use Rattle.adya_values.specs.Computing.Certificates.{first_backward};
ghost use Rattle.adya_values.specs.Clauses.Acceptance.{IsChecked};
ghost use Rattle.adya_terms.specs.Clauses.Checked.{checked_history};
ghost use Rattle.adya_dsg.specs.Machinery.VersionOrders.{ordered_history};
ghost use Rattle.adya_dsg.specs.Machinery.Choices.{event_at};
ghost use Rattle.adya_dsg.specs.Mirror.{edge_of};
ghost use Rattle.adya_dsg.specs.Machinery.PartEdges.{line_edges, is_backward};

use crate::Edge;
use crate::event_edges::push_event_edges;
use crate::event_links::links_go_forward;
use crate::selection::Selector;
use crate::txn_places::TxnPlaces;
use crate::version_orders::VersionOrders;
use crate::write_edges::push_write_edges;
use adya_laws::{edge_list_keeps_first, selected_is_installed};
use adya_terms::Checked;
use adya_values::{Key, Orders, Serial, Txn};
use std::alloc::{AllocError, Global};

/// Returns the first of the [`edges`](crate::edges) that doesn't go forward in the certificate, if there is one: its `to`
/// doesn't come after its `from` there. `AllocError` if memory is refused.
///
/// It takes O(n log n) steps, where n counts the events, the entries that scans list, the keys of their ranges and the
/// transactions of the orders and the certificate.
pub fn first_backward(
    alloc: Global,
    checked: &Checked,
    serial: &Serial,
) -> Result<Option<Edge>, AllocError>
    ensures { IfOk result (λ o. option_map edge_of o
        ≡ first_backward (checked_history checked.now) (serial_txns serial.now)) }
{
    edge_list_keeps_first();
    let txns = serial.txns();
    // most histories commit more than half of their transactions, so most numbers are below twice as many
    let certificate = TxnPlaces::of(alloc, txns, txns.len().saturating_mul(2))?;
    let found = first_write(alloc, &certificate, checked.history().orders())?;
    if found.is_some() {
        return Ok(found);
    }
    let versions = VersionOrders::of(alloc, checked)?;
    first_read(alloc, &certificate, &versions)
}

/// Returns the first write dependency that doesn't go forward.
fn first_write(
    alloc: Global,
    certificate: &TxnPlaces,
    orders: &Orders,
) -> Result<Option<Edge>, AllocError>
    ensures { IfOk result (λ o. option_map edge_of o ≡ find (is_backward certificate.now.txns.now)
        (flat_map (λ o. line_edges o.key o.writers) (orders_of orders.now))) }
{
    for line in 0..orders.len() {
        let writers = orders.writers(line);
        if !certificate.keeps_order(writers) {
            return first_of_line(alloc, certificate, orders.key(line), writers);
        }
    }
    Ok(None)
}

/// Returns the first write dependency of the order line of this key, with these writers, that doesn't go forward.
fn first_of_line(
    alloc: Global,
    certificate: &TxnPlaces,
    key: Key,
    writers: &[Txn],
) -> Result<Option<Edge>, AllocError>
    ensures { IfOk result (λ o. option_map edge_of o
        ≡ find (is_backward certificate.now.txns.now) (line_edges key writers.now)) }
{
    let mut edges = Vec::new(alloc);
    push_write_edges(&mut edges, key, writers)?;
    Ok(certificate.first_backward(&edges))
}

/// Returns the first edge of a committed transaction's event that doesn't go forward, if all write dependencies do.
fn first_read(
    alloc: Global,
    certificate: &TxnPlaces,
    versions: &VersionOrders,
) -> Result<Option<Edge>, AllocError>
    requires checked { IsChecked (ordered_history versions.now) }
    requires writes { let h = ordered_history versions.now in
        find (is_backward certificate.now.txns.now) (flat_map (λ o. write_edges h o.key) h.orders) ≡ None }
    ensures { let h = ordered_history versions.now in
        IfOk result (λ o. option_map edge_of o ≡ find (is_backward certificate.now.txns.now)
        (flat_map (event_edges h) (filter (λ e. is_committed h.events (txn_of e)) h.events))) }
{
    let mut selector = Selector::of(alloc, versions)?;
    let mut edges = Vec::new(alloc);
    for event in 0..versions.event_count() {
        if versions.is_committed(event) {
            if let Some(found) = first_of_event(
                certificate,
                versions,
                event,
                &mut selector,
                &mut edges,
            )? {
                return Ok(Some(found));
            }
        }
    }
    Ok(None)
}

/// Returns the first of the event's edges that doesn't go forward, if all write dependencies do. If its links go
/// forward, so do all of its edges, so its edges are listed only if a link goes backward. The lists are room.
fn first_of_event(
    certificate: &TxnPlaces,
    versions: &VersionOrders,
    event: usize,
    selector: &mut Selector,
    edges: &mut Vec<Edge>,
) -> Result<Option<Edge>, AllocError>
    requires checked { IsChecked (ordered_history versions.now) }
    requires writes { let h = ordered_history versions.now in
        find (is_backward certificate.now.txns.now) (flat_map (λ o. write_edges h o.key) h.orders) ≡ None }
    requires occurs { event < length (ordered_history versions.now).events }
    requires committed { let h = ordered_history versions.now in
        is_committed h.events (txn_of (event_at h event)) ≡ true }
    ensures { let h = ordered_history versions.now in
        IfOk result (λ o. option_map edge_of o
        ≡ find (is_backward certificate.now.txns.now) (event_edges h (event_at h event))) }
{
    selected_is_installed();
    if links_go_forward(selector, certificate, versions, event)? {
        return Ok(None);
    }
    edges.clear();
    push_event_edges(selector, edges, versions, event)?;
    Ok(certificate.first_backward(edges))
}
