//! The links of an event.

ghost use Rattle.std.specs.Prelude.{◌≡◌, ◌<◌, ◌++◌, length, map, IfOk, OnOk};
ghost use Rattle.std.specs.List.{list_all};
ghost use Rattle.adya_values.specs.Computing.Certificates.{is_forward};
ghost use Rattle.adya_dsg.specs.Machinery.VersionOrders.{ordered_history};
ghost use Rattle.adya_dsg.specs.Machinery.Arcs.{ends};
ghost use Rattle.adya_dsg.specs.Machinery.Choices.{choice_of, event_at, key_at};
ghost use Rattle.adya_dsg.specs.Machinery.Links.{overwriter, choice_links, event_links};

use crate::edge::push_arc;
use crate::selection::{Selection, Selector};
use crate::txn_places::TxnPlaces;
use crate::version_orders::VersionOrders;
use adya_values::Txn;
use digraph::Arc;
use std::alloc::AllocError;

/// Adds the arcs of the event's links.
pub(crate) fn push_event_links(
    selector: &mut Selector,
    links: &mut Vec<Arc>,
    versions: &VersionOrders,
    event: usize,
) -> Result<(), AllocError>
    requires { event < length (ordered_history versions.now).events }
    ensures { let h = ordered_history versions.now in
        OnOk result (links.new.items ≡ links.old.items ++ map ends (event_links h (event_at h event))) }
{
    selector.select(versions, event)?;
    for at in selector.selections.as_slice() {
        push_links_at(links, versions, event, *at)?;
    }
    Ok(())
}

/// Adds the arcs of the read dependency on whoever installed what the event reads or selects, and of the
/// anti-dependency on whoever overwrites it first.
fn push_links_at(
    links: &mut Vec<Arc>,
    versions: &VersionOrders,
    event: usize,
    at: Selection,
) -> Result<(), AllocError>
    requires there { event < length (ordered_history versions.now).events }
    requires within { at.line < length (ordered_history versions.now).orders }
    ensures { let h = ordered_history versions.now in
        OnOk result (links.new.items
        ≡ links.old.items ++ map ends (choice_links h (event_at h event) (choice_of h at))) }
{
    let txn = versions.txn(event);
    let from = versions.installer(at.line, at.place);
    push_arc(links, from, Some(txn))?;
    let to = overwriter(versions, event, at);
    push_arc(links, Some(txn), to)
}

/// Returns whether all links of the event go forward in the certificate.
pub(crate) fn links_go_forward(
    selector: &mut Selector,
    certificate: &TxnPlaces,
    versions: &VersionOrders,
    event: usize,
) -> Result<bool, AllocError>
    requires { event < length (ordered_history versions.now).events }
    ensures { let h = ordered_history versions.now in
        IfOk result (λ b. b ≡ list_all (is_forward certificate.now.txns.now) (event_links h (event_at h event))) }
{
    selector.select(versions, event)?;
    for at in selector.selections.as_slice() {
        if !links_at_go_forward(certificate, versions, event, *at) {
            return Ok(false);
        }
    }
    Ok(true)
}

/// Returns whether the two links of what the event reads or selects go forward in the certificate.
fn links_at_go_forward(
    certificate: &TxnPlaces,
    versions: &VersionOrders,
    event: usize,
    at: Selection,
) -> bool
    requires there { event < length (ordered_history versions.now).events }
    requires within { at.line < length (ordered_history versions.now).orders }
    ensures { let h = ordered_history versions.now in
        result ≡ list_all (is_forward certificate.now.txns.now) (choice_links h (event_at h event) (choice_of h at)) }
{
    let txn = versions.txn(event);
    let from = versions.installer(at.line, at.place);
    let to = overwriter(versions, event, at);
    certificate.goes_forward(from, Some(txn)) && certificate.goes_forward(Some(txn), to)
}

/// Returns who installed the first version that overwrites what the event reads or selects: the next one, or, if a scan
/// selects a version that isn't visible, the next visible one.
pub(crate) fn overwriter(versions: &VersionOrders, event: usize, at: Selection) -> Option<Txn>
    requires { at.line < length (ordered_history versions.now).orders }
    ensures { let h = ordered_history versions.now in
        result ≡ overwriter h (event_at h event) (key_at h at.line) at.place }
{
    if versions.is_scan(event) && !versions.is_visible(at.line, at.place) {
        let place = versions.next_change(at.line, at.place)?;
        return versions.installer(at.line, place);
    }
    versions.writers(at.line).get(at.place).copied()
}
