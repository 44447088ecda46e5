//! The links of a history: the few edges that decide whether all go forward.

ghost use Rattle.std.specs.Prelude.{◌≡◌, ◌++◌, IfOk, OnOk, map, filter, flat_map};
ghost use Rattle.adya_values.specs.Mirror.Lines.{orders_of};
ghost use Rattle.adya_values.specs.Meaning.Events.{txn_of, is_committed};
ghost use Rattle.adya_values.specs.Computing.EdgeList.{edge_list};
ghost use Rattle.adya_values.specs.Clauses.Acceptance.{IsChecked};
ghost use Rattle.adya_dsg.specs.Machinery.VersionOrders.{ordered_history};
ghost use Rattle.adya_dsg.specs.Machinery.Arcs.{AreEnds, Decide, ends};
ghost use Rattle.adya_dsg.specs.Machinery.PartEdges.{line_edges};
ghost use Rattle.adya_dsg.specs.Machinery.Links.{event_links};

use crate::event_links::push_event_links;
use crate::selection::Selector;
use crate::version_orders::VersionOrders;
use crate::write_edges::push_write_arcs;
use adya_laws::{edge_list_keeps_first, selected_is_installed};
use adya_values::Orders;
use digraph::Arc;
use std::alloc::{AllocError, Global};

/// For how many arcs there is room at first for each event. Most events have one or two links. Room for all of them at once leaves
/// no holes in memory, as a list that grows does.
const ARCS_OF_EVENT: usize = 2;

/// Returns the arcs of the links, which decide for each order of the transactions whether all edges go forward in it;
/// `AllocError` if memory is refused.
pub(crate) fn links(alloc: Global, versions: &VersionOrders) -> Result<Vec<Arc>, AllocError>
    requires { IsChecked (ordered_history versions.now) }
    ensures sound { IfOk result (λ v. AreEnds (edge_list (ordered_history versions.now)) v.items) }
    ensures enough { IfOk result (λ v. Decide (edge_list (ordered_history versions.now)) v.items) }
{
    edge_list_keeps_first();
    selected_is_installed();
    let mut arcs = Vec::with_capacity(alloc, versions.event_count() * ARCS_OF_EVENT)?;
    add_write_arcs(versions.orders(), &mut arcs)?;
    add_event_arcs(alloc, versions, &mut arcs)?;
    Ok(arcs)
}

fn add_write_arcs(orders: &Orders, arcs: &mut Vec<Arc>) -> Result<(), AllocError>
    ensures { OnOk result (arcs.new.items ≡ arcs.old.items
        ++ map ends (flat_map (λ o. line_edges o.key o.writers) (orders_of orders.now))) }
{
    for line in 0..orders.len() {
        push_write_arcs(arcs, orders.writers(line))?;
    }
    Ok(())
}

fn add_event_arcs(
    alloc: Global,
    versions: &VersionOrders,
    arcs: &mut Vec<Arc>,
) -> Result<(), AllocError>
    ensures { let h = ordered_history versions.now in
        OnOk result (arcs.new.items ≡ arcs.old.items
        ++ map ends (flat_map (event_links h) (filter (λ e. is_committed h.events (txn_of e)) h.events))) }
{
    let mut selector = Selector::of(alloc, versions)?;
    for event in 0..versions.event_count() {
        if versions.is_committed(event) {
            push_event_links(&mut selector, arcs, versions, event)?;
        }
    }
    Ok(())
}
