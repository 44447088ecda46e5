//! A certificate of a history, or a cycle of its graph.

ghost use Rattle.std.specs.Prelude.{◌≡◌, ◌↔◌, All, IfOk, map};
ghost use Rattle.adya_keys.specs.Meaning.Keys.{IsTxn};
ghost use Rattle.adya_values.specs.Computing.EdgeList.{edge_list};
ghost use Rattle.adya_values.specs.Clauses.Acceptance.{IsChecked};
ghost use Rattle.adya_values.specs.Meaning.Phenomena.{HasG1, HasG2};
ghost use Rattle.adya_terms.specs.Clauses.Checked.{checked_history};
ghost use Rattle.adya_dsg.specs.Machinery.Arcs.{AreEnds, Decide, IsSorted};
ghost use Rattle.adya_dsg.specs.Mirror.{edge_of};
ghost use Rattle.adya_dsg.specs.Machinery.Nodes.{committed};
ghost use Rattle.adya_dsg.specs.Clauses.Found.{IsFound, CycleIsSimple, NoneBesideCycle, HasCertificate};

use crate::Found;
use crate::along::edges_along;
use crate::arcs::arcs_of_edges;
use crate::changes::has_scans;
use crate::laws::{certified_iff_no_phenomenon, cycle_excludes_certificates, edges_join_committed};
use crate::links::links;
use crate::nodes::{committed, serial_of};
use crate::version_orders::VersionOrders;
use adya_laws::edge_list_is_exact;
use adya_terms::Checked;
use digraph::{Arc, Outcome, topological_order};
use std::alloc::{AllocError, Global};

/// Finds a certificate that the history is accepted with, or else a cycle in its graph; `AllocError` if memory is
/// refused. Some certificate is accepted if and only if the history shows neither G1 nor G2 (Adya 1999, section 3.2).
///
/// The certificate and the cycle are those of [`topological_order`] for the numbers of the committed transactions and
/// the edges of the graph. So in the certificate the smallest transaction that no other has to precede any more always
/// comes next. The cycle goes through no transaction twice. If several edges join two neighbours on it, the one that comes
/// first in [`edges`] is taken.
pub fn order(alloc: Global, checked: &Checked) -> Result<Found, AllocError>
    ensures found { IfOk result (IsFound (checked_history checked.now)) }
    ensures simple { IfOk result CycleIsSimple }
    ensures refused { IfOk result (NoneBesideCycle (checked_history checked.now)) }
    ensures decided { let h = checked_history checked.now in
        HasCertificate h ↔ ((HasG1 h → ⊥) × (HasG2 h → ⊥)) }
{
    certified_iff_no_phenomenon();
    cycle_excludes_certificates();
    let nodes = committed(alloc, checked.history().events())?;
    found(alloc, checked, &nodes)
}

/// Makes a certificate of an order, and of a cycle the first edges along it.
fn found(alloc: Global, checked: &Checked, nodes: &[u32]) -> Result<Found, AllocError>
    requires checked { IsChecked (checked_history checked.now) }
    requires nodes { nodes.now ≡ committed (checked_history checked.now).events }
    requires numbers { All IsTxn nodes.now }
    ensures found { IfOk result (IsFound (checked_history checked.now)) }
    ensures simple { IfOk result CycleIsSimple }
{
    edge_list_is_exact();
    match sorted(alloc, checked, nodes)? {
        Outcome::Order(order) => Ok(Found::Serial(serial_of(alloc, &order)?)),
        Outcome::Cycle(cycle) => {
            let versions = VersionOrders::of(alloc, checked)?;
            Ok(Found::Cycle(edges_along(alloc, &versions, &cycle)?))
        }
    }
}

/// Sorts the nodes by the links, which are few. If these have a cycle, by all edges; without scans these have no other
/// ends.
fn sorted(alloc: Global, checked: &Checked, nodes: &[u32]) -> Result<Outcome, AllocError>
    requires checked { IsChecked (checked_history checked.now) }
    requires nodes { nodes.now ≡ committed (checked_history checked.now).events }
    ensures { IfOk result (IsSorted (edge_list (checked_history checked.now)) nodes.now) }
{
    edge_list_is_exact();
    edges_join_committed();
    let outcome = topological_order(alloc, nodes, arcs_of_links(alloc, checked)?)?;
    if matches!(outcome, Outcome::Order(_)) || !has_scans(checked.events()) {
        return Ok(outcome);
    }
    topological_order(alloc, nodes, arcs_of_all(alloc, checked)?)
}

/// Returns the arcs of the links. The version orders that tell them are left before the arcs are sorted, so memory holds only one
/// of both at a time.
fn arcs_of_links(alloc: Global, checked: &Checked) -> Result<Vec<Arc>, AllocError>
    requires { IsChecked (checked_history checked.now) }
    ensures sound { IfOk result (λ v. AreEnds (edge_list (checked_history checked.now)) v.items) }
    ensures enough { IfOk result (λ v. Decide (edge_list (checked_history checked.now)) v.items) }
{
    let versions = VersionOrders::of(alloc, checked)?;
    links(alloc, &versions)
}

/// Returns the arcs of all edges, likewise.
fn arcs_of_all(alloc: Global, checked: &Checked) -> Result<Vec<Arc>, AllocError>
    ensures sound { IfOk result (λ v. AreEnds (edge_list (checked_history checked.now)) v.items) }
    ensures enough { IfOk result (λ v. Decide (edge_list (checked_history checked.now)) v.items) }
{
    let versions = VersionOrders::of(alloc, checked)?;
    arcs_of_edges(alloc, &versions)
}
