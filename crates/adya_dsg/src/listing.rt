//! The edges of a history.

ghost use Rattle.std.specs.Prelude.{◌≡◌, ◌≢◌, IfOk, OnOk, map, fold};
ghost use Rattle.std.specs.List.{AllPairs};
ghost use Rattle.adya_values.specs.Computing.EdgeList.{with_edge, edge_list};
ghost use Rattle.adya_terms.specs.Clauses.Checked.{checked_history};
ghost use Rattle.adya_dsg.specs.Machinery.VersionOrders.{ordered_history};
ghost use Rattle.adya_dsg.specs.Mirror.{edge_of, AreEdges};

use crate::Edge;
use crate::part_edges::{count_parts, push_part_edges};
use crate::selection::Selector;
use crate::version_orders::VersionOrders;
use adya_laws::{edge_list_is_distinct, edge_list_is_exact};
use adya_terms::Checked;
use indexmap::IndexSet;
use std::alloc::{AllocError, Global};

/// Returns the edges of the direct serialization graph (Adya 1999, section 3.1.4), each once; `AllocError` if memory is
/// refused.
///
/// The write dependencies come first, by rising key and by place in the version order. The others follow by the lines
/// of the committed transactions' events. A read contributes its read dependency, and then its anti-dependency. A scan
/// contributes, one key after another in rising order, the read dependencies by place, and then the anti-dependencies
/// by place. Of equal edges the first one stays.
///
/// It takes O((n + e) log n) steps for e edges with repeats, where n counts the events, the entries that scans list,
/// the keys of their ranges and the transactions of the orders.
pub fn edges(alloc: Global, checked: &Checked) -> Result<Vec<Edge>, AllocError>
    ensures exact { IfOk result (λ v. map edge_of v.items ≡ edge_list (checked_history checked.now)) }
    // The edges of the graph and no other, none twice.
    ensures edges { IfOk result (λ v. AreEdges (checked_history checked.now) (map edge_of v.items)) }
    ensures once { IfOk result (λ v. AllPairs (λ a b. a ≢ b) (map edge_of v.items)) }
{
    edge_list_is_exact();
    edge_list_is_distinct();
    let versions = VersionOrders::of(alloc, checked)?;
    edges_of(alloc, &versions)
}

/// Returns the edges of the history with these version orders, as [`edges`] does.
fn edges_of(alloc: Global, versions: &VersionOrders) -> Result<Vec<Edge>, AllocError>
    ensures { IfOk result (λ v. map edge_of v.items ≡ edge_list (ordered_history versions.now)) }
{
    let mut set = IndexSet::new(alloc);
    let mut selector = Selector::of(alloc, versions)?;
    let mut edges = Vec::new(alloc);
    for part in 0..count_parts(versions) {
        edges.clear();
        push_part_edges(&mut selector, &mut edges, versions, part)?;
        add(&mut set, &edges)?;
    }
    Vec::from_slice(alloc, set.as_slice())
}

/// Adds the edges that aren't there yet.
fn add(set: &mut IndexSet<Edge>, edges: &[Edge]) -> Result<(), AllocError>
    ensures { OnOk result (map edge_of set.new.keys
        ≡ fold with_edge (map edge_of set.old.keys) (map edge_of edges.now)) }
{
    for edge in edges {
        set.insert(*edge)?;
    }
    Ok(())
}
