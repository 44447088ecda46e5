//! The direct serialization graph of a history (Adya 1999, section 3.1.4): its edges, the first of them that goes
//! backward in a certificate, and a certificate or a cycle.
//!
//! An *edge* says which of two transactions has to come first, by which key, and whether it is a write dependency, a
//! read dependency or an anti-dependency. An *arc* (of the crate `digraph`) is the two ends of an edge, which is all that
//! an order of the transactions has to respect. The *links* are few of the edges, and enough: in an order in which
//! each link goes forward, so does each edge. An order is therefore made from the arcs of the links, and the full
//! list of edges is made only to report one of them.
#![tactic(auto)]

mod along;
mod arcs;
mod backward;
mod changes;
mod edge;
mod event_edges;
mod event_links;
mod found;
mod hints;
mod laws;
mod line_tables;
mod links;
mod listing;
mod nodes;
mod ordering;
mod part_edges;
mod selection;
mod txn_places;
mod version_orders;
mod write_edges;

pub use backward::first_backward;
pub use edge::{Edge, Kind};
pub use found::Found;
pub use laws::{
    bad_read_excludes_certificates, certified_iff_no_phenomenon, cycle_excludes_certificates,
    edges_join_committed,
};
pub use listing::edges;
pub use ordering::order;
