//! Orders of the nodes of a directed graph: [`topological_order`] returns one in which each arc goes forward, or a cycle.
//!
//! A node is a number, and a graph is a list of its nodes with a list of its arcs.
#![tactic(auto)]

mod arc;
mod candidate;
mod counts;
mod distinct;
mod incoming;
mod laws;
mod marks;
mod node_set;
mod order;
mod outgoing;
mod placing;
mod ready;
mod slots;
mod sorted;
mod trace;

pub use arc::Arc;
pub use distinct::each_once;
pub use laws::{cycle_excludes_order, order_or_cycle_exists};
pub use order::{Outcome, topological_order};
