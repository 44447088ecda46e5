//! Conflicts of concurrent transactions, by the order of their commits (Cahill, Röhm and Fekete 2008; the commit order
//! as in Ports and Grittner 2012).
#![tactic(auto)]

mod answer;
pub mod laws;
mod reading;
mod record;
mod records;
mod stamps;
mod table;
mod tracker;
mod writes;

pub use answer::Answer;
pub use tracker::Tracker;
