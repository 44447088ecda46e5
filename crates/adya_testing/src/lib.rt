//! What tests stand on: readers and writers that give pieces, never end or fail, and small histories.
#![tactic(auto)]

mod devices;
pub mod histories;

pub use devices::{Endless, FailsAt, Narrow, Pieces};
