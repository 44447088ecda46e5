//! List-append histories: what transactions appended to lists and read of them, as the clients of a database saw it.
//!
//! The definitions that all promises are made of are in `specs/Meaning`: the serial run, when an order explains a
//! history, and the reasons for which none does.
#![tactic(auto)]

mod reason;
mod steps;
mod transaction;

pub use reason::{Counted, Kind, Link, Read, Reason};
pub use steps::{appended, effects};
pub use transaction::{Operation, Outcome, Transaction};
