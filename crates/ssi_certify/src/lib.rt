//! The certificate of a snapshot history without a dangerous structure: such a history always has one (Fekete,
//! Liarokapis, O'Neil, O'Neil and Shasha 2005). So each history of a store has one.
#![tactic(auto)]

mod certificate;
pub mod laws;

pub use certificate::{certified, certify};
