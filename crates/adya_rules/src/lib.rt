//! The rules of a history and the tests that compute them: which histories have no fault, and which fault is the first.
#![tactic(auto)]

pub mod first_faults;
pub mod laws;
