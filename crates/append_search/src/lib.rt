//! A fast search for an order that explains a list-append history, or for the reasons why none does.
//!
//! What it finds is not proved to be right: whoever calls it looks at it once more, as `append_check` does, and needs
//! another answer if it isn't.
#![tactic(auto)]

mod blocks;
mod candidates;
mod components;
mod cycles;
mod diagnosis;
mod faults;
mod kinds;
mod lines;
mod links;
mod own;
mod reading;
mod roles;
mod sorting;
mod walk;
mod writers;

pub use candidates::{Candidate, Reasons, find_candidate};
pub use writers::Writers;
