//! The first lines of a segment of a log. They load what the store held at the end of the segment before, so that the segments
//! before aren't needed any more: a store that carries the lines out again holds the same keys and values, and no session has
//! a transaction.
#![tactic(auto)]

mod following;
pub mod laws;
#[cfg(test)]
mod tests;
mod writing;

pub use following::{FollowFault, is_followed};
pub use writing::first_lines;
