//! Marks of the keys that transactions have read (Cahill, Röhm and Fekete 2008, section 3: the SIREAD locks).
//!
//! A [`Marks`] says of each key which transactions have read it. [`ListMarks`] is the plain representation,
//! [`IndexMarks`] the fast one.
#![tactic(auto)]

mod index_marks;
mod key_marks;
mod list_marks;
mod marks;
mod members;
mod place;
mod range_marks;
mod span;

pub use index_marks::IndexMarks;
pub use list_marks::ListMarks;
pub use marks::Marks;
