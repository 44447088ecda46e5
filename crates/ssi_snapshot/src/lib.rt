//! What a transaction of a snapshot store sees: the contents at its snapshot, with its own writes over them
//! (Berenson et al. 1995, section 4.2; Cahill, Röhm and Fekete 2008, section 2).
#![tactic(auto)]

pub mod laws;
mod limit;
mod merge;
mod view;
mod writes;

pub use view::View;
