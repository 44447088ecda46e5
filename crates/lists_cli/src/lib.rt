//! What the program `lists` does, over any source and any writers: reads a history, looks for an order that explains it, and
//! writes the answer.
#![tactic(auto)]

mod answer;
mod basis;
mod cast;
mod explanation;
mod fault;
mod order;
mod page;
mod run;

pub use basis::Basis;
pub use fault::Fault;
pub use run::{Answered, Shape, judge};
