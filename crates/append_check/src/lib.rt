//! Says whether an order of its transactions explains a list-append history, and why none does.
#![tactic(auto)]

mod appenders;
mod arcs;
mod checker;
mod item;
mod lists;
mod pieces;
mod plain;
mod precedences;
mod reasons;
mod replay;
mod seen;
mod verdict;
mod whole;
mod writers;

pub use append_values::{
    Counted, Kind, Link, Operation, Outcome, Read, Reason, Transaction, effects,
};
pub use checker::{check, examine};
pub use verdict::{Findings, Verdict};
