//! Segments of a log, one after the other: each was certified by itself, and together they are one serial history. It holds
//! definitions and a law of them, and no code that runs.
//!
//! A segment begins with lines that load what the one before has left. The transactions that load are no transactions of any
//! client. The certificates of the segments, each without them and one after the other, are the order in which all the others
//! may run one at a time.
#![tactic(auto)]

pub mod laws;
