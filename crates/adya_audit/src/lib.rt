//! Verdicts on a history and a certificate, and the search for a certificate or a cycle.
#![tactic(auto)]

mod answer;
mod auditor;
mod cycle;
mod exactly_the_committed;
mod judge;
pub mod laws;
mod ordered;
mod ordering;
mod pair;
mod pipe;
mod run_fault;
mod verdict;
mod writing;

pub use adya_dsg::{Edge, Kind};
pub use adya_text::{Text, WriteFault};
pub use auditor::audit;
pub use ordered::Ordered;
pub use ordering::run_order;
pub use pair::run_audit;
pub use pipe::run_pipe;
pub use run_fault::RunFault;
pub use verdict::Verdict;
pub use writing::write_verdict;
