//! A transaction store under serializable snapshot isolation (Cahill, Röhm and Fekete 2008; the commit order as in
//! Ports and Grittner 2012): what it answers to each command, and what its history is.
//!
//! A *course* is a list of commands with their answers. Its transactions' *acts* are told to three parts that know
//! nothing of each other: the versions (ssi_versions), the conflicts (ssi_conflict) and the record (ssi_recorder). The
//! laws say that together they do what serializable snapshot isolation promises: each history of a course is a snapshot
//! history without a dangerous structure. The store stands for a course, and each command leads to the course with that
//! command and its answer.
#![tactic(auto)]

mod abort;
mod any_store;
mod begin;
mod below;
mod collect;
mod command;
mod commit;
mod contents;
mod engine;
mod finish;
mod get;
mod histories;
pub mod laws;
mod live_store;
mod no_past;
mod open;
mod overtaken;
mod past;
mod roster;
mod rows;
mod scan;
mod session;
mod sessions;
mod show;
mod store;
mod whole_past;
mod write;

pub use any_store::AnyStore;
pub use command::{Command, Refusal, Reply};
pub use finish::Finished;
pub use live_store::LiveStore;
pub use session::{MAX_SESSION_LEN, Session};
pub use store::Store;
