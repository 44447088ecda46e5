//! A store that outlives a crash: its log is the list of the lines that it has carried out. After a crash a new store carries
//! them out again, in their order, and so answers the lines that follow as the old one would have.
#![tactic(auto)]

mod buffer;
mod fault;
mod holds;
mod journal;
pub mod laws;
mod lines;
mod loading;
mod recovery;
mod release;
mod replaying;
mod server;

pub use fault::{RecoveryFault, ReplayFault};
pub use lines::first_line;
pub use loading::load;
pub use recovery::{Recovered, recover};
pub use release::Release;
pub use replaying::{Replayed, replay};
pub use server::Server;
