//! The service of a store that keeps its data: connections of a socket that use one server at once, whose replies are given
//! out once all lines before them are on the disk; and the start of such a server from the folder of its segments.
#![tactic(auto)]

mod aborting;
mod clients;
mod collecting;
mod fault;
mod halt;
mod idle;
mod leaving;
mod own_lines;
mod rotation;
mod segment;
mod service;
mod started;
mod tables;
mod turns;

pub use aborting::abort_open;
pub use clients::Clients;
pub use fault::DataFault;
pub use halt::Halt;
pub use idle::Idle;
pub use rotation::{Rotation, rotate};
pub use segment::{Segment, open_last};
pub use service::serve;
pub use started::{Started, start};
pub use tables::Tables;
pub use turns::{carry_out, receive, reply, send};
