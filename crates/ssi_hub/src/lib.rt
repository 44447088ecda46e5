//! Many connections that use one transaction store at once, without their sockets: whoever drives a [`Hub`] tells it what
//! each connection sent, has it carry out lines, and writes what it gives back.
//!
//! A hub knows a connection by its token. Each call with a token that no open connection has does nothing. The contracts
//! speak of the list of all calls so far: each line that a connection completes is carried out at most once and in order,
//! each reply goes to the connection that sent the line, and the store goes through the steps of all connections one after
//! the other.
#![tactic(auto)]

mod connection;
mod connections;
mod hub;
mod inbox;
pub mod laws;
mod outcome;
mod queue;
mod replying;

pub(crate) use connection::Connection;
pub(crate) use connections::Connections;
pub use hub::Hub;
pub(crate) use inbox::Inbox;
pub use outcome::{CarriedLine, Outcome};
pub(crate) use queue::Queue;
