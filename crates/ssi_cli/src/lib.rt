//! What the program does, over any readers and writers: audits, searches for certificates, and runs of the transaction
//! store over a script or over the connections of a socket; with the exit status of each, and the line that names a fault.
//!
//! After a run of the store its history is written, and a certificate of it. Whatever the lines of a script are, the
//! history records what they were answered, and the auditor says yes to both texts.
#![tactic(auto)]

mod clients;
mod closing;
mod fault;
pub mod laws;
mod leaving;
mod listener;
mod parting;
mod peer;
mod peers;
mod runs;
mod script;
mod script_fault;
mod socket;
mod status;
mod store;
mod stream;
mod texts;
mod together;
mod turns;
mod users;

pub use closing::Closing;
pub use fault::Fault;
pub use leaving::abort_line;
pub use listener::Listener;
pub use parting::part;
pub use peer::{Input, Peer, Ready, Sent};
pub use peers::{MOST_CLIENTS, Peers, ROOM, listen};
pub use runs::{
    CommandsFault, ServingFault, carry_out_commands, judge_stream, judge_texts, order_text,
    serve_commands, serve_commands_together, status_of_serving,
};
pub use script::run_script;
pub use script_fault::ScriptFault;
pub use socket::{Served, run_socket, serve_socket};
pub use status::Status;
pub use store::{new_live_store, new_store};
pub use stream::Stream;
pub use together::{AtClose, run_together, serve_together};
pub use turns::turn;
pub use users::{Users, users_for};
