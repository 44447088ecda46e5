//! A run over all connections of a socket at once.

ghost use Rattle.std.specs.Prelude.{◌≡◌, false, true, Err};
ghost use Rattle.devices.specs.Mirror.{has_failed};
ghost use Rattle.ssi_store.specs.Meaning.Courses.{New};
ghost use Rattle.ssi_store.specs.Mirror.Stores.{IsAt};
ghost use Rattle.ssi_line.specs.Meaning.Steps.{AllMayFollow, course_after};
ghost use Rattle.ssi_line.specs.Clauses.Ends.{WentOn};
ghost use Rattle.ssi_hub.specs.Clauses.Calls.{all_steps};
ghost use Rattle.ssi_hub.specs.Mirror.{is_stopped};
ghost use Rattle.ssi_cli.specs.Clauses.Scripts.{LeavesTexts};
ghost use Rattle.ssi_cli.specs.Clauses.Serving.{Together, ends_by_stop};
ghost use Rattle.ssi_cli.specs.Machinery.HubRuns.{HasRun};

use crate::ScriptFault;
use crate::clients::Clients;
use crate::peers::{ROOM, listen};
use crate::socket::Served;
use crate::store::new_store;
use crate::texts::write_texts;
use devices::Watched;
use mio::net::UnixListener;
use mio::{Events, Poll};
use ssi_reads::Marks;
use ssi_store::Store;
use ssi_versions::Chains;
use std::alloc::Global;
use std::io::Write;

/// What becomes of the transactions that a connection leaves open.
#[derive(Clone, Copy, Debug, PartialEq, Eq)]
pub enum AtClose {
    /// They stay open, and another connection may go on with them.
    Keep,
    /// Each session whose last command the connection sent is aborted.
    Abort,
}

/// Carries out the lines of all connections on a new store, as [`serve_together`] does, and then writes the history of the
/// store and a certificate of it. They are written also if the socket has failed. Returns how the connections ended, and
/// whether both texts are written.
///
/// The history records the course of the store, and the auditor says yes to both texts.
pub fn run_together<H: Write, C: Write>(
    alloc: Global,
    poll: &mut Poll,
    listener: &mut UnixListener,
    at_close: AtClose,
    history: &mut Watched<H>,
    certificate: &mut Watched<C>,
) -> (Served, Result<(), ScriptFault>)
    ensures run { (together : Together (ends_by_stop result.0)) × AllMayFollow (New 1) (all_steps together.calls)
        × LeavesTexts result.1 (course_after (New 1) (all_steps together.calls)) H.contents history.old history.new
        C.contents certificate.old certificate.new }
    ensures history_fault { result.1 ≡ Err ScriptFault.History
        → (has_failed history.new ≡ true) × (certificate.new ≡ certificate.old) }
    ensures certificate_fault { result.1 ≡ Err ScriptFault.Certificate → has_failed certificate.new ≡ true }
    ensures memory { result.1 ≡ Err ScriptFault.Memory
        → (history.new ≡ history.old) × (certificate.new ≡ certificate.old) }
{
    let mut store = new_store(alloc);
    let served = serve_together(alloc, poll, listener, at_close, &mut store);
    let written = write_texts(alloc, store, history, certificate);
    (served, written)
}

/// Accepts connections and carries out the lines of all of them on the store, one line at a time, in the order in which they
/// are completed. Each connection gets the replies to its own lines, in their order; a session may be used by several. It
/// goes on until a connection sends `stop`: then no further line is carried out, and what is to be written to the
/// connections is written as far as they take it at once. `SocketFault` if waiting for the sockets fails, or if memory runs
/// out at the start.
///
/// A connection that doesn't read doesn't hold others up. Nothing more is read from it, and none of its lines is carried out,
/// while more than 65,536 bytes are to be written to it. Up to 1,024 connections are open at a time; more wait in the
/// listener. A connection that can't be accepted waits there, too.
///
/// When a client sends no more, its whole lines are carried out and the replies are written, and then the connection is
/// closed; it is closed at once if it can't be written to, or if memory can't hold what it sent or what it is to get. What its
/// commands did stands. Its transactions stay open with `AtClose::Keep`. With `AtClose::Abort` each session whose last command
/// it sent is aborted, by a command `abort` that is carried out as if another connection had sent it; while memory runs out
/// this is tried again.
pub fn serve_together<C: Chains + Drop, M: Marks + Drop>(
    alloc: Global,
    poll: &mut Poll,
    listener: &mut UnixListener,
    at_close: AtClose,
    store: &mut Store<C, M>,
) -> Served
    ensures served { (together : Together (ends_by_stop result))
        × WentOn (IsAt C.held M.marked) store.old (all_steps together.calls) store.new }
{
    let mut clients = Clients::new(alloc, at_close);
    serve_listener(alloc, poll, listener, &mut clients, store)
}

/// Waits for connections, and carries out the lines of all of them, as [`serve_together`] does.
fn serve_listener<C: Chains + Drop, M: Marks + Drop>(
    alloc: Global,
    poll: &mut Poll,
    listener: &mut UnixListener,
    clients: &mut Clients,
    store: &mut Store<C, M>,
) -> Served
    requires { is_stopped clients.old.hub ≡ false }
    ensures run { HasRun (IsAt C.held M.marked) clients.old.hub store.old clients.new.hub store.new }
    ensures ends { is_stopped clients.new.hub ≡ ends_by_stop result }
{
    let Some(mut events) = listen(alloc, poll, listener) else {
        return Served::SocketFault;
    };
    serve_clients(alloc, poll, listener, &mut events, clients, store)
}

/// Carries out the lines of all connections, as [`serve_together`] does, until one is `stop` or waiting fails.
fn serve_clients<C: Chains + Drop, M: Marks + Drop>(
    alloc: Global,
    poll: &mut Poll,
    listener: &UnixListener,
    events: &mut Events,
    clients: &mut Clients,
    store: &mut Store<C, M>,
) -> Served
    requires { is_stopped clients.old.hub ≡ false }
    ensures run { HasRun (IsAt C.held M.marked) clients.old.hub store.old clients.new.hub store.new }
    ensures ends { is_stopped clients.new.hub ≡ ends_by_stop result }
{
    let mut room = [0u8; ROOM];
    for _ in 0..u64::MAX {
        let Ok(()) = poll.poll(events, clients.longest_wait()) else {
            return Served::SocketFault;
        };
        clients.round(alloc, events, store, &mut room);
        clients.accept(alloc, listener, poll.registry());
        if clients.is_stopped() {
            clients.part_all();
            return Served::Stopped;
        }
    }
    Served::SocketFault
}
