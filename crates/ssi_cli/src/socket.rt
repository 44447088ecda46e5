//! A run over the connections of a socket, one after the other.

ghost use Rattle.std.specs.Prelude.{◌≡◌, ◌≢◌, true, false, Err, None, IfSome};
ghost use Rattle.devices.specs.Mirror.{has_failed};
ghost use Rattle.ssi_store.specs.Meaning.Courses.{New};
ghost use Rattle.ssi_store.specs.Mirror.Stores.{IsAt};
ghost use Rattle.ssi_line.specs.Meaning.Steps.{AllMayFollow, course_after};
ghost use Rattle.ssi_line.specs.Clauses.Ends.{WentOn};
ghost use Rattle.ssi_cli.specs.Clauses.Scripts.{LeavesTexts};
ghost use Rattle.ssi_cli.specs.Clauses.Connections.{Connection, InTurn, steps_of};

use crate::ScriptFault;
use crate::listener::Listener;
use crate::store::new_store;
use crate::texts::write_texts;
use devices::Watched;
use ssi_line::{End, serve};
use ssi_reads::Marks;
use ssi_store::Store;
use ssi_versions::Chains;
use std::alloc::Global;
use std::io::Write;

/// How a run over the connections of a socket ended.
#[derive(Clone, Copy, Debug, PartialEq, Eq)]
pub enum Served {
    /// `stop` was read and answered.
    Stopped,
    /// Accepting a connection failed, or 4294967295 connections were served.
    SocketFault,
}

/// Carries out the lines of the connections on a new store, as [`serve_socket`] does, and then writes the history of the
/// store and a certificate of it. They are written also if the socket has failed. Returns how the connections ended, and
/// whether both texts are written.
///
/// The history records the course of the store, and the auditor says yes to both texts.
pub fn run_socket<L: Listener, H: Write, C: Write>(
    alloc: Global,
    listener: &mut L,
    history: &mut Watched<H>,
    certificate: &mut Watched<C>,
) -> (Served, Result<(), ScriptFault>)
    ensures run { (turns : InTurn L.Reader.remaining L.Reader.is_failed L.Writer.contents L.accepts L.closes L.fails
        listener.old listener.new result.0) × AllMayFollow (New 1) (steps_of turns.connections)
        × LeavesTexts result.1 (course_after (New 1) (steps_of turns.connections)) H.contents history.old history.new
        C.contents certificate.old certificate.new }
    ensures history_fault { result.1 ≡ Err ScriptFault.History
        → (has_failed history.new ≡ true) × (certificate.new ≡ certificate.old) }
    ensures certificate_fault { result.1 ≡ Err ScriptFault.Certificate → has_failed certificate.new ≡ true }
    ensures memory { result.1 ≡ Err ScriptFault.Memory
        → (history.new ≡ history.old) × (certificate.new ≡ certificate.old) }
{
    let mut store = new_store(alloc);
    let served = serve_socket(alloc, listener, &mut store);
    let written = write_texts(alloc, store, history, certificate);
    (served, written)
}

/// Accepts connections, one after the other, and carries out the lines of each on the store, as [`serve`] does. A
/// connection that ends without an answered `stop` is closed, and the next one is accepted. What its commands did stands: a
/// session outlives the connection that began it. `SocketFault` if accepting fails, or after 4294967295 connections.
pub fn serve_socket<L: Listener, C: Chains + Drop, M: Marks + Drop>(
    alloc: Global,
    listener: &mut L,
    store: &mut Store<C, M>,
) -> Served
    ensures { (turns : InTurn L.Reader.remaining L.Reader.is_failed L.Writer.contents L.accepts L.closes L.fails
        listener.old listener.new result)
        × WentOn (IsAt C.held M.marked) store.old (steps_of turns.connections) store.new }
{
    for _count in 0..u32::MAX {
        let Some(end) = serve_next(alloc, listener, store) else {
            return Served::SocketFault;
        };
        if is_stop(end) {
            return Served::Stopped;
        }
    }
    Served::SocketFault
}

/// Accepts a connection, serves it, and closes it. Returns how it ended; `None` if none could be accepted.
fn serve_next<L: Listener, C: Chains + Drop, M: Marks + Drop>(
    alloc: Global,
    listener: &mut L,
    store: &mut Store<C, M>,
) -> Option<End>
    ensures served { IfSome result (λ end. (connection : Connection L.Reader.remaining L.Reader.is_failed L.Writer.contents
        L.accepts L.closes) × (connection.end ≡ end) × (connection.before ≡ listener.old) × (listener.new ≡ connection.after)
        × WentOn (IsAt C.held M.marked) store.old connection.steps store.new) }
    ensures failed { result ≡ None → L.fails listener.old listener.new × (store.new ≡ store.old) }
{
    let Ok((mut reader, mut writer)) = listener.accept() else {
        return None;
    };
    let end = serve(alloc, &mut reader, &mut writer, store);
    listener.close(reader, writer);
    Some(end)
}

/// Returns whether a connection that ended so ends the run.
fn is_stop(end: End) -> bool
    ensures stops { result ≡ true → end ≡ End.Stop }
    ensures goes_on { result ≡ false → end ≢ End.Stop }
{
    match end {
        End::Stop => true,
        End::Eof | End::ReadFault | End::WriteFault => false,
    }
}
