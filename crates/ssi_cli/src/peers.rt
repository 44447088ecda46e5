//! The sockets of connections, by the tokens of these.

ghost use Rattle.std.specs.Prelude.{◌≡◌, ◌||◌, true, false, IsSome};
ghost use Rattle.ssi_cli.specs.Mirror.{is_busy};

use crate::peer::{Peer, Ready};
use crate::stream::Stream;
use indexmap::IndexMap;
use mio::event::Event;
use mio::net::{UnixListener, UnixStream};
use mio::{Events, Interest, Poll, Registry, Token};
use std::alloc::Global;
use std::io;
use std::io::ErrorKind;
use std::time::Duration;

/// The most bytes of one read.
pub const ROOM: usize = 16384;

/// The most events of one wait.
const MOST_EVENTS: usize = 256;

/// The token of the listener; no connection has it.
const LISTENER: Token = Token(usize::MAX);

/// The most connections that are open at a time.
pub const MOST_CLIENTS: usize = 1024;

/// After this many milliseconds it is tried again to accept a connection.
const ACCEPT_AGAIN: u64 = 100;

/// The sockets of connections, and whether there is more to do for them or for the listener.
#[derive(Drop)]
pub struct Peers {
    peers: IndexMap<u64, Peer<UnixStream>>,
    // whether connections may wait in the listener
    may_accept: bool,
    // whether the last one couldn't be accepted
    accept_failed: bool,
    // whether a connection has more to do at once
    is_busy: bool,
}

impl Peers {
    /// Makes an empty table, which takes no memory.
    pub fn new(alloc: Global) -> Peers
        ensures { is_busy result ≡ false }
    {
        Peers {
            peers: IndexMap::new(alloc),
            may_accept: false,
            accept_failed: false,
            is_busy: false,
        }
    }

    /// Returns how many connections there are. They have the indices below that.
    pub fn len(&self) -> usize {
        self.peers.len()
    }

    /// Returns the token of the connection at this index.
    pub fn token_at(&self, index: usize) -> Option<u64> {
        let (token, _) = self.peers.get_index(index)?;
        Some(*token)
    }

    /// Returns the connection at this index.
    pub fn peer_at(&mut self, index: usize) -> Option<&mut Peer<UnixStream>> {
        self.peers.get_index_mut(index)
    }

    /// Returns how long to wait for events; without a limit if nothing else is to be done.
    pub fn longest_wait(&self) -> Option<Duration>
        ensures { is_busy self.now ≡ true → IsSome result }
    {
        if self.is_busy {
            return Some(Duration::ZERO);
        }
        if !self.wants_accept() {
            return None;
        }
        let wait = if self.accept_failed { ACCEPT_AGAIN } else { 0 };
        Some(Duration::from_millis(wait))
    }

    fn wants_accept(&self) -> bool {
        self.may_accept && self.peers.len() < MOST_CLIENTS
    }

    /// Begins to accept connections: a failure from before counts no more.
    pub fn begin_accepting(&mut self) {
        self.accept_failed = false;
    }

    /// Accepts a connection that waits. `None` if none does, if there is no room for it, or if it can't be accepted.
    pub fn accept(&mut self, listener: &UnixListener) -> Option<UnixStream> {
        if !self.wants_accept() {
            return None;
        }
        match listener.accept() {
            Ok((stream, _)) => Some(stream),
            Err(e) => {
                self.note_refusal(e.kind());
                None
            }
        }
    }

    // A connection that was given up while it waited is no failure.
    fn note_refusal(&mut self, kind: ErrorKind) {
        match kind {
            ErrorKind::WouldBlock => self.may_accept = false,
            ErrorKind::Interrupted | ErrorKind::ConnectionAborted => {}
            _ => self.accept_failed = true,
        }
    }

    /// Adds a connection by its token. Returns whether it is there: otherwise its stream is closed, since the system or memory
    /// has no room for it.
    pub fn add(&mut self, token: u64, mut stream: UnixStream, registry: &Registry) -> bool {
        let Ok(()) = register(&mut stream, registry, token) else {
            return false;
        };
        self.peers.insert(token, Peer::new(stream)).is_ok()
    }

    /// Returns whether a connection has more to do at once.
    pub fn is_busy(&self) -> bool
        ensures { result ≡ is_busy self.now }
    {
        self.is_busy
    }

    /// Begins a round: that a connection had more to do counts no more.
    pub fn begin_round(&mut self)
        ensures { is_busy self.new ≡ false }
    {
        self.is_busy = false;
    }

    /// Notes what the system has reported. Returns the index of the connection, if it is one of these and has a turn by that:
    /// one that had more to do already has its turn by itself.
    pub fn note(&mut self, event: &Event) -> Option<usize> {
        if event.token() == LISTENER {
            self.may_accept = true;
            return None;
        }
        note(event, &mut self.peers)
    }

    /// Ends the turn of the connection at this index. `due` says whether it has more to do at once, and `open` whether it is
    /// open: it is removed if it is neither, and the last one has its index then.
    pub fn end_turn(&mut self, index: usize, due: bool, open: bool)
        ensures { is_busy self.new ≡ (is_busy self.old || due) }
    {
        self.is_busy = self.is_busy || due;
        if !due && !open {
            let _ = self.peers.swap_remove_index(index);
        }
    }
}

/// Waits for connections from now on. Returns room for the events of a wait; `None` if there is no memory for them, or if the
/// listener can't be waited for.
pub fn listen(alloc: Global, poll: &Poll, listener: &mut UnixListener) -> Option<Events> {
    let events = Events::with_capacity(alloc, MOST_EVENTS).ok()?;
    poll.registry()
        .register(listener, LISTENER, Interest::READABLE)
        .ok()?;
    Some(events)
}

/// Has the system report of the connection by its token.
fn register(stream: &mut UnixStream, registry: &Registry, token: u64) -> io::Result<()> {
    registry.register(
        stream,
        Token(token as usize),
        Interest::READABLE | Interest::WRITABLE,
    )
}

/// Notes what the system has reported of a connection. Returns its index, if it is there and has a turn by that.
fn note<S: Stream>(event: &Event, peers: &mut IndexMap<u64, Peer<S>>) -> Option<usize> {
    let index = peers.get_index_of(&(event.token().0 as u64))?;
    let peer = peers.get_index_mut(index)?;
    let had_more = peer.is_due();
    peer.note(ready(event));
    if had_more {
        return None;
    }
    Some(index)
}

/// Returns what the event says of its connection.
fn ready(event: &Event) -> Ready {
    if event.is_read_closed() || event.is_error() {
        return Ready::HangsUp;
    }
    if event.is_readable() {
        return Ready::Readable;
    }
    Ready::Writable
}
