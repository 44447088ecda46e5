//! The connections that use a server, and their sockets.

ghost use Rattle.std.specs.Prelude.{◌≡◌, ◌<◌, ◌≤◌, ◌⊎◌, ◌+◌, ◌-◌, ◌/◌, ◌^◌, ℕ, List, [], None, Some, true, false, is_some, min, nat_lt, IsTrue, OnOk, OnErr, IfOk, IfErr};
ghost use Rattle.std.specs.Option.{option_map};
ghost use Rattle.adya_keys.specs.Meaning.Keys.{Bytes};
ghost use Rattle.ssi_store.specs.Meaning.Courses.{Course, txn_in};
ghost use Rattle.ssi_hub.specs.Clauses.Calls.{Call};
ghost use Rattle.ssi_hub.specs.Mirror.{buffers_of, is_stopped};
ghost use Rattle.ssi_log.specs.Machinery.Standing.{end_of};
ghost use Rattle.ssi_durable.specs.Clauses.Journals.{HasAll, is_full};
ghost use Rattle.ssi_durable.specs.Clauses.Recovery.{IsReplayed};
ghost use Rattle.ssi_durable.specs.Clauses.Serving.{Began, begun_next};
ghost use Rattle.ssi_durable.specs.Mirror.Servers.{Serves, hub_of, log_of, store_of, is_settled, has_failed, gives_early, to_give, unsent_of};
ghost use Rattle.ssi_cli.specs.Clauses.Serving.{aborts};
ghost use Rattle.ssi_cli.specs.Clauses.Turns.{called};
ghost use Rattle.ssi_data.specs.Clauses.Aborting.{HasAbortedOpen};
ghost use Rattle.ssi_data.specs.Clauses.Calls.{IsCollection, Makes};
ghost use Rattle.ssi_data.specs.Clauses.Idling.{HasAbortedIdle, IsIdleSince};
ghost use Rattle.ssi_data.specs.Clauses.Rotations.{due_len};
ghost use Rattle.ssi_data.specs.Clauses.Rounds.{HasDone};

use crate::aborting::abort_open;
use crate::collecting::{Upkeep, tidy};
use crate::idle::{Idle, abort_idle};
use crate::leaving::abort_all;
use crate::segment::Next;
use crate::tables::Tables;
use crate::turns::{carry_out, receive, reply, send};
use mio::event::Event;
use mio::net::{UnixListener, UnixStream};
use mio::{Events, Registry};
use sqlite_disk::Disk;
use ssi_cli::laws::{aborts_are_deeds, calls_are_deeds};
use ssi_cli::{AtClose, MOST_CLIENTS, Peers, Users, users_for};
use ssi_durable::Server;
use ssi_line::ProtocolStore;
use ssi_log::LogFault;
use std::alloc::Global;
use std::io;
use std::time::Duration;

/// After this many seconds it is tried again to have the file of the log grow.
const ROOM_AGAIN: u64 = 1;

/// In so many rounds, one after the other, the sync for a commit is put off at most, while more comes of the connections.
const MOST_PUT_OFF: u32 = 16;

/// After this many seconds without an event it is looked which sessions had no command.
const IDLE_AGAIN: u64 = 1;

/// A server, with the sockets of its connections.
#[derive(Drop)]
pub struct Clients<T: Drop, D: Disk + Drop> {
    server: Server<T, D>,
    peers: Peers,
    tables: Tables,
    // for how long a session may have no command, if there is a bound
    idle: Option<Idle>,
    // why the file of the log couldn't grow in the last round
    full: Option<io::Error>,
    // whether that was said
    is_told: bool,
    // a log that is longer is left for that of the next segment, unless its loads are more than half of it
    most: usize,
    // the log is left once it is longer
    due: usize,
    // what was found when versions were counted last
    upkeep: Upkeep,
    // in how many rounds the sync was put off that a reply waits for
    put_off: u32,
    // how long the log was at the last sync that was waited for
    synced: usize,
}

impl<T: ProtocolStore + Drop, D: Disk + Drop> Clients<T, D> {
    ghost use Rattle.ssi_data.specs.Mirror.{GoOn, due_of, limit_of, most_of, put_off_of, second_of, seconds_of, server_of, times_of, users_of};

    /// Those of a server that has no connection yet. Sessions that had no command for longer than `idle` says are aborted; one that
    /// had none yet isn't, also if it has a transaction. Its segment is left once its log has more than `most` bytes, and more than
    /// twice as many as its loads, which have `loaded` bytes.
    pub fn new(
        alloc: Global,
        server: Server<T, D>,
        at_close: AtClose,
        idle: Option<Idle>,
        most: usize,
        loaded: usize,
    ) -> Clients<T, D>
        ensures server { server_of result ≡ server }
        ensures table { is_some (users_of result) ≡ aborts at_close }
        ensures times { is_some (times_of result) ≡ is_some idle }
        ensures limit { limit_of result ≡ option_map seconds_of idle }
        ensures due { due_of result ≡ due_len most loaded }
        // What the server has served are its first deeds.
        ensures done { (n : ℕ) (began : Began) (calls : List Call) → Serves T.keeps T.is_at n began server calls
            → HasDone T.keeps T.is_at n began (users_of result) (server_of result) (called calls []) }
    {
        Clients {
            server,
            peers: Peers::new(alloc),
            tables: Tables {
                users: users_for(alloc, at_close),
                times: times_for(alloc, &idle),
                second: 0,
            },
            idle,
            full: None,
            is_told: false,
            most,
            due: due_len(most, loaded),
            upkeep: Upkeep {
                commits: 0,
                versions: 0,
            },
            put_off: 0,
            synced: 0,
        }
    }

    /// Returns whether the log is so long that the segment is to be left.
    pub(crate) fn is_due(&self) -> bool
        ensures { result ≡ nat_lt (due_of self.now) (end_of (log_of (server_of self.now))) }
    {
        self.server.log_len() > self.due
    }

    pub(crate) fn server(&self) -> &Server<T, D>
        ensures { result.now ≡ server_of self.now }
    {
        &self.server
    }

    /// Aborts each session that has a transaction, and waits until this is on the disk. Returns whether no session has one then.
    pub(crate) fn abort_open(&mut self, alloc: Global) -> Result<bool, LogFault>
        ensures aborts { HasAbortedOpen T.keeps T.is_at (server_of self.old) (server_of self.new) }
        ensures settled { OnOk result (is_settled (server_of self.new) ≡ true) }
        ensures idle { IfOk result (λ all. IsTrue all → (c : Course) → T.is_at (store_of (server_of self.new)) c
            → (s : Bytes) → txn_in s c ≡ None) }
        ensures users { users_of self.new ≡ users_of self.old }
        ensures fault { IfErr result (λ fault. is_full fault ≡ false → has_failed (server_of self.new) ≡ true) }
    {
        abort_open(alloc, &mut self.server)
    }

    /// Begins the next segment.
    pub(crate) fn begin(&mut self, next: Next<T, D>)
        requires { is_settled (server_of self.old) ≡ true }
        ensures serves { (n number : ℕ) (began : Began) (lines : List Bytes) (calls : List Call)
            → Serves T.keeps T.is_at n began (server_of self.old) calls
            → IsReplayed T.is_at number lines next.store → HasAll next.log lines
            → Serves T.keeps T.is_at number (begun_next began lines calls) (server_of self.new) calls }
        ensures users { users_of self.new ≡ users_of self.old }
        ensures due { due_of self.new ≡ due_len self.old.most next.loaded }
    {
        self.server.rotate(next.store, next.log);
        self.due = due_len(self.most, next.loaded);
        self.upkeep.versions = 0;
    }

    /// The segment is to be left later: once its log has grown by a quarter of what it may have at most.
    pub fn put_off(&mut self)
        ensures server { server_of self.new ≡ server_of self.old }
        ensures users { users_of self.new ≡ users_of self.old }
        ensures due { due_of self.new ≡ min (end_of (log_of (server_of self.old)) + most_of self.old / 4) (2 ^ 64 - 1) }
    {
        self.due = self.server.log_len().saturating_add(self.most / 4);
    }

    /// Returns whether `stop` was carried out.
    pub(crate) fn is_stopped(&self) -> bool
        ensures { result ≡ is_stopped (hub_of (server_of self.now)) }
    {
        self.server.is_stopped()
    }

    /// Returns how long to wait for events; without a limit if nothing else is to be done.
    pub(crate) fn longest_wait(&self) -> Option<Duration> {
        if self.server.is_waiting() {
            return Some(Duration::ZERO);
        }
        if self.full.is_some() {
            return Some(Duration::from_secs(ROOM_AGAIN));
        }
        match self.peers.longest_wait() {
            None if self.idle.is_some() => Some(Duration::from_secs(IDLE_AGAIN)),
            wait => wait,
        }
    }

    /// Returns why the file of the log can't grow, if that wasn't said before.
    pub(crate) fn news(&mut self) -> Option<io::Error>
        ensures server { server_of self.new ≡ server_of self.old }
        ensures users { users_of self.new ≡ users_of self.old }
    {
        let full = self.full;
        if self.is_told && full.is_some() {
            return None;
        }
        self.is_told = full.is_some();
        full
    }

    /// Gives each connection a turn that has more to do, or of which the system has reported something. All lines that they
    /// sent are carried out, then these are put on the disk if a reply waits for that, and then the replies are written. Those that don't
    /// wait are written before.
    pub(crate) fn round(
        &mut self,
        alloc: Global,
        events: &Events,
        room: &mut [u8],
    ) -> Result<(), LogFault>
        ensures on { GoOn T.keeps T.is_at self.old self.new }
        ensures failed { OnErr result (has_failed (server_of self.new) ≡ true) }
    {
        self.full = None;
        self.go_on(alloc, room)?;
        self.take_all(alloc, events, room)?;
        self.release(events)?;
        self.reply_all();
        Ok(())
    }

    /// Sees to it that no reply waits for the disk: if some do then all lines that count are put on it, and the replies that don't wait
    /// are written before. If only `committed` waits then this is put off, for a few rounds, while more comes of the connections: so
    /// more commits share a sync.
    fn release(&mut self, events: &Events) -> Result<(), LogFault>
        ensures on { GoOn T.keeps T.is_at self.old self.new }
        ensures given { OnOk result (put_off_of self.new ≡ 0 → has_failed (server_of self.new) ≡ false → (t : ℕ)
            → to_give (server_of self.new) t ≡ unsent_of (buffers_of (hub_of (server_of self.new)) t)) }
        ensures synced { gives_early (server_of self.old) ≡ false → put_off_of self.new ≡ 0 }
        ensures rounds { (put_off_of self.new ≡ 0) ⊎ ((put_off_of self.new ≡ put_off_of self.old + 1) × (put_off_of self.old < 16)) }
        ensures failed { OnErr result (has_failed (server_of self.new) ≡ true) }
    {
        if !self.server.is_waiting() {
            self.put_off = 0;
            return Ok(());
        }
        if self.may_put_off(events) {
            self.put_off += 1;
            return Ok(());
        }
        self.write_early();
        let done = self.settle();
        self.put_off = 0;
        self.synced = self.server.log_len();
        done
    }

    /// Returns whether more may come at once that shares the sync: something came, and of some connection no reply waits. Nobody waits
    /// for more lines than fit into what is gathered before it is handed to the log.
    fn may_put_off(&self, events: &Events) -> bool
        ensures few { result ≡ true → put_off_of self.now < 16 }
        ensures early { result ≡ true → gives_early (server_of self.now) ≡ true }
    {
        self.server.release().is_early()
            && self.put_off < MOST_PUT_OFF
            && !events.is_empty()
            && self.server.waiting() < self.peers.len()
            && self.server.log_len() == self.synced
    }

    /// Writes the replies that don't wait for the disk, if some do and others don't.
    fn write_early(&mut self)
        ensures on { GoOn T.keeps T.is_at self.old self.new }
    {
        if self.server.release().is_early() {
            self.write_all();
        }
    }

    /// Waits until all lines that count are on the disk.
    pub(crate) fn settle(&mut self) -> Result<(), LogFault>
        ensures on { GoOn T.keeps T.is_at self.old self.new }
        ensures settled { OnOk result (is_settled (server_of self.new) ≡ true) }
        ensures given { OnOk result ((t : ℕ)
            → to_give (server_of self.new) t ≡ unsent_of (buffers_of (hub_of (server_of self.new)) t)) }
        ensures stopped { is_stopped (hub_of (server_of self.new)) ≡ is_stopped (hub_of (server_of self.old)) }
        ensures failed { OnErr result (has_failed (server_of self.new) ≡ true) }
    {
        calls_are_deeds();
        self.server.settle()
    }

    fn go_on(&mut self, alloc: Global, room: &mut [u8]) -> Result<(), LogFault>
        ensures on { GoOn T.keeps T.is_at self.old self.new }
        ensures failed { OnErr result (has_failed (server_of self.new) ≡ true) }
    {
        if !self.peers.is_busy() {
            return Ok(());
        }
        for index in 0..self.peers.len() {
            self.take_at(alloc, index, room)?;
        }
        Ok(())
    }

    fn take_all(&mut self, alloc: Global, events: &Events, room: &mut [u8]) -> Result<(), LogFault>
        ensures on { GoOn T.keeps T.is_at self.old self.new }
        ensures failed { OnErr result (has_failed (server_of self.new) ≡ true) }
    {
        for event in events.iter() {
            self.take(alloc, event, room)?;
        }
        Ok(())
    }

    fn take(&mut self, alloc: Global, event: &Event, room: &mut [u8]) -> Result<(), LogFault>
        ensures on { GoOn T.keeps T.is_at self.old self.new }
        ensures failed { OnErr result (has_failed (server_of self.new) ≡ true) }
    {
        match self.peers.note(event) {
            Some(index) => self.take_at(alloc, index, room),
            None => Ok(()),
        }
    }

    /// Reads from the connection, and carries out lines.
    fn take_at(&mut self, alloc: Global, index: usize, room: &mut [u8]) -> Result<(), LogFault>
        ensures on { GoOn T.keeps T.is_at self.old self.new }
        ensures failed { OnErr result (has_failed (server_of self.new) ≡ true) }
    {
        let Some(token) = self.peers.token_at(index) else {
            return Ok(());
        };
        let Some(peer) = self.peers.peer_at(index) else {
            return Ok(());
        };
        if !peer.is_due() {
            return Ok(());
        }
        let _ = receive(token, peer, &mut self.server, room);
        calls_are_deeds();
        let carried = carry_out(alloc, token, &mut self.tables, &mut self.server);
        self.unless_full(carried)
    }

    /// Notes that the file of the log can't grow; any other fault is returned.
    fn unless_full(&mut self, done: Result<(), LogFault>) -> Result<(), LogFault>
        ensures server { server_of self.new ≡ server_of self.old }
        ensures users { users_of self.new ≡ users_of self.old }
        ensures second { second_of self.new ≡ second_of self.old }
        ensures fault { IfErr result (λ fault. (done ≡ Err fault) × (is_full fault ≡ false)) }
    {
        match done {
            Err(LogFault::Full(why)) => {
                self.full = Some(why);
                Ok(())
            }
            done => done,
        }
    }

    /// Writes the replies to the connections that have a turn.
    fn reply_all(&mut self)
        ensures on { GoOn T.keeps T.is_at self.old self.new }
        ensures settled { is_settled (server_of self.new) ≡ is_settled (server_of self.old) }
    {
        for index in 0..self.peers.len() {
            self.reply_at(index);
        }
    }

    fn reply_at(&mut self, index: usize)
        ensures on { GoOn T.keeps T.is_at self.old self.new }
        ensures settled { is_settled (server_of self.new) ≡ is_settled (server_of self.old) }
    {
        let Some(token) = self.peers.token_at(index) else {
            return;
        };
        let Some(peer) = self.peers.peer_at(index) else {
            return;
        };
        if !peer.is_due() {
            return;
        }
        let _ = reply(token, peer, &mut self.server);
        calls_are_deeds();
        if self.put_off > 0 && self.server.wants_write(token) {
            // it is written once the sync comes
            peer.set_due(true);
        }
        if !self.server.is_open(token) {
            // its turn ends once it is removed
            peer.set_due(true);
        }
    }

    /// Ends the turns, and removes the connections that are closed, once their sessions are aborted.
    pub(crate) fn end_all(&mut self, alloc: Global) -> Result<(), LogFault>
        ensures on { GoOn T.keeps T.is_at self.old self.new }
        ensures failed { OnErr result (has_failed (server_of self.new) ≡ true) }
    {
        self.peers.begin_round();
        // One that is removed gives its place to the last one, whose turn has ended.
        for index in (0..self.peers.len()).rev() {
            self.end_at(alloc, index)?;
        }
        Ok(())
    }

    fn end_at(&mut self, alloc: Global, index: usize) -> Result<(), LogFault>
        ensures on { GoOn T.keeps T.is_at self.old self.new }
        ensures failed { OnErr result (has_failed (server_of self.new) ≡ true) }
    {
        let Some(token) = self.peers.token_at(index) else {
            return Ok(());
        };
        let Some(peer) = self.peers.peer_at(index) else {
            return Ok(());
        };
        if !peer.is_due() {
            return Ok(());
        }
        if self.server.is_open(token) {
            self.peers.end_turn(index, true, true);
            return Ok(());
        }
        self.remove(alloc, token, index)
    }

    /// Removes a connection that is closed, once its sessions are aborted.
    fn remove(&mut self, alloc: Global, token: u64, index: usize) -> Result<(), LogFault>
        requires { is_some (buffers_of (hub_of (server_of self.old)) token) ≡ false }
        ensures on { GoOn T.keeps T.is_at self.old self.new }
        ensures failed { OnErr result (has_failed (server_of self.new) ≡ true) }
    {
        aborts_are_deeds();
        match abort_all(alloc, token, &mut self.tables.users, &mut self.server) {
            Ok(done) => {
                self.peers.end_turn(index, !done, false);
                Ok(())
            }
            Err(fault) => {
                self.peers.end_turn(index, true, false);
                self.unless_full(Err(fault))
            }
        }
    }

    /// Looks which second it is, and aborts the sessions that had no command for longer than they may.
    pub(crate) fn end_idle(&mut self, rt: &HostRuntime) -> Result<(), LogFault>
        ensures on { GoOn T.keeps T.is_at self.old self.new }
        ensures aborts { (limit : ℕ) → limit_of self.old ≡ Some limit
            → HasAbortedIdle T.keeps T.is_at (IsIdleSince limit (second_of self.new) (times_of self.old))
            (users_of self.old) (users_of self.new) (server_of self.old) (server_of self.new) }
        ensures none { limit_of self.old ≡ None → self.new ≡ self.old }
        ensures failed { OnErr result (has_failed (server_of self.new) ≡ true) }
    {
        calls_are_deeds();
        let Some(idle) = &mut self.idle else {
            return Ok(());
        };
        self.tables.second = idle.second(rt, self.tables.second);
        let done = abort_idle(rt.alloc(), idle, &mut self.tables, &mut self.server);
        self.unless_full(done)
    }

    /// Has the store drop versions that nothing needs any more, if it is time for it.
    pub(crate) fn tidy(&mut self, alloc: Global) -> Result<(), LogFault>
        ensures on { GoOn T.keeps T.is_at self.old self.new }
        ensures tidied { Makes T.keeps T.is_at (server_of self.old) (server_of self.new) (λ calls made. IsCollection made calls) }
        ensures failed { OnErr result (has_failed (server_of self.new) ≡ true) }
    {
        calls_are_deeds();
        let done = tidy(alloc, &mut self.upkeep, &mut self.tables, &mut self.server);
        self.unless_full(done)
    }

    /// Writes to the connections what they take at once.
    pub(crate) fn write_all(&mut self)
        ensures on { GoOn T.keeps T.is_at self.old self.new }
        ensures stopped { is_stopped (hub_of (server_of self.new)) ≡ is_stopped (hub_of (server_of self.old)) }
        ensures settled { is_settled (server_of self.new) ≡ is_settled (server_of self.old) }
    {
        for index in 0..self.peers.len() {
            self.write_at(index);
        }
    }

    fn write_at(&mut self, index: usize)
        ensures on { GoOn T.keeps T.is_at self.old self.new }
        ensures stopped { is_stopped (hub_of (server_of self.new)) ≡ is_stopped (hub_of (server_of self.old)) }
        ensures settled { is_settled (server_of self.new) ≡ is_settled (server_of self.old) }
    {
        let Some(token) = self.peers.token_at(index) else {
            return;
        };
        let Some(peer) = self.peers.peer_at(index) else {
            return;
        };
        let _ = send(token, peer, &mut self.server);
        calls_are_deeds();
    }

    /// Accepts the connections that wait, as far as there is room.
    pub(crate) fn accept(&mut self, alloc: Global, listener: &UnixListener, registry: &Registry)
        ensures { GoOn T.keeps T.is_at self.old self.new }
    {
        self.peers.begin_accepting();
        for _ in 0..MOST_CLIENTS {
            let Some(stream) = self.peers.accept(listener) else {
                return;
            };
            self.add(alloc, stream, registry);
        }
    }

    /// Adds a connection, or closes it if memory runs out.
    fn add(&mut self, alloc: Global, stream: UnixStream, registry: &Registry)
        ensures { GoOn T.keeps T.is_at self.old self.new }
    {
        calls_are_deeds();
        let Ok(token) = self.server.opened(alloc) else {
            return;
        };
        if !self.peers.add(token, stream, registry) {
            self.server.closed(token);
        }
    }
}

/// Returns a table of when sessions had their last command, if there is a bound on that.
fn times_for(alloc: Global, idle: &Option<Idle>) -> Option<Users>
    ensures { is_some result ≡ is_some idle.now }
{
    match idle {
        Some(_) => Some(Users::new(alloc)),
        None => None,
    }
}

/// A log with these loads is left once it has more bytes.
fn due_len(most: usize, loaded: usize) -> usize
    ensures { result ≡ due_len most loaded }
{
    most.max(loaded.saturating_mul(2))
}
