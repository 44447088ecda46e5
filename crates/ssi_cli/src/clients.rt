//! The connections that are served together.

ghost use Rattle.std.specs.Prelude.{true, ◌≡◌, [], false, is_some};
ghost use Rattle.ssi_store.specs.Mirror.Stores.{IsAt};
ghost use Rattle.ssi_hub.specs.Mirror.{is_stopped, Stands};
ghost use Rattle.ssi_cli.specs.Clauses.Serving.{aborts};
ghost use Rattle.ssi_cli.specs.Machinery.HubRuns.{WasCalled, HasRun};

use crate::AtClose;
use crate::parting::part;
use crate::peers::{MOST_CLIENTS, Peers};
use crate::turns::turn;
use crate::users::{Users, users_for};
use mio::event::Event;
use mio::net::{UnixListener, UnixStream};
use mio::{Events, Registry};
use ssi_hub::Hub;
use ssi_reads::Marks;
use ssi_store::Store;
use ssi_versions::Chains;
use std::alloc::Global;
use std::time::Duration;

/// All connections, with the hub that knows what each has sent.
#[derive(Drop)]
pub(crate) struct Clients {
    hub: Hub,
    peers: Peers,
    // kept if sessions are aborted when a connection is closed
    users: Option<Users>,
}

impl Clients {
    pub(crate) fn new(alloc: Global, at_close: AtClose) -> Clients
        ensures none { Stands true result.hub [] }
        ensures goes_on { is_stopped result.hub ≡ false }
        ensures table { is_some result.users ≡ aborts at_close }
    {
        Clients {
            hub: Hub::new(alloc),
            peers: Peers::new(alloc),
            users: users_for(alloc, at_close),
        }
    }

    /// Returns whether `stop` was carried out.
    pub(crate) fn is_stopped(&self) -> bool
        ensures { result ≡ is_stopped self.now.hub }
    {
        self.hub.is_stopped()
    }

    /// Returns how long to wait for events; without a limit if nothing else is to be done.
    pub(crate) fn longest_wait(&self) -> Option<Duration> {
        self.peers.longest_wait()
    }

    /// Accepts the connections that wait, as far as there is room.
    pub(crate) fn accept(&mut self, alloc: Global, listener: &UnixListener, registry: &Registry)
        ensures called { WasCalled self.old.hub self.new.hub }
        ensures table { is_some self.new.users ≡ is_some self.old.users }
    {
        self.peers.begin_accepting();
        for _ in 0..MOST_CLIENTS {
            let Some(stream) = self.peers.accept(listener) else {
                return;
            };
            self.add(alloc, stream, registry);
        }
    }

    /// Adds a connection, or closes it if memory runs out.
    fn add(&mut self, alloc: Global, stream: UnixStream, registry: &Registry)
        ensures called { WasCalled self.old.hub self.new.hub }
        ensures table { is_some self.new.users ≡ is_some self.old.users }
    {
        let Ok(token) = self.hub.opened(alloc) else {
            return;
        };
        if !self.peers.add(token, stream, registry) {
            self.hub.closed(token);
        }
    }

    /// Gives each connection that has more to do its turn, and then each of which the system has reported something, in this
    /// order: who was ready first is served first.
    pub(crate) fn round<C: Chains + Drop, M: Marks + Drop>(
        &mut self,
        alloc: Global,
        events: &Events,
        store: &mut Store<C, M>,
        room: &mut [u8],
    )
        ensures run { HasRun (IsAt C.held M.marked) self.old.hub store.old self.new.hub store.new }
        ensures table { is_some self.new.users ≡ is_some self.old.users }
    {
        self.go_on(alloc, store, room);
        self.take_all(alloc, events, store, room);
    }

    fn go_on<C: Chains + Drop, M: Marks + Drop>(
        &mut self,
        alloc: Global,
        store: &mut Store<C, M>,
        room: &mut [u8],
    )
        ensures run { HasRun (IsAt C.held M.marked) self.old.hub store.old self.new.hub store.new }
        ensures table { is_some self.new.users ≡ is_some self.old.users }
    {
        if !self.peers.is_busy() {
            return;
        }
        self.peers.begin_round();
        // One that is closed gives its place to the last one, which has had its turn.
        for index in (0..self.peers.len()).rev() {
            self.turn_at(alloc, index, store, room);
        }
    }

    fn take_all<C: Chains + Drop, M: Marks + Drop>(
        &mut self,
        alloc: Global,
        events: &Events,
        store: &mut Store<C, M>,
        room: &mut [u8],
    )
        ensures run { HasRun (IsAt C.held M.marked) self.old.hub store.old self.new.hub store.new }
        ensures table { is_some self.new.users ≡ is_some self.old.users }
    {
        for event in events.iter() {
            self.take(alloc, event, store, room);
        }
    }

    fn take<C: Chains + Drop, M: Marks + Drop>(
        &mut self,
        alloc: Global,
        event: &Event,
        store: &mut Store<C, M>,
        room: &mut [u8],
    )
        ensures run { HasRun (IsAt C.held M.marked) self.old.hub store.old self.new.hub store.new }
        ensures table { is_some self.new.users ≡ is_some self.old.users }
    {
        let Some(index) = self.peers.note(event) else {
            return;
        };
        self.turn_at(alloc, index, store, room);
    }

    fn turn_at<C: Chains + Drop, M: Marks + Drop>(
        &mut self,
        alloc: Global,
        index: usize,
        store: &mut Store<C, M>,
        room: &mut [u8],
    )
        ensures run { HasRun (IsAt C.held M.marked) self.old.hub store.old self.new.hub store.new }
        ensures table { is_some self.new.users ≡ is_some self.old.users }
    {
        let Some(token) = self.peers.token_at(index) else {
            return;
        };
        let Some(peer) = self.peers.peer_at(index) else {
            return;
        };
        if !peer.is_due() {
            return;
        }
        let _ = turn(
            alloc,
            token,
            peer,
            &mut self.users,
            &mut self.hub,
            store,
            room,
        );
        let due = peer.is_due();
        let open = self.hub.is_open(token);
        self.peers.end_turn(index, due, open);
    }

    /// Ends all connections, since the run was stopped: writes what they take at once, and closes them.
    pub(crate) fn part_all(&mut self)
        ensures called { WasCalled self.old.hub self.new.hub }
        ensures table { is_some self.new.users ≡ is_some self.old.users }
    {
        for index in 0..self.peers.len() {
            self.part_at(index);
        }
    }

    fn part_at(&mut self, index: usize)
        ensures called { WasCalled self.old.hub self.new.hub }
        ensures table { is_some self.new.users ≡ is_some self.old.users }
    {
        let Some(token) = self.peers.token_at(index) else {
            return;
        };
        let Some(peer) = self.peers.peer_at(index) else {
            return;
        };
        let _ = part(token, peer, &mut self.hub);
    }
}
