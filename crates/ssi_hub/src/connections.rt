//! The open connections, by their tokens.

ghost use Rattle.std.specs.Prelude.{◌≡◌, ℕ, true, None, Some, OnOk, OnErr, IfSome, IfNone, MatchOption, if◌then◌else◌};
ghost use Rattle.std.specs.Option.{option_map, option_copied};
ghost use Rattle.ssi_hub.specs.Clauses.Buffers.{Buffers, no_bytes, with_received, with_written};
ghost use Rattle.ssi_hub.specs.Clauses.Outcomes.{stops_by, lost_by};
ghost use Rattle.ssi_hub.specs.Clauses.Stepping.{is_ready};
ghost use Rattle.ssi_hub.specs.Machinery.Outcomes.{StepsOut};
ghost use Rattle.ssi_hub.specs.Machinery.Changes.{buffers_in, Changes, AreSame, CarriesOut, RanAt, RanNothing, SteppedAt, NotStepped};

use crate::{CarriedLine, Connection, Outcome};
use indexmap::IndexMap;
use ssi_line::ProtocolStore;
use std::alloc::{AllocError, Global};

/// The open connections.
#[derive(Drop)]
pub(crate) struct Connections {
    by_token: IndexMap<u64, Connection>,
}

impl Connections {
    /// Makes an empty table.
    pub(crate) fn new(alloc: Global) -> Connections
        ensures { (t : ℕ) → buffers_in result t ≡ None }
    {
        Connections {
            by_token: IndexMap::new(alloc),
        }
    }

    /// Adds a connection with this token. `AllocError` if memory runs out: then all is as before.
    pub(crate) fn add(&mut self, alloc: Global, token: u64) -> Result<(), AllocError>
        ensures ok { OnOk result (Changes (buffers_in self.old) (buffers_in self.new) token (Some no_bytes)) }
        ensures err { OnErr result (AreSame (buffers_in self.old) (buffers_in self.new)) }
    {
        match self.by_token.insert(token, Connection::new(alloc)) {
            Ok(_) => Ok(()),
            Err(_) => Err(AllocError),
        }
    }

    /// Returns the connection, if it is open.
    pub(crate) fn get(&self, token: u64) -> Option<&Connection>
        ensures { option_copied result ≡ buffers_in self.now token }
    {
        self.by_token.get(&token)
    }

    /// Adds bytes that the connection sent, if it is open. `AllocError` if memory runs out: then all is as before.
    pub(crate) fn received(&mut self, token: u64, bytes: &[u8]) -> Result<(), AllocError>
        ensures ok { OnOk result (Changes (buffers_in self.old) (buffers_in self.new) token
            (option_map (with_received bytes.now) (buffers_in self.old token))) }
        ensures err { OnErr result (AreSame (buffers_in self.old) (buffers_in self.new)) }
    {
        match self.by_token.get_mut(&token) {
            Some(connection) => connection.received(bytes),
            None => Ok(()),
        }
    }

    /// The first `count` bytes that are to be written to the connection are written, if it is open.
    pub(crate) fn written(&mut self, token: u64, count: usize)
        ensures { Changes (buffers_in self.old) (buffers_in self.new) token
            (option_map (with_written count) (buffers_in self.old token)) }
    {
        if let Some(connection) = self.by_token.get_mut(&token) {
            connection.written(count);
        }
    }

    /// Carries out up to `most` lines of the connection, as [`Connection::run`] does, and removes it if a reply is lost. `None`
    /// if it is not open.
    pub(crate) fn run<S: ProtocolStore>(
        &mut self,
        alloc: Global,
        token: u64,
        store: &mut S,
        most: usize,
    ) -> Option<Outcome>
        ensures { MatchOption result (RanNothing (buffers_in self.old) token store.old (buffers_in self.new) store.new)
            (λ o. RanAt S.keeps S.is_at (buffers_in self.old) token store.old (stops_by o) (lost_by o) most
            (buffers_in self.new) store.new) }
    {
        let Some(outcome) = self.carry_out(alloc, token, store, most) else {
            return None;
        };
        self.remove_lost(token, outcome);
        Some(outcome)
    }

    fn carry_out<S: ProtocolStore>(
        &mut self,
        alloc: Global,
        token: u64,
        store: &mut S,
        most: usize,
    ) -> Option<Outcome>
        ensures none { IfNone result (RanNothing (buffers_in self.old) token store.old (buffers_in self.new) store.new) }
        ensures some { IfSome result (λ o. (old : Buffers) × (now : Buffers) × (buffers_in self.old token ≡ Some old)
            × Changes (buffers_in self.old) (buffers_in self.new) token (Some now)
            × CarriesOut S.keeps S.is_at old store.old (stops_by o) (lost_by o) most now store.new) }
    {
        let Some(connection) = self.by_token.get_mut(&token) else {
            return None;
        };
        Some(connection.run(alloc, store, most))
    }

    /// Carries out the first line that waits of the connection, as [`Connection::step`] does, and removes it if the reply is
    /// lost. `None` if it isn't open, or no line of it may be carried out.
    pub(crate) fn step<S: ProtocolStore>(
        &mut self,
        alloc: Global,
        token: u64,
        store: &mut S,
    ) -> Option<CarriedLine>
        ensures { MatchOption result (NotStepped (buffers_in self.old) token store.old (buffers_in self.new) store.new)
            (λ carried. SteppedAt S.keeps S.is_at (buffers_in self.old) token store.old carried (buffers_in self.new)
            store.new) }
    {
        let Some(carried) = self.step_open(alloc, token, store) else {
            return None;
        };
        self.remove_lost(token, carried.outcome);
        Some(carried)
    }

    fn step_open<S: ProtocolStore>(
        &mut self,
        alloc: Global,
        token: u64,
        store: &mut S,
    ) -> Option<CarriedLine>
        ensures none { IfNone result (NotStepped (buffers_in self.old) token store.old (buffers_in self.new) store.new) }
        ensures some { IfSome result (λ carried. (old : Buffers) × (now : Buffers) × (buffers_in self.old token ≡ Some old)
            × (is_ready old ≡ true) × Changes (buffers_in self.old) (buffers_in self.new) token (Some now)
            × StepsOut S.keeps S.is_at old store.old carried now store.new) }
    {
        let Some(connection) = self.by_token.get_mut(&token) else {
            return None;
        };
        connection.step(alloc, store)
    }

    /// Removes the connection if its reply is lost.
    fn remove_lost(&mut self, token: u64, outcome: Outcome)
        ensures { Changes (buffers_in self.old) (buffers_in self.new) token
            (if lost_by outcome then None else buffers_in self.old token) }
    {
        if outcome.is_lost() {
            self.remove(token);
        }
    }

    /// Removes the connection, if it is open.
    pub(crate) fn remove(&mut self, token: u64)
        ensures { Changes (buffers_in self.old) (buffers_in self.new) token None }
    {
        let _ = self.by_token.swap_remove(&token);
    }
}
