//! The connections, and their calls.

ghost use Rattle.std.specs.Prelude.{◌≡◌, ◌≢◌, ◌+◌, ◌∷◌, ◌++◌, ◌⊎◌, ℕ, Bool, List, [], None, Some, true, false, is_some, IsSome, IfSome, IfNone, not, ◌&&◌, nat_le, nat_lt, ◌<◌, length, MatchOption, MatchResult, OnOk, OnErr, IfOk, is_err, IsOk, IsErr};
ghost use Rattle.std.specs.Option.{option_map};
ghost use Rattle.ssi_store.specs.Meaning.Courses.{Course};
ghost use Rattle.ssi_line.specs.Meaning.Steps.{Step};
ghost use Rattle.ssi_line.specs.Clauses.Ends.{WentOn};
ghost use Rattle.adya_line.specs.Meaning.Lines.{IsPlain};
ghost use Rattle.ssi_hub.specs.Clauses.Clipping.{clipped, has_line};
ghost use Rattle.ssi_hub.specs.Clauses.Buffers.{Buffers, no_bytes, with_received, with_written, first_unsent};
ghost use Rattle.ssi_hub.specs.Clauses.Runs.{CarriedOut, IsEnough, IsTaken, left_by};
ghost use Rattle.ssi_hub.specs.Clauses.Outcomes.{stops_by, lost_by};
ghost use Rattle.ssi_hub.specs.Clauses.Stepping.{may_step, IsLineStep};
ghost use Rattle.ssi_hub.specs.Clauses.Calls.{Call, Opened, Received, Wrote, Closed, with_call, with_run, all_steps};
ghost use Rattle.ssi_hub.specs.Machinery.Changes.{RanAt, SteppedAt};
ghost use Rattle.ssi_hub.specs.Mirror.{buffers_of, next_token, is_stopped, Changed, IsSame, Stands, Serves};

use crate::{CarriedLine, Connections};
use ssi_line::ProtocolStore;
use std::alloc::{AllocError, Global};

/// Connections that use one store at once.
#[derive(Drop)]
pub struct Hub {
    connections: Connections,
    next: u64,
    stopped: bool,
}

impl Hub {
    /// Makes a hub with no connection.
    pub fn new(alloc: Global) -> Hub
        ensures empty { (t : ℕ) → buffers_of result t ≡ None }
        ensures next { next_token result ≡ 0 }
        ensures goes_on { is_stopped result ≡ false }
        ensures stands { (keeps : Bool) → Stands keeps result [] }
    {
        Hub {
            connections: Connections::new(alloc),
            next: 0,
            stopped: false,
        }
    }

    /// Opens a connection, and returns its token: tokens are counted up, so none is used again. `AllocError` if memory
    /// runs out, or after 2^64 - 1 connections; then nothing has changed.
    pub fn opened(&mut self, alloc: Global) -> Result<u64, AllocError>
        ensures token { IfOk result (λ t. t ≡ next_token self.old) }
        ensures next { OnOk result (next_token self.new ≡ next_token self.old + 1) }
        ensures own { IfOk result (λ t. buffers_of self.new t ≡ Some no_bytes) }
        ensures others { IfOk result (λ t. (u : ℕ) → u ≢ t → buffers_of self.new u ≡ buffers_of self.old u) }
        ensures stopped { is_stopped self.new ≡ is_stopped self.old }
        ensures err { OnErr result (IsSame self.old self.new) }
        ensures stands { (keeps : Bool) (calls : List Call) → Stands keeps self.old calls
            → MatchResult result (λ t. Stands keeps self.new (Opened t ∷ calls)) (λ _. Stands keeps self.new calls) }
    {
        let token = self.next;
        let Some(next) = token.checked_add(1) else {
            return Err(AllocError);
        };
        let Ok(()) = self.connections.add(alloc, token) else {
            return Err(AllocError);
        };
        self.next = next;
        Ok(token)
    }

    /// The connection has sent these bytes. They wait until [`run`](Hub::run) carries them out, and take memory until then;
    /// of each line 4097 bytes are kept. `AllocError` if memory runs out; then nothing has changed.
    pub fn received(&mut self, token: u64, bytes: &[u8]) -> Result<(), AllocError>
        ensures ok { OnOk result (Changed self.old self.new token
            (option_map (with_received bytes.now) (buffers_of self.old token))) }
        ensures err { OnErr result (IsSame self.old self.new) }
        ensures stands { (keeps : Bool) (calls : List Call) → Stands keeps self.old calls
            → MatchResult result (λ _. Stands keeps self.new (with_call (Received token bytes.now) calls))
            (λ _. Stands keeps self.new calls) }
    {
        self.connections.received(token, bytes)
    }

    /// Carries out up to `most` of the lines that wait of the connection, oldest first, each by [`carry_out`](ssi_line::carry_out)
    /// on the store, and adds the replies to what is to be written to it. It stops before a further line while more than 65,536
    /// bytes are unsent, and at `stop`: after that no line of any connection is carried out.
    ///
    /// `AllocError` if memory can't hold a reply: that line has been carried out and is the last, and the connection is
    /// closed.
    pub fn run<S: ProtocolStore>(
        &mut self,
        alloc: Global,
        token: u64,
        store: &mut S,
        most: usize,
    ) -> Result<(), AllocError>
        // The first of the lines that wait are carried out, each once and in order, and their replies are added. With an error
        // they are one at least.
        ensures carried { (b : Buffers) (bytes : List ℕ) → is_stopped self.old ≡ false → buffers_of self.old token ≡ Some b
            → b.waiting ≡ clipped bytes
            → (stops : Bool) × (lines : List (List ℕ)) × (steps : List Step) × (left : List ℕ) × (now : Buffers)
            × CarriedOut S.keeps S.is_at b bytes store.old stops (is_err result) lines steps left now store.new
            × IsEnough stops (is_err result) most lines now
            × (buffers_of self.new token ≡ left_by (is_err result) now) × (is_stopped self.new ≡ stops) }

        // Nothing is done after `stop`, or of a connection that isn't open, and that is no error.
        ensures after_stop { is_stopped self.old ≡ true → IsSame self.old self.new × (store.new ≡ store.old) }
        ensures missing { buffers_of self.old token ≡ None → IsSame self.old self.new × (store.new ≡ store.old) }
        ensures fine { (is_stopped self.old ≡ true) ⊎ (buffers_of self.old token ≡ None) → IsOk result }

        ensures others { (u : ℕ) → u ≢ token → buffers_of self.new u ≡ buffers_of self.old u }
        ensures next { next_token self.new ≡ next_token self.old }
        ensures stands { (calls : List Call) → Stands S.keeps self.old calls
            → (lines : List (List ℕ)) × (steps : List Step)
            × IsTaken S.keeps (is_stopped self.old) (is_err result) most (buffers_of self.old token) lines steps
            × Stands S.keeps self.new (with_run (is_err result) token lines steps calls)
            × WentOn S.is_at store.old steps store.new
            × (all_steps (with_run (is_err result) token lines steps calls) ≡ all_steps calls ++ steps) }

        // The course of the store goes on by the steps that were carried out, and by no other.
        ensures serves { (start : Course) (calls : List Call) → Serves S.keeps S.is_at start self.old store.old calls
            → (lines : List (List ℕ)) × (steps : List Step) × (IsErr result → 0 < length lines)
            × Serves S.keeps S.is_at start self.new store.new (with_run (is_err result) token lines steps calls) }
    {
        self.carry_out(alloc, token, store, most)
    }

    fn carry_out<S: ProtocolStore>(
        &mut self,
        alloc: Global,
        token: u64,
        store: &mut S,
        most: usize,
    ) -> Result<(), AllocError>
        ensures idle { (is_stopped self.old ≡ true) ⊎ (buffers_of self.old token ≡ None)
            → IsSame self.old self.new × (store.new ≡ store.old) }
        ensures fine { (is_stopped self.old ≡ true) ⊎ (buffers_of self.old token ≡ None) → IsOk result }
        ensures ran { is_stopped self.old ≡ false → IsSome (buffers_of self.old token)
            → RanAt S.keeps S.is_at (buffers_of self.old) token store.old (is_stopped self.new) (is_err result) most
            (buffers_of self.new) store.new }
        ensures next { next_token self.new ≡ next_token self.old }
    {
        if self.stopped {
            return Ok(());
        }
        let Some(outcome) = self.connections.run(alloc, token, store, most) else {
            return Ok(());
        };
        self.stopped = outcome.stops();
        if outcome.is_lost() {
            return Err(AllocError);
        }
        Ok(())
    }

    /// Carries out the first line that waits of the connection, as [`run`](Hub::run) does, and returns what came of it. `None`
    /// if [`wants_run`](Hub::wants_run) says no; then nothing is done.
    ///
    /// If memory can't hold the reply, the line has been carried out, and the connection is closed.
    pub fn step<S: ProtocolStore>(
        &mut self,
        alloc: Global,
        token: u64,
        store: &mut S,
    ) -> Option<CarriedLine>
        // A line is carried out if and only if one may be.
        ensures when { is_some result ≡ may_step (is_stopped self.old) (buffers_of self.old token) }
        ensures none { IfNone result (IsSame self.old self.new × (store.new ≡ store.old)) }

        // It is the first one that waits, and no other. Its reply is added, or lost with the connection.
        ensures carried { IfSome result (λ carried. (b : Buffers) (bytes : List ℕ) → buffers_of self.old token ≡ Some b
            → b.waiting ≡ clipped bytes
            → (line : List ℕ) × (step : Step) × (left : List ℕ) × (now : Buffers)
            × IsLineStep S.keeps S.is_at (buffers_of self.old token) store.old carried line step store.new
            × CarriedOut S.keeps S.is_at b bytes store.old (stops_by carried.outcome) (lost_by carried.outcome)
            (line ∷ []) (step ∷ []) left now store.new
            × (buffers_of self.new token ≡ left_by (lost_by carried.outcome) now)) }
        ensures stopped { IfSome result (λ carried. is_stopped self.new ≡ stops_by carried.outcome) }

        ensures others { (u : ℕ) → u ≢ token → buffers_of self.new u ≡ buffers_of self.old u }
        ensures next { next_token self.new ≡ next_token self.old }
        ensures stands { (calls : List Call) → Stands S.keeps self.old calls → MatchOption result (Stands S.keeps self.new calls)
            (λ carried. (line : List ℕ) × (step : Step)
            × IsLineStep S.keeps S.is_at (buffers_of self.old token) store.old carried line step store.new
            × Stands S.keeps self.new (with_run (lost_by carried.outcome) token (line ∷ []) (step ∷ []) calls)
            × (all_steps (with_run (lost_by carried.outcome) token (line ∷ []) (step ∷ []) calls)
            ≡ all_steps calls ++ step ∷ [])) }

        // The course of the store goes on by this step, and by no other.
        ensures serves { (start : Course) (calls : List Call) → Serves S.keeps S.is_at start self.old store.old calls
            → MatchOption result (Serves S.keeps S.is_at start self.new store.new calls)
            (λ carried. (line : List ℕ) × (step : Step)
            × IsLineStep S.keeps S.is_at (buffers_of self.old token) store.old carried line step store.new
            × Serves S.keeps S.is_at start self.new store.new
            (with_run (lost_by carried.outcome) token (line ∷ []) (step ∷ []) calls)) }
    {
        self.carry_out_one(alloc, token, store)
    }

    fn carry_out_one<S: ProtocolStore>(
        &mut self,
        alloc: Global,
        token: u64,
        store: &mut S,
    ) -> Option<CarriedLine>
        ensures when { IfNone result (may_step (is_stopped self.old) (buffers_of self.old token) ≡ false) }
        ensures none { IfNone result (IsSame self.old self.new × (store.new ≡ store.old)) }
        ensures some { IfSome result (λ carried. (is_stopped self.old ≡ false)
            × (is_stopped self.new ≡ stops_by carried.outcome)
            × SteppedAt S.keeps S.is_at (buffers_of self.old) token store.old carried (buffers_of self.new) store.new) }
        ensures next { next_token self.new ≡ next_token self.old }
    {
        if self.is_stopped() {
            return None;
        }
        let Some(carried) = self.connections.step(alloc, token, store) else {
            return None;
        };
        self.stopped = carried.outcome.stops();
        Some(carried)
    }

    /// Returns the first whole line that waits of the connection, without its line feed. It is the next one that
    /// [`run`](Hub::run) and [`step`](Hub::step) carry out. Of a line of more than 4096 bytes these are the first 4097. `None`
    /// if no whole line waits, or if the connection isn't open.
    pub fn next_line(&self, token: u64) -> Option<&[u8]>
        ensures some { IfSome result (λ line. IsPlain line.now × ((b : Buffers) × (rest : List ℕ)
            × (buffers_of self.now token ≡ Some b) × (b.waiting ≡ line.now ++ (10 ∷ rest)))) }
        ensures none { IfNone result ((b : Buffers) → buffers_of self.now token ≡ Some b → has_line b.waiting ≡ false) }
    {
        let Some(connection) = self.connections.get(token) else {
            return None;
        };
        connection.line()
    }

    /// Returns the bytes that are to be written to the connection: the replies that are not written.
    pub fn to_write(&self, token: u64) -> &[u8]
        ensures { MatchOption (buffers_of self.now token) (result.now ≡ []) (λ b. result.now ≡ b.unsent) }
    {
        match self.connections.get(token) {
            Some(connection) => connection.unsent(),
            None => &[],
        }
    }

    /// The first `count` bytes of [`to_write`](Hub::to_write) were written to the connection, or all if there are no more.
    pub fn written(&mut self, token: u64, count: usize)
        ensures written { Changed self.old self.new token
            (option_map (with_written count) (buffers_of self.old token)) }
        ensures stands { (keeps : Bool) (calls : List Call) → Stands keeps self.old calls
            → Stands keeps self.new (with_call (Wrote token (first_unsent count (buffers_of self.old token))) calls) }
    {
        self.connections.written(token, count);
    }

    /// The connection is gone. Its lines that are not carried out are dropped, and so is what was to be written to it. What
    /// was carried out stands, and its transactions stay open.
    pub fn closed(&mut self, token: u64)
        ensures closed { Changed self.old self.new token None }
        ensures stands { (keeps : Bool) (calls : List Call) → Stands keeps self.old calls
            → Stands keeps self.new (with_call (Closed token) calls) }
    {
        self.connections.remove(token);
    }

    /// Returns whether the connection is open.
    pub fn is_open(&self, token: u64) -> bool
        ensures { result ≡ is_some (buffers_of self.now token) }
    {
        self.connections.get(token).is_some()
    }

    /// Returns whether more bytes are to be read from the connection. It is false while a whole line waits or more than
    /// 65,536 bytes are unsent, and after `stop`.
    pub fn wants_read(&self, token: u64) -> bool
        ensures { MatchOption (buffers_of self.now token) (result ≡ false)
            (λ b. result ≡ (not (is_stopped self.now) && (not (has_line b.waiting) && nat_le (length b.unsent) 65536))) }
    {
        match self.connections.get(token) {
            Some(connection) => !self.stopped && connection.wants_read(),
            None => false,
        }
    }

    /// Returns whether [`run`](Hub::run) would carry out a line of the connection. It is false while no whole line waits or
    /// more than 65,536 bytes are unsent, and after `stop`.
    pub fn wants_run(&self, token: u64) -> bool
        ensures { MatchOption (buffers_of self.now token) (result ≡ false)
            (λ b. result ≡ (not (is_stopped self.now) && (has_line b.waiting && nat_le (length b.unsent) 65536))) }
    {
        match self.connections.get(token) {
            Some(connection) => !self.stopped && connection.wants_run(),
            None => false,
        }
    }

    /// Returns whether there are bytes to be written to the connection.
    pub fn wants_write(&self, token: u64) -> bool
        ensures { MatchOption (buffers_of self.now token) (result ≡ false) (λ b. result ≡ nat_lt 0 (length b.unsent)) }
    {
        !self.to_write(token).is_empty()
    }

    /// Returns whether `stop` was carried out.
    pub fn is_stopped(&self) -> bool
        ensures { result ≡ is_stopped self.now }
    {
        self.stopped
    }
}
