//! One connection.

ghost use Rattle.std.specs.Prelude.{◌≡◌, ℕ, List, ◌∷◌, ◌++◌, false, OnOk, OnErr, is_some, IfSome, IfNone, length, not, ◌&&◌, nat_le};
ghost use Rattle.adya_line.specs.Meaning.Lines.{IsPlain};
ghost use Rattle.ssi_line.specs.Meaning.Steps.{Step};
ghost use Rattle.ssi_hub.specs.Clauses.Clipping.{clipped, has_line};
ghost use Rattle.ssi_hub.specs.Clauses.Buffers.{no_bytes, with_received, with_written};
ghost use Rattle.ssi_hub.specs.Clauses.Runs.{CarriedOut, IsEnough};
ghost use Rattle.ssi_hub.specs.Clauses.Outcomes.{stops_by, lost_by};
ghost use Rattle.ssi_hub.specs.Clauses.Stepping.{is_ready};
ghost use Rattle.ssi_hub.specs.Machinery.Outcomes.{StepsOut};

use crate::replying::reply;
use crate::{CarriedLine, Inbox, Outcome, Queue};
use ssi_line::ProtocolStore;
use std::alloc::{AllocError, Global};
use std::marker::Model;

/// No further line is carried out while more bytes than these are unsent.
pub(crate) const MOST_UNSENT: usize = 65536;

/// A connection, with what it has sent and what is to be written to it.
#[derive(Drop)]
pub(crate) struct Connection {
    inbox: Inbox,
    unsent: Queue,
}

impl Model for Connection {
    ghost use Rattle.ssi_hub.specs.Clauses.Buffers.{Buffers};

    ghost Value = { Buffers };

    ghost view = { λ c. record { waiting = c.inbox; unsent = c.unsent } };
}

impl Connection {
    /// Makes a new connection.
    pub(crate) fn new(alloc: Global) -> Connection
        ensures { result ≡ no_bytes }
    {
        Connection {
            inbox: Inbox::new(alloc),
            unsent: Queue::new(alloc),
        }
    }

    pub(crate) fn received(&mut self, bytes: &[u8]) -> Result<(), AllocError>
        ensures ok { OnOk result (self.new ≡ with_received bytes.now self.old) }
        ensures err { OnErr result (self.new ≡ self.old) }
    {
        self.inbox.add(bytes)
    }

    /// Returns the first line that waits, without its line feed. `None` if no whole line does.
    pub(crate) fn line(&self) -> Option<&[u8]>
        ensures some { IfSome result (λ line. IsPlain line.now
            × ((rest : List ℕ) × (self.now.waiting ≡ line.now ++ (10 ∷ rest)))) }
        ensures none { IfNone result (has_line self.now.waiting ≡ false) }
    {
        let Some(line) = self.inbox.line() else {
            return None;
        };
        Some(line)
    }

    pub(crate) fn unsent(&self) -> &[u8]
        ensures { result.now ≡ self.now.unsent }
    {
        self.unsent.bytes()
    }

    pub(crate) fn written(&mut self, count: usize)
        ensures { self.new ≡ with_written count self.old }
    {
        self.unsent.take(count);
    }

    /// Returns whether more may be read.
    pub(crate) fn wants_read(&self) -> bool
        ensures { result ≡ (not (has_line self.now.waiting) && nat_le (length self.now.unsent) 65536) }
    {
        !self.inbox.has_line() && self.unsent.len() <= MOST_UNSENT
    }

    /// Returns whether a line would be carried out.
    pub(crate) fn wants_run(&self) -> bool
        ensures { result ≡ (has_line self.now.waiting && nat_le (length self.now.unsent) 65536) }
    {
        self.inbox.has_line() && self.unsent.len() <= MOST_UNSENT
    }

    /// Carries out up to `most` of the lines that wait, oldest first, and adds the replies to what is to be written. It stops
    /// at `stop`, at a reply that memory can't hold, and before a further line while more than 65,536 bytes are unsent.
    pub(crate) fn run<S: ProtocolStore>(
        &mut self,
        alloc: Global,
        store: &mut S,
        most: usize,
    ) -> Outcome
        ensures { (bytes : List ℕ) → self.old.waiting ≡ clipped bytes
            → (lines : List (List ℕ)) × (steps : List Step) × (left : List ℕ)
            × CarriedOut S.keeps S.is_at self.old bytes store.old (stops_by result) (lost_by result) lines steps left
            self.new store.new
            × IsEnough (stops_by result) (lost_by result) most lines self.new }
    {
        'lines: for _ in 0..most {
            let Some(carried) = self.step(alloc, store) else {
                return Outcome::GoesOn;
            };
            if carried.outcome.is_last() {
                return carried.outcome;
            }
        }
        Outcome::GoesOn
    }

    /// Carries out the first line that waits, and adds its reply to what is to be written. `None` if no whole line waits or
    /// more than 65,536 bytes are unsent; then nothing is done.
    pub(crate) fn step<S: ProtocolStore>(
        &mut self,
        alloc: Global,
        store: &mut S,
    ) -> Option<CarriedLine>
        ensures when { is_some result ≡ is_ready self.old }
        ensures some { IfSome result (λ carried. StepsOut S.keeps S.is_at self.old store.old carried self.new store.new) }
        ensures none { IfNone result ((self.new ≡ self.old) × (store.new ≡ store.old)) }
    {
        if self.unsent.len() > MOST_UNSENT {
            return None;
        }
        let Some(line) = self.inbox.line() else {
            return None;
        };
        let len = line.len();
        let carried = reply(alloc, line, &mut self.unsent, store);
        self.inbox.pass(len);
        Some(carried)
    }
}
