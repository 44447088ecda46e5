//! A store without its history.

ghost use Rattle.std.specs.Prelude.{◌≡◌, [], map, true, None, is_some, IfOk, IfSome, IfNone};
ghost use Rattle.adya_keys.specs.Meaning.Keys.{Bytes};
ghost use Rattle.adya_values.specs.Mirror.Events.{final_of};
ghost use Rattle.ssi_reads.specs.Clauses.Marks.{IsEmpty};
ghost use Rattle.ssi_conflict.specs.Computing.Steps.{smallest_ordered_pivot};

use crate::engine::Engine;
use crate::no_past::NoPast;
use crate::sessions::first_of;
use crate::{Command, Refusal, Reply, Session};
use adya_values::{FinalPair, Txn};
use ssi_reads::Marks;
use ssi_versions::Chains;
use std::alloc::{AllocError, Global};

/// A store that keeps no history. It answers as a [`Store`](crate::Store) does that was given the same commands and didn't
/// run out of memory.
///
/// It holds the newest version of each key, the versions that open transactions see and those that no collection has
/// dropped yet, and what is kept of transactions. Unlike a [`Store`](crate::Store) it doesn't grow with each command.
#[derive(Drop)]
pub struct LiveStore<C: Chains + Drop, M: Marks + Drop> {
    engine: Engine<C, M, NoPast>,
}

impl<C: Chains + Drop, M: Marks + Drop> LiveStore<C, M> {
    ghost use Rattle.ssi_store.specs.Meaning.Contents.{contents_after};
    ghost use Rattle.ssi_store.specs.Meaning.Courses.{Course, New, txn_in};
    ghost use Rattle.ssi_store.specs.Meaning.Replies.{IsAnswer};
    ghost use Rattle.ssi_store.specs.Mirror.Commands.{command_of, answer_of};
    ghost use Rattle.ssi_store.specs.Mirror.LiveStores.{IsAt, GoesOn};

    /// Makes an empty store over versions and marks that are empty; the first transaction has number 1. Takes no memory.
    pub fn new(alloc: Global, chains: C, marks: M) -> Self
        requires versions { C.held chains ≡ [] }
        requires marks { IsEmpty (M.marked marks) }
        ensures { IsAt C.held M.marked result (New 1) }
    {
        LiveStore::with_next(alloc, chains, marks, Txn::new(1).unwrap())
    }

    /// Makes an empty store whose first transaction has this number. Takes no memory.
    pub fn with_next(alloc: Global, chains: C, marks: M, next: Txn) -> Self
        requires versions { C.held chains ≡ [] }
        requires marks { IsEmpty (M.marked marks) }
        ensures { IsAt C.held M.marked result (New next) }
    {
        let engine = Engine::with_next(alloc, chains, marks, NoPast, next);
        LiveStore { engine }
    }

    /// Carries out one command.
    ///
    /// The answer is the reply that the commands before give to this one. Out of memory is answered only to a command
    /// that no other refusal applies to, and never to abort, collect and stat.
    pub fn apply(&mut self, command: Command) -> Result<Reply, Refusal>
        ensures stands { GoesOn C.held M.marked self.old self.new (command_of command) (answer_of result) }
        ensures answers { (c : Course) → IsAt C.held M.marked self.old c → IsAnswer smallest_ordered_pivot c (command_of command) (answer_of result) }
    {
        self.engine.apply(command)
    }

    /// Returns a session that has a transaction. `None` if no session has one.
    pub fn open_session(&self) -> Option<Session>
        ensures some { IfSome result (λ s. (c : Course) → IsAt C.held M.marked self.now c → is_some (txn_in s c) ≡ true) }
        ensures none { IfNone result ((c : Course) → IsAt C.held M.marked self.now c → (s : Bytes) → txn_in s c ≡ None) }
    {
        first_of(&self.engine.sessions)
    }

    /// Returns by rising key what a transaction would see that begins now: the newest committed value of each key that has
    /// one. What open transactions have written is not among it. The store stays as it is.
    ///
    /// Returns `AllocError` if memory runs out.
    pub fn contents(&self) -> Result<Vec<FinalPair>, AllocError>
        ensures { IfOk result (λ v. (c : Course) → IsAt C.held M.marked self.now c → map final_of v.items ≡ contents_after c) }
    {
        self.engine.contents()
    }
}
