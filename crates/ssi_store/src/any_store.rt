//! Stores with their history, and stores without.

ghost use Rattle.std.specs.Prelude.{◌≡◌, ℕ, List, None, true, is_some, map, IfOk, IfSome, IfNone};
ghost use Rattle.adya_keys.specs.Meaning.Keys.{Bytes};
ghost use Rattle.adya_values.specs.Mirror.Events.{final_of};
ghost use Rattle.ssi_conflict.specs.Computing.Steps.{smallest_ordered_pivot};
ghost use Rattle.ssi_store.specs.Meaning.Courses.{Answer, Command as PlainCommand, Course, Refused, Refusal as PlainRefusal, Stat, Then, txn_in};
ghost use Rattle.ssi_store.specs.Meaning.Contents.{contents_after};
ghost use Rattle.ssi_store.specs.Meaning.Replies.{IsAnswer};
ghost use Rattle.ssi_store.specs.Mirror.Commands.{answer_of, command_of};
ghost use Rattle.ssi_store.specs.Mirror.LiveStores.{IsAt as IsLiveAt};
ghost use Rattle.ssi_store.specs.Mirror.Stores.{IsAt};

use crate::{Command, LiveStore, Refusal, Reply, Session, Store};
use adya_values::FinalPair;
use ssi_reads::Marks;
use ssi_versions::Chains;
use std::alloc::AllocError;

/// What carries out commands: a [`Store`], or a [`LiveStore`], which keeps no history.
pub trait AnyStore {
    /// The courses that it stands for.
    ghost is_at: { Self → Course → Type 0 };

    /// Carries out one command.
    ///
    /// The answer is the reply that the commands before give to this one. Out of memory is answered only to a command
    /// that no other refusal applies to, and never to abort, collect and stat.
    fn apply(&mut self, command: Command) -> Result<Reply, Refusal>
        ensures stands { (c : Course) → is_at self.old c → is_at self.new (Then c (command_of command) (answer_of result)) }
        ensures answers { (c : Course) → is_at self.old c → IsAnswer smallest_ordered_pivot c (command_of command) (answer_of result) };

    /// Returns a session that has a transaction. `None` if no session has one.
    fn open_session(&self) -> Option<Session>
        ensures some { IfSome result (λ s. (c : Course) → is_at self.now c → is_some (txn_in s c) ≡ true) }
        ensures none { IfNone result ((c : Course) → is_at self.now c → (s : Bytes) → txn_in s c ≡ None) };

    /// Returns by rising key what a transaction would see that begins now: the newest committed value of each key that has
    /// one. The store stays as it is.
    ///
    /// Returns `AllocError` if memory runs out.
    fn contents(&self) -> Result<Vec<FinalPair>, AllocError>
        ensures { IfOk result (λ v. (c : Course) → is_at self.now c → map final_of v.items ≡ contents_after c) };

    /// A law: a store that stands for a course in which the last command was refused stands for the course without that
    /// command, too. So a refused command needn't be carried out again for the same answers to those after it.
    fn refusals_change_nothing(&self)
        ensures { (c : Course) (command : PlainCommand) (r : PlainRefusal) → is_at self.now (Then c command (Refused r)) → is_at self.now c };

    /// A law: a store that stands for a course in which the last command was `stat` stands for the course without that
    /// command, too, whatever was answered.
    fn stats_change_nothing(&self)
        ensures { (c : Course) (answer : Answer) → is_at self.now (Then c Stat answer) → is_at self.now c };
}

impl<C: Chains + Drop, M: Marks + Drop> AnyStore for Store<C, M> {
    ghost is_at = { λ s c. IsAt C.held M.marked s c };

    fn apply(&mut self, command: Command) -> Result<Reply, Refusal> {
        Store::apply(self, command)
    }

    fn open_session(&self) -> Option<Session> {
        Store::open_session(self)
    }

    fn contents(&self) -> Result<Vec<FinalPair>, AllocError> {
        Store::contents(self)
    }

    fn refusals_change_nothing(&self) {}

    fn stats_change_nothing(&self) {}
}

impl<C: Chains + Drop, M: Marks + Drop> AnyStore for LiveStore<C, M> {
    ghost is_at = { λ s c. IsLiveAt C.held M.marked s c };

    fn apply(&mut self, command: Command) -> Result<Reply, Refusal> {
        LiveStore::apply(self, command)
    }

    fn open_session(&self) -> Option<Session> {
        LiveStore::open_session(self)
    }

    fn contents(&self) -> Result<Vec<FinalPair>, AllocError> {
        LiveStore::contents(self)
    }

    fn refusals_change_nothing(&self) {}

    fn stats_change_nothing(&self) {}
}
