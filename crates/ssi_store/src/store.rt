//! The store.

ghost use Rattle.std.specs.Prelude.{◌≡◌, [], map, true, None, is_some, IfOk, IfErr, IfSome, IfNone};
ghost use Rattle.adya_keys.specs.Meaning.Keys.{Bytes};
ghost use Rattle.adya_values.specs.Mirror.Events.{final_of};
ghost use Rattle.ssi_reads.specs.Clauses.Marks.{IsEmpty};
ghost use Rattle.ssi_conflict.specs.Clauses.Pairs.{IsOrderedPivot};
ghost use Rattle.ssi_conflict.specs.Computing.Steps.{smallest_ordered_pivot};
ghost use Rattle.ssi_store.specs.Mirror.Pasts.{HasEvents, HasStarts};
ghost use Rattle.ssi_store.specs.Mirror.Standing.{HasCourse};

use crate::engine::Engine;
use crate::histories::{dump, finish};
use crate::sessions::first_of;
use crate::whole_past::WholePast;
use crate::{Command, Finished, Refusal, Reply, Session};
use adya_values::{FinalPair, Txn};
use ssi_reads::Marks;
use ssi_versions::Chains;
use std::alloc::{AllocError, Global};

/// A store of keys and values, over a store of versions and a set of marks.
///
/// Commands come as one interleaved list, each of a session or of an operator. A transaction sees the contents as they
/// were when it began, with its own writes over them. Of two concurrent transactions that write the same key only the
/// first to commit does; the other is aborted. So is a transaction whose read or commit would leave a pivot.
///
/// A store always stands for some course, so each history that it gives has a certificate.
#[derive(Drop)]
pub struct Store<C: Chains + Drop, M: Marks + Drop> {
    engine: Engine<C, M, WholePast>,
    ghost stands: { HasCourse C.held M.marked HasEvents HasStarts engine },
}

impl<C: Chains + Drop, M: Marks + Drop> Store<C, M> {
    ghost use Rattle.ssi_store.specs.Meaning.Courses.{Course, New, txn_in};
    ghost use Rattle.ssi_store.specs.Meaning.Replies.{IsAnswer};
    ghost use Rattle.ssi_store.specs.Meaning.Contents.{contents_after};
    ghost use Rattle.ssi_store.specs.Mirror.Commands.{command_of, answer_of};
    ghost use Rattle.ssi_store.specs.Meaning.Recording.{dumped};
    ghost use Rattle.ssi_store.specs.Clauses.Finished.{finished};
    ghost use Rattle.ssi_store.specs.Clauses.Coverage.{snapshots, IsCovered};
    ghost use Rattle.ssi_store.specs.Meaning.Faces.{Records, RecordsSoFar};
    ghost use Rattle.ssi_store.specs.Mirror.Finished.{recorded_in, snapshots_in};
    ghost use Rattle.ssi_store.specs.Mirror.Stores.{IsAt, GoesOn};

    /// Makes an empty store over versions and marks that are empty; the first transaction has number 1. Takes no memory.
    pub fn new(alloc: Global, chains: C, marks: M) -> Self
        requires versions { C.held chains ≡ [] }
        requires marks { IsEmpty (M.marked marks) }
        ensures { IsAt C.held M.marked result (New 1) }
    {
        Store::with_next(alloc, chains, marks, Txn::new(1).unwrap())
    }

    /// Makes an empty store whose first transaction has this number. Takes no memory.
    pub fn with_next(alloc: Global, chains: C, marks: M, next: Txn) -> Self
        requires versions { C.held chains ≡ [] }
        requires marks { IsEmpty (M.marked marks) }
        ensures { IsAt C.held M.marked result (New next) }
    {
        let engine = Engine::with_next(alloc, chains, marks, WholePast::new(alloc), next);
        Store { engine }
    }

    /// Carries out one command.
    ///
    /// The answer is the reply that the commands before give to this one. Out of memory is answered only to a command
    /// that no other refusal applies to, and never to abort, collect and stat.
    pub fn apply(&mut self, command: Command) -> Result<Reply, Refusal>
        ensures stands { GoesOn C.held M.marked self.old self.new (command_of command) (answer_of result) }
        ensures answers { (c : Course) → IsAt C.held M.marked self.old c → IsAnswer smallest_ordered_pivot c (command_of command) (answer_of result) }
    {
        self.engine.apply(command)
    }

    /// Returns a session that has a transaction. `None` if no session has one.
    pub fn open_session(&self) -> Option<Session>
        ensures some { IfSome result (λ s. (c : Course) → IsAt C.held M.marked self.now c → is_some (txn_in s c) ≡ true) }
        ensures none { IfNone result ((c : Course) → IsAt C.held M.marked self.now c → (s : Bytes) → txn_in s c ≡ None) }
    {
        first_of(&self.engine.sessions)
    }

    /// Returns by rising key what a transaction would see that begins now: the newest committed value of each key that has
    /// one. What open transactions have written is not among it. The store stays as it is.
    ///
    /// Returns `AllocError` if memory runs out.
    pub fn contents(&self) -> Result<Vec<FinalPair>, AllocError>
        ensures { IfOk result (λ v. (c : Course) → IsAt C.held M.marked self.now c → map final_of v.items ≡ contents_after c) }
    {
        self.engine.contents()
    }

    /// Ends the store. Its history has an abort of each open transaction at its end, by rising number.
    ///
    /// The history records the course of the store. It is a checked snapshot history by these snapshots, without a dangerous
    /// structure. Hands the store back as it was if memory runs out.
    pub fn finish(self) -> Result<Finished, (Store<C, M>, AllocError)>
        ensures history { IfOk result (λ f. (c : Course) → IsAt C.held M.marked self c → recorded_in f ≡ finished c) }
        ensures snapshots { IfOk result (λ f. (c : Course) → IsAt C.held M.marked self c → snapshots_in f ≡ snapshots c) }
        ensures records { IfOk result (λ f. (c : Course) → IsAt C.held M.marked self c → Records (recorded_in f) c) }
        ensures covered { IfOk result (λ f. (c : Course) → IsAt C.held M.marked self c → IsCovered IsOrderedPivot c (recorded_in f)) }
        ensures err { IfErr result (λ e. (c : Course) → IsAt C.held M.marked self c → IsAt C.held M.marked e.0 c) }
    {
        match finish(self.engine) {
            Ok(finished) => Ok(finished),
            Err((engine, e)) => Err((Store { engine }, e)),
        }
    }

    /// Returns the history so far. Its open transactions are unfinished. The store stays as it is.
    ///
    /// The history records the course of the store. It is a checked snapshot history by these snapshots, without a dangerous
    /// structure. Returns `AllocError` if memory runs out.
    pub fn dump(&self) -> Result<Finished, AllocError>
        ensures history { IfOk result (λ f. (c : Course) → IsAt C.held M.marked self.now c → recorded_in f ≡ dumped c) }
        ensures snapshots { IfOk result (λ f. (c : Course) → IsAt C.held M.marked self.now c → snapshots_in f ≡ snapshots c) }
        ensures records { IfOk result (λ f. (c : Course) → IsAt C.held M.marked self.now c → RecordsSoFar (recorded_in f) c) }
        ensures covered { IfOk result (λ f. (c : Course) → IsAt C.held M.marked self.now c → IsCovered IsOrderedPivot c (recorded_in f)) }
    {
        dump(&self.engine)
    }
}
