//! Abort, and the ends of transactions by an abort.

use crate::engine::Engine;
use crate::past::Past;
use crate::sessions::{open_of, remove};
use crate::{Refusal, Reply, Session};
use adya_values::{Event, Txn};
use ssi_reads::Marks;
use ssi_versions::Chains;

impl<C: Chains + Drop, M: Marks + Drop, P: Past + Drop> Engine<C, M, P> {
    ghost use Rattle.ssi_store.specs.Meaning.Courses.{Course, Then, Command as Do, Answer as Is};
    ghost use Rattle.ssi_store.specs.Mirror.Commands.{answer_of};
    ghost use Rattle.ssi_store.specs.Mirror.Standing.{IsAt, GoesOn};
    ghost use Rattle.ssi_store.specs.Machinery.Ends.{IsEnd};

    /// Aborts the session's transaction. Takes no memory.
    pub(crate) fn abort(&mut self, session: Session) -> Result<Reply, Refusal>
        ensures stands { GoesOn C.held M.marked P.recorded P.started self.old self.new (Do.Abort session) (answer_of result) }
    {
        let open = open_of(&self.sessions, session)?;
        let txn = open.view.txn();
        self.drop_txn(session, txn);
        Ok(Reply::Aborted)
    }

    /// Ends the session's transaction by an abort, for whatever reason. Takes no memory.
    pub(crate) fn drop_txn(&mut self, session: Session, txn: Txn)
        ensures stands { (c : Course) (m : Do) (a : Is) → IsAt C.held M.marked P.recorded P.started self.old c → IsEnd session txn c m a → IsAt C.held M.marked P.recorded P.started self.new (Then c m a) }
    {
        if !remove(&mut self.sessions, session) {
            return;
        }
        self.roster.end(txn);
        self.past.end(Event::Abort { txn });
        self.tracker.on_abort(txn);
    }
}
