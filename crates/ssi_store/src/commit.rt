//! Commit.

use crate::below::laws_below;
use crate::engine::Engine;
use crate::overtaken::least_overtaken;
use crate::past::Past;
use crate::sessions::{open_of, remove};
use crate::{Refusal, Reply, Session};
use adya_values::Event;
use ssi_conflict::Answer;
use ssi_reads::Marks;
use ssi_versions::Chains;

impl<C: Chains + Drop, M: Marks + Drop, P: Past + Drop> Engine<C, M, P> {
    ghost use Rattle.ssi_store.specs.Meaning.Courses.{Command as Do};
    ghost use Rattle.ssi_store.specs.Mirror.Commands.{answer_of};
    ghost use Rattle.ssi_store.specs.Mirror.Standing.{GoesOn};

    /// Commits the session's transaction. All growths come before the first change.
    pub(crate) fn commit(&mut self, session: Session) -> Result<Reply, Refusal>
        ensures stands { GoesOn C.held M.marked P.recorded P.started self.old self.new (Do.Commit session) (answer_of result) }
    {
        laws_below();
        let open = open_of(&self.sessions, session)?;
        let txn = open.view.txn();
        let writes = open.view.writes();
        let keys = open.view.keys();
        if let Some(least) = least_overtaken(&self.chains, open.view.snapshot(), writes) {
            self.drop_txn(session, txn);
            return Ok(Reply::Conflict {
                key: least.key,
                writer: least.writer,
            });
        }
        let answer = self.tracker.judge(txn, keys)?;
        if let Answer::Unsafe { pivot } = answer {
            self.drop_txn(session, txn);
            return Ok(Reply::Unsafe { pivot });
        }
        self.chains.install(self.commits + 1, writes)?;
        self.tracker.on_commit(txn, self.commits + 1, keys);
        let _there = remove(&mut self.sessions, session);
        self.roster.end(txn);
        self.past.end(Event::Commit { txn });
        self.commits += 1;
        Ok(Reply::Committed)
    }
}
