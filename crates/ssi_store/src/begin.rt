//! Begin.

use crate::engine::Engine;
use crate::open::Open;
use crate::past::Past;
use crate::sessions::add;
use crate::{Refusal, Reply, Session};
use adya_values::Txn;
use ssi_reads::Marks;
use ssi_versions::Chains;

impl<C: Chains + Drop, M: Marks + Drop, P: Past + Drop> Engine<C, M, P> {
    ghost use Rattle.ssi_store.specs.Meaning.Courses.{Command as Do};
    ghost use Rattle.ssi_store.specs.Mirror.Commands.{answer_of};
    ghost use Rattle.ssi_store.specs.Mirror.Standing.{GoesOn};

    /// Opens a transaction. All growths come before the first change.
    pub(crate) fn begin(&mut self, session: Session) -> Result<Reply, Refusal>
        ensures stands { GoesOn C.held M.marked P.recorded P.started self.old self.new (Do.Begin session) (answer_of result) }
    {
        if self.sessions.contains_key(&session) {
            return Err(Refusal::Busy);
        }
        let Ok(txn) = Txn::new(self.next) else {
            return Err(Refusal::Spent);
        };
        self.sessions.reserve(1)?;
        self.roster.room()?;
        self.past.open()?;
        self.tracker.on_begin(txn, self.commits)?;
        add(
            &mut self.sessions,
            session,
            Open::new(self.alloc, txn, self.commits),
        );
        self.roster.begin(txn, self.commits);
        self.past.begin(txn, self.commits);
        self.next += 1;
        Ok(Reply::Begun { txn })
    }
}
