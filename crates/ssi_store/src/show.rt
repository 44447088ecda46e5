//! What a get and both kinds of scans do with what they have found.

ghost use Rattle.std.specs.Prelude.{◌∷◌, [], ℕ, ◌<◌, IfSome};
ghost use Rattle.adya_values.specs.Mirror.Events.{event_of};
ghost use Rattle.ssi_conflict.specs.Meaning.Calls.{Reads};
ghost use Rattle.ssi_store.specs.Mirror.Commands.{reply_of};

use crate::below::laws_below;
use crate::engine::Engine;
use crate::past::Past;
use crate::sessions::count_at;
use crate::{Refusal, Reply, Session};
use adya_values::{Event, Key, Txn};
use ssi_conflict::Answer;
use ssi_reads::Marks;
use ssi_versions::Chains;

impl<C: Chains + Drop, M: Marks + Drop, P: Past + Drop> Engine<C, M, P> {
    ghost use Rattle.ssi_store.specs.Meaning.Courses.{Course, Then, Command as Do};
    ghost use Rattle.ssi_store.specs.Mirror.Commands.{answer_of};
    ghost use Rattle.ssi_store.specs.Mirror.Standing.{IsAt};
    ghost use Rattle.ssi_store.specs.Machinery.Opens.{open_at};
    ghost use Rattle.ssi_store.specs.Machinery.Looks.{IsLook};

    /// Tells the tracker that the transaction has looked at the keys from `low` to `high`. Records the event, counts the
    /// operation and returns the reply, unless a pivot would stand.
    pub(crate) fn show(
        &mut self,
        session: Session,
        txn: Txn,
        low: Key,
        high: Key,
        event: Event,
        reply: Reply,
    ) -> Result<Reply, Refusal>
        requires { IfSome (open_at session self.old.sessions.entries) (λ o. o.operations < 65535) }
        ensures stands { (c : Course) (m : Do) → IsAt C.held M.marked P.recorded P.started self.old c
            → IsLook session txn (Reads txn low high ∷ []) (event_of event) (reply_of reply) c m
            → IsAt C.held M.marked P.recorded P.started self.new (Then c m (answer_of result)) }
    {
        laws_below();
        self.past.room(event.entry_count())?;
        let answer = self.tracker.on_read(txn, low, high)?;
        if let Answer::Unsafe { pivot } = answer {
            self.drop_txn(session, txn);
            return Ok(Reply::Unsafe { pivot });
        }
        self.past.event(event);
        count_at(&mut self.sessions, session);
        Ok(reply)
    }

    /// Does the same for what the transaction has seen of its own writes alone. It meets no other transaction by this, so
    /// the tracker isn't told.
    pub(crate) fn show_own(
        &mut self,
        session: Session,
        event: Event,
        reply: Reply,
    ) -> Result<Reply, Refusal>
        requires { IfSome (open_at session self.old.sessions.entries) (λ o. o.operations < 65535) }
        ensures stands { (c : Course) (m : Do) (t : ℕ) → IsAt C.held M.marked P.recorded P.started self.old c
            → IsLook session t [] (event_of event) (reply_of reply) c m
            → IsAt C.held M.marked P.recorded P.started self.new (Then c m (answer_of result)) }
    {
        laws_below();
        self.past.room(event.entry_count())?;
        self.past.event(event);
        count_at(&mut self.sessions, session);
        Ok(reply)
    }
}
