//! Put and del.

ghost use Rattle.std.specs.Prelude.{◌≡◌};
ghost use Rattle.adya_values.specs.Mirror.Events.{event_of, content_of};
ghost use Rattle.ssi_store.specs.Meaning.Recording.{write_event as recorded_write};

use crate::below::laws_below;
use crate::engine::Engine;
use crate::past::Past;
use crate::{Refusal, Reply, Session};
use adya_values::{Content, Event, Key, Mod, Txn};
use ssi_reads::Marks;
use ssi_versions::Chains;

impl<C: Chains + Drop, M: Marks + Drop, P: Past + Drop> Engine<C, M, P> {
    ghost use Rattle.ssi_store.specs.Mirror.Commands.{answer_of, written};
    ghost use Rattle.ssi_store.specs.Mirror.Standing.{GoesOn};

    /// Writes the key; dead content deletes it.
    pub(crate) fn write(
        &mut self,
        session: Session,
        key: Key,
        content: Content,
    ) -> Result<Reply, Refusal>
        ensures stands { GoesOn C.held M.marked P.recorded P.started self.old self.new (written session key (content_of content)) (answer_of result) }
    {
        laws_below();
        let Some(open) = self.sessions.get_mut(&session) else {
            return Err(Refusal::Idle);
        };
        open.may_go_on()?;
        self.past.room(0)?;
        let m = open.write(key, content)?;
        let txn = open.view.txn();
        self.past.event(write_event(txn, key, m, content));
        Ok(Reply::Done)
    }
}

/// Returns the event of a write.
fn write_event(txn: Txn, key: Key, m: Mod, content: Content) -> Event
    ensures { event_of result ≡ recorded_write txn key m (content_of content) }
{
    match content {
        Content::Live(value) => Event::Write { txn, key, m, value },
        Content::Dead => Event::Delete { txn, key, m },
    }
}
