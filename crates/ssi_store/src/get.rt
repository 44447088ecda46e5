//! Get.

ghost use Rattle.std.specs.Prelude.{◌≡◌, IfOk};
ghost use Rattle.adya_values.specs.Meaning.Events.{shown};
ghost use Rattle.adya_values.specs.Mirror.Events.{event_of};
ghost use Rattle.ssi_snapshot.specs.Mirror.{sees, txn_of};
ghost use Rattle.ssi_store.specs.Mirror.Commands.{reply_of};
ghost use Rattle.ssi_store.specs.Meaning.Recording.{get_event};
ghost use Rattle.ssi_store.specs.Meaning.Replies.{got};

use crate::below::laws_below;
use crate::engine::Engine;
use crate::past::Past;
use crate::sessions::open_of;
use crate::{Refusal, Reply, Session};
use adya_values::{Content, Event, Key};
use ssi_reads::Marks;
use ssi_snapshot::View;
use ssi_versions::Chains;
use std::alloc::{AllocError, Global};

impl<C: Chains + Drop, M: Marks + Drop, P: Past + Drop> Engine<C, M, P> {
    ghost use Rattle.ssi_store.specs.Meaning.Courses.{Command as Do};
    ghost use Rattle.ssi_store.specs.Mirror.Commands.{answer_of};
    ghost use Rattle.ssi_store.specs.Mirror.Standing.{GoesOn};

    /// Reads the key. A key that the transaction has written is read from its own writes, and meets no other
    /// transaction.
    pub(crate) fn get(&mut self, session: Session, key: Key) -> Result<Reply, Refusal>
        ensures stands { GoesOn C.held M.marked P.recorded P.started self.old self.new (Do.Get session key) (answer_of result) }
    {
        laws_below();
        let open = open_of(&self.sessions, session)?;
        open.may_go_on()?;
        let txn = open.view.txn();
        let owns = open.view.owns(key);
        let (event, reply) = look_up(self.alloc, &open.view, &self.chains, key)?;
        if owns {
            return self.show_own(session, event, reply);
        }
        self.show(session, txn, key, key, event, reply)
    }
}

/// Returns the event and the reply of a get. One that finds no value is recorded as a scan of the key alone.
fn look_up<C: Chains>(
    alloc: Global,
    view: &View,
    chains: &C,
    key: Key,
) -> Result<(Event, Reply), AllocError>
    ensures event { IfOk result (λ r. event_of r.0 ≡ get_event (txn_of view.now) key (sees key view.now (C.held chains.now))) }
    ensures reply { IfOk result (λ r. reply_of r.1 ≡ got (shown (sees key view.now (C.held chains.now)))) }
{
    let txn = view.txn();
    let mut entries = Vec::new(alloc);
    if let Some(entry) = view.get(chains, key) {
        if let Content::Live(value) = entry.content {
            let event = Event::Read {
                txn,
                version: entry.version,
                value,
            };
            return Ok((event, Reply::Value { value }));
        }
        entries.push(entry)?;
    }
    let event = Event::Scan {
        txn,
        low: key,
        high: key,
        entries,
    };
    Ok((event, Reply::Absent))
}
