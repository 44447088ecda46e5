//! Scan and limited scan.

ghost use Rattle.std.specs.Prelude.{◌≡◌, map};
ghost use Rattle.adya_values.specs.Mirror.Events.{final_of};
ghost use Rattle.std.specs.Int.NonZero.{non_zero_u16_get};
ghost use Rattle.ssi_snapshot.specs.Meaning.Reached.{reached};

use crate::below::laws_below;
use crate::engine::Engine;
use crate::past::Past;
use crate::rows::rows_of;
use crate::sessions::open_of;
use crate::{Refusal, Reply, Session};
use adya_values::{Event, FinalPair, Key};
use ssi_reads::Marks;
use ssi_versions::Chains;
use std::num::NonZeroU16;

impl<C: Chains + Drop, M: Marks + Drop, P: Past + Drop> Engine<C, M, P> {
    ghost use Rattle.ssi_store.specs.Meaning.Courses.{Command as Do};
    ghost use Rattle.ssi_store.specs.Mirror.Commands.{answer_of};
    ghost use Rattle.ssi_store.specs.Mirror.Standing.{GoesOn};

    /// Reads the keys from `low` to `high`, both included.
    pub(crate) fn scan(&mut self, session: Session, low: Key, high: Key) -> Result<Reply, Refusal>
        ensures stands { GoesOn C.held M.marked P.recorded P.started self.old self.new (Do.Scan session low high) (answer_of result) }
    {
        laws_below();
        let open = open_of(&self.sessions, session)?;
        if high < low {
            return Err(Refusal::Range);
        }
        open.may_go_on()?;
        let txn = open.view.txn();
        let entries = open.view.scan(&self.chains, low, high)?;
        let rows = rows_of(self.alloc, entries.as_slice())?;
        let event = Event::Scan {
            txn,
            low,
            high,
            entries,
        };
        self.show(session, txn, low, high, event, Reply::Rows { rows })
    }

    /// Reads the keys from `low` to `high` up to a number of visible ones. If so many are found, the scan looked only as far
    /// as the last of them.
    pub(crate) fn scan_first(
        &mut self,
        session: Session,
        low: Key,
        high: Key,
        limit: NonZeroU16,
    ) -> Result<Reply, Refusal>
        ensures stands { GoesOn C.held M.marked P.recorded P.started self.old self.new (Do.ScanFirst session low high (non_zero_u16_get limit)) (answer_of result) }
    {
        laws_below();
        let n = limit.get();
        let open = open_of(&self.sessions, session)?;
        if high < low {
            return Err(Refusal::Range);
        }
        open.may_go_on()?;
        let txn = open.view.txn();
        let entries = open.view.scan_first(&self.chains, low, high, n)?;
        let rows = rows_of(self.alloc, entries.as_slice())?;
        let last = reached(high, n, rows.as_slice());
        let event = Event::Scan {
            txn,
            low,
            high: last,
            entries,
        };
        self.show(session, txn, low, last, event, Reply::Rows { rows })
    }
}

/// Returns how far a limited scan looked that found these rows.
fn reached(high: Key, n: u16, rows: &[FinalPair]) -> Key
    ensures { result ≡ reached high n (map final_of rows.now) }
{
    if rows.len() != usize::from(n) {
        return high;
    }
    match rows.last() {
        Some(row) => row.key,
        None => high,
    }
}
