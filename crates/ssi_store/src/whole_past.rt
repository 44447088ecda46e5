//! A past that is kept.

ghost use Rattle.std.specs.Prelude.{◌≡◌, [], ◌<◌, nat_le, vec_len, vec_capacity};
ghost use Rattle.std.proofs.lemmas.Bool.{le-leb, leb-true};
ghost use Rattle.std.proofs.Math.Nat.{le_trans};
ghost use Rattle.ssi_recorder.specs.Mirror.{events_of, places_of, HasRoom};
ghost use Rattle.ssi_store.specs.Mirror.Pasts.{HasEvents, HasStarts};

use crate::past::Past;
use adya_values::{Event, History, Txn};
use ssi_recorder::Recorder;
use std::alloc::{AllocError, Global};

/// All events, and all transactions with their snapshots.
#[derive(Drop)]
pub(crate) struct WholePast {
    pub recorder: Recorder,
    pub snapshots: Vec<(Txn, u64)>,
}

impl WholePast {
    /// The past of a store that has none. Takes no memory.
    pub fn new(alloc: Global) -> WholePast
        ensures events { events_of result.recorder ≡ [] }
        ensures places { places_of result.recorder ≡ 0 }
        ensures snapshots { result.snapshots.items ≡ [] }
    {
        WholePast {
            recorder: Recorder::new(alloc),
            snapshots: Vec::new(alloc),
        }
    }
}

impl WholePast {
    ghost use Rattle.std.specs.Prelude.{map, ◌++◌, IfOk, IfErr};
    ghost use Rattle.adya_values.specs.Meaning.Histories.{Abort};
    ghost use Rattle.adya_values.specs.Mirror.Histories.{history_of};
    ghost use Rattle.adya_values.specs.declared.edition.Edition.TheVariants.{One};
    ghost use Rattle.ssi_recorder.specs.Meaning.Recorded.{history_of_events};
    ghost use Rattle.ssi_recorder.specs.Mirror.{IsAsBefore};

    /// Returns the history, with an abort at its end for each of these transactions, and all transactions with their
    /// snapshots. Hands the past back as it was if memory runs out.
    pub fn finish(
        mut self,
        active: &[Txn],
    ) -> Result<(History, Vec<(Txn, u64)>), (WholePast, AllocError)>
        ensures history { IfOk result (λ r. history_of r.0 ≡ history_of_events One [] (events_of self.recorder ++ map Abort active.now)) }
        ensures snapshots { IfOk result (λ r. r.1.items ≡ self.snapshots.items) }
        ensures err { IfErr result (λ e. IsAsBefore self.recorder e.0.recorder × (e.0.snapshots.items ≡ self.snapshots.items)) }
    {
        match self.recorder.finish(active) {
            Ok(history) => Ok((history, self.snapshots)),
            Err((recorder, e)) => {
                self.recorder = recorder;
                Err((self, e))
            }
        }
    }
}

impl Past for WholePast {
    ghost recorded = { HasEvents };

    ghost started = { HasStarts };

    ghost has_places = { λ p n. nat_le n (places_of p.recorder) };

    ghost can_begin = { λ p. vec_len p.snapshots < vec_capacity p.snapshots };

    ghost has_room = { λ p n. HasRoom p.recorder n };

    fn open(&mut self) -> Result<(), AllocError> {
        self.snapshots.reserve(1)?;
        self.recorder.open()
    }

    fn begin(&mut self, txn: Txn, snapshot: u64) {
        self.snapshots.push_reserved((txn, snapshot));
    }

    fn room(&mut self, entries: usize) -> Result<(), AllocError> {
        self.recorder.room(entries)
    }

    fn event(&mut self, event: Event) {
        self.recorder.event(event);
    }

    fn end(&mut self, end: Event) {
        self.recorder.end(end);
    }

    ghost fewer = { λ p m n less kept. le-leb m (places_of p.recorder) (le_trans less (leb-true n (places_of p.recorder) kept)) };
}
