//! The certificates of safe histories.

ghost use Rattle.std.specs.Prelude.{IfOk};
ghost use Rattle.adya_values.specs.Mirror.Histories.{history_of, serial_txns};
ghost use Rattle.adya_values.specs.Clauses.Acceptance.{IsAccepted};
ghost use Rattle.adya_text.specs.Meaning.Texts.{history_text, serial_text};
ghost use Rattle.adya_audit.specs.Clauses.TextVerdicts.{AreAccepted};
ghost use Rattle.ssi_store.specs.Mirror.Finished.{recorded_in};
ghost use Rattle.snapshot_histories.specs.Clauses.Snapshots.{IsSafeHistory};

use crate::laws::safe_histories_have_no_cycle;
use adya_audit::laws::accepted_have_texts;
use adya_dsg::{Found, order};
use adya_terms::{CheckFault, Checked};
use adya_text::laws::history_has_text;
use adya_values::{History, Serial};
use ssi_store::Finished;
use std::alloc::{AllocError, Global};

/// Returns a certificate with which the history of a store is accepted, whether the store has ended or was dumped;
/// `AllocError` if memory runs out. So whatever a store was asked to do, its history is serializable, and this says in
/// which order. The texts of the history and of the certificate are accepted too: `run_audit` of `adya_audit` says yes to
/// them.
pub fn certify(alloc: Global, finished: &Finished) -> Result<Serial, AllocError>
    ensures accepted { IfOk result (λ s. IsAccepted (recorded_in finished.now) (serial_txns s)) }
    ensures texts { IfOk result (λ s. AreAccepted (history_text (recorded_in finished.now)) (serial_text (serial_txns s))) }
{
    certified(alloc, finished.history())
}

/// Returns a certificate with which the history is accepted, the one that [`order`] finds; `AllocError` if memory runs
/// out. The history is a checked snapshot history without a dangerous structure, so it has no fault and no cycle. The
/// texts of both are accepted too.
pub fn certified(alloc: Global, history: &History) -> Result<Serial, AllocError>
    requires { ∥ IsSafeHistory (history_of history.now) ∥₁ }
    ensures accepted { IfOk result (λ s. IsAccepted (history_of history.now) (serial_txns s)) }
    ensures texts { IfOk result (λ s. AreAccepted (history_text (history_of history.now)) (serial_text (serial_txns s))) }
{
    safe_histories_have_no_cycle();
    accepted_have_texts();
    history_has_text(history);
    let checked = match Checked::of(alloc, history) {
        Ok(checked) => checked,
        Err(CheckFault::Memory) => return Err(AllocError),
        Err(_) => unreachable!(),
    };
    match order(alloc, &checked)? {
        Found::Serial(serial) => Ok(serial),
        Found::Cycle(_) => unreachable!(),
    }
}
