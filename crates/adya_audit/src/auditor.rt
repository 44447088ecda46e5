//! The verdict on a history and a certificate.

ghost use Rattle.std.specs.Prelude.{◌≡◌, ◌↔◌, IfOk};
ghost use Rattle.adya_values.specs.Mirror.Histories.{history_of, serial_txns};
ghost use Rattle.adya_values.specs.Clauses.Acceptance.{IsAccepted};
ghost use Rattle.adya_audit.specs.Computing.Verdicts.{plain_verdict, verdict_of};
ghost use Rattle.adya_audit.specs.Meaning.Serializable.{IsSerializableBy};
ghost use Rattle.adya_audit.specs.Machinery.Refusals.{Refuses};

use crate::Verdict;
use crate::judge::judge;
use crate::laws::{accepted_is_serializable, yes_iff_accepted};
use adya_terms::Checked;
use adya_values::{CheckFault, History, Serial};
use std::alloc::{AllocError, Global};

/// Returns the verdict on a history and a certificate. It is the first of these that applies: the first fault of the
/// history, by kind; a certificate that doesn't list exactly the committed transactions; the first edge that goes
/// backward in the certificate; yes. `AllocError` if memory runs out, which says nothing of either.
pub fn audit(alloc: Global, history: &History, serial: &Serial) -> Result<Verdict, AllocError>
    ensures verdict { IfOk result (λ v. plain_verdict v ≡ verdict_of (history_of history.now) (serial_txns serial.now)) }
    ensures yes { IfOk result (λ v. (v ≡ Verdict.Yes) ↔ IsAccepted (history_of history.now) (serial_txns serial.now)) }
    ensures promise { IfOk result (λ v. v ≡ Verdict.Yes
        → IsSerializableBy (history_of history.now) (serial_txns serial.now)) }
{
    yes_iff_accepted();
    accepted_is_serializable();
    verdict(alloc, history, serial)
}

fn verdict(alloc: Global, history: &History, serial: &Serial) -> Result<Verdict, AllocError>
    ensures { IfOk result (λ v. plain_verdict v ≡ verdict_of (history_of history.now) (serial_txns serial.now)) }
{
    match Checked::of(alloc, history) {
        Ok(checked) => judge(alloc, &checked, serial),
        Err(fault) => refusal(fault),
    }
}

/// Returns the verdict that names the fault of a history. `AllocError` if the check ran out of memory.
pub(crate) fn refusal(fault: CheckFault) -> Result<Verdict, AllocError>
    ensures { IfOk result (λ v. Refuses fault (plain_verdict v)) }
{
    match fault {
        CheckFault::Malformed { line, rule } => Ok(Verdict::Malformed { line, rule }),
        CheckFault::AbortedRead { line, version } => Ok(Verdict::AbortedRead { line, version }),
        CheckFault::IntermediateRead { line, version } => Ok(Verdict::IntermediateRead {
            line,
            version,
        }),
        CheckFault::Memory => Err(AllocError),
    }
}
