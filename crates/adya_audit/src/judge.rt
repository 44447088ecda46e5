//! The verdict on a certificate of a checked history.

ghost use Rattle.std.specs.Prelude.{◌≡◌, IfOk};
ghost use Rattle.adya_terms.specs.Clauses.Checked.{checked_history};
ghost use Rattle.adya_values.specs.Mirror.Histories.{serial_txns};
ghost use Rattle.adya_audit.specs.Computing.Verdicts.{plain_verdict, certificate_verdict};

use crate::Verdict;
use crate::exactly_the_committed::lists_the_committed;
use adya_dsg::first_backward;
use adya_terms::Checked;
use adya_values::Serial;
use std::alloc::{AllocError, Global};

/// Returns the verdict on a certificate of a checked history: yes, that it doesn't list exactly the committed
/// transactions, or the first edge that goes backward in it. `AllocError` if memory runs out.
pub(crate) fn judge(
    alloc: Global,
    checked: &Checked,
    serial: &Serial,
) -> Result<Verdict, AllocError>
    ensures { IfOk result (λ v. plain_verdict v
        ≡ certificate_verdict (checked_history checked.now) (serial_txns serial.now)) }
{
    if !lists_the_committed(alloc, checked, serial.txns())? {
        return Ok(Verdict::NotTheCommitted);
    }
    match first_backward(alloc, checked, serial)? {
        None => Ok(Verdict::Yes),
        Some(edge) => Ok(Verdict::Backward { edge }),
    }
}
