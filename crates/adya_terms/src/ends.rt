//! M6: each transaction with an event has ended or is listed as unfinished, and none is both.

ghost use Rattle.std.specs.Prelude.{◌≡◌, ◌^◌, ◌<◌, ◌+◌, [], Some, length, slice_get, MatchResult};
ghost use Rattle.std.specs.List.{list_all};
ghost use Rattle.adya_values.specs.Meaning.Histories.{Event as EventValue};
ghost use Rattle.adya_values.specs.Meaning.Events.{txn_of};
ghost use Rattle.adya_values.specs.Computing.Faults.{unfinished_faults};
ghost use Rattle.adya_terms.specs.Machinery.EventIndex.{indexed, unfinished_in, is_done};
ghost use Rattle.adya_terms.specs.Machinery.Checks.{Names};

use crate::event_index::EventIndex;
use crate::{CheckFault, Rule};

/// Returns the line of the first unfinished transaction that has ended, if there is one. The line of the first
/// unfinished transaction is `first`.
pub(crate) fn check_unfinished(index: &EventIndex, first: usize) -> Result<(), CheckFault>
    requires near { first + length (unfinished_in index.now) < 2 ^ 64 }
    ensures { let found = unfinished_faults (indexed index.now) first (unfinished_in index.now) in
        MatchResult result (λ u. found ≡ []) (Names found) }
{
    for (i, txn) in index.unfinished.iter().enumerate() {
        if index.has_ended(*txn) {
            return Err(CheckFault::Malformed {
                line: first + i,
                rule: Rule::M6,
            });
        }
    }
    Ok(())
}

/// Returns whether the transaction of the event at the index has ended or is unfinished.
fn is_done(index: &EventIndex, at: usize) -> bool
    requires { at < length (indexed index.now) }
    ensures { (e : EventValue) → slice_get (indexed index.now) at ≡ Some e → result ≡ is_done index.now (txn_of e) }
{
    let txn = index.events().txn_at(at);
    index.has_ended(txn) || index.is_unfinished(txn)
}

/// Returns whether each event's transaction has ended or is unfinished.
pub(crate) fn all_end(index: &EventIndex) -> bool
    ensures { result ≡ list_all (λ e. is_done index.now (txn_of e)) (indexed index.now) }
{
    for i in 0..index.len() {
        if !is_done(index, i) {
            return false;
        }
    }
    true
}
