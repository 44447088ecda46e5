//! Aborted reads and intermediate reads (Adya 1999, G1a and G1b).

ghost use Rattle.std.specs.Prelude.{◌≡◌, ◌<◌, [], true, length, slice_get, Some, MatchResult};
ghost use Rattle.std.specs.List.{filter_map, list_all, list_any};
ghost use Rattle.adya_values.specs.Meaning.Histories.{Event as EventValue};
ghost use Rattle.adya_values.specs.Mirror.Numbers.{has_seen, seen_entry};
ghost use Rattle.adya_values.specs.Meaning.Events.{txn_of, written};
ghost use Rattle.adya_values.specs.Computing.Faults.{entry_eq, was_written, bad_reads};
ghost use Rattle.adya_terms.specs.Machinery.EventIndex.{events_in, indexed, unfinished_in};
ghost use Rattle.adya_terms.specs.Machinery.Checks.{Names, IsFirst, refused, whole, read_faults};
ghost use Rattle.adya_terms.specs.Machinery.Reads.{is_good, fault_of, refusal_of};

use crate::event_index::EventIndex;
use crate::{CheckFault, Seen, Txn, Version};

/// What a committed transaction must not see.
#[derive(Clone, Copy)]
enum BadRead {
    /// A version of an aborted or unfinished transaction (G1a).
    Aborted,
    /// A version that another transaction wrote, and not last of the key (G1b).
    Intermediate,
}

impl BadRead {
    /// Returns whether the transaction may see the entry, which was written.
    fn allows(self, index: &EventIndex, txn: Txn, seen: &Seen) -> bool
        requires there { has_seen (events_in index.now) seen.now ≡ true }
        requires written { list_any (entry_eq (seen_entry (events_in index.now) seen.now)) (filter_map written (indexed index.now)) ≡ true }
        ensures { (e : EventValue) → txn_of e ≡ txn
            → result ≡ is_good self (indexed index.now) (unfinished_in index.now) e (seen_entry (events_in index.now) seen.now) }
    {
        match self {
            BadRead::Aborted => !index.is_aborted(seen.txn),
            BadRead::Intermediate => seen.txn == txn || index.is_last(seen),
        }
    }

    fn fault(self, line: usize, version: Version) -> CheckFault
        ensures { result ≡ refusal_of self line version }
    {
        match self {
            BadRead::Aborted => CheckFault::AbortedRead { line, version },
            BadRead::Intermediate => CheckFault::IntermediateRead { line, version },
        }
    }
}

/// Returns the first version that the event at the index sees and must not, if the event's transaction is committed. All
/// that is seen was written.
fn first_bad(kind: BadRead, index: &EventIndex, at: usize) -> Option<Version>
    requires within { at < length (indexed index.now) }
    requires written { let all = indexed index.now in list_all (was_written all) all ≡ true }
    ensures { let all = indexed index.now in
        (e : EventValue)
        → slice_get all at ≡ Some e
        → IsFirst (refused (is_good kind all (unfinished_in index.now)) all e) result }
{
    let events = index.events();
    let txn = events.txn_at(at);
    if !index.has_committed(txn) {
        return None;
    }
    let observed = events.observed(at);
    for seen in observed.seen() {
        if !kind.allows(index, txn, seen) {
            return Some(events.version(seen.version()));
        }
    }
    None
}

/// Returns the first event of a committed transaction that sees what it must not, if there is one. All that is seen was
/// written.
fn check_kind(kind: BadRead, index: &EventIndex) -> Result<(), CheckFault>
    requires written { let all = indexed index.now in list_all (was_written all) all ≡ true }
    ensures { let all = indexed index.now in
        let faults = bad_reads (is_good kind all (unfinished_in index.now)) (fault_of kind) all 2 all in
        MatchResult result (λ u. faults ≡ []) (Names faults) }
{
    for i in 0..index.len() {
        if let Some(version) = first_bad(kind, index, i) {
            return Err(kind.fault(i + 2, version));
        }
    }
    Ok(())
}

/// Looks for the first aborted read, and then for the first intermediate read. All that is seen was written.
pub(crate) fn check_reads(index: &EventIndex) -> Result<(), CheckFault>
    requires written { let all = indexed index.now in list_all (was_written all) all ≡ true }
    ensures { let faults = read_faults (whole (indexed index.now) (unfinished_in index.now) [] []) in
        MatchResult result (λ u. faults ≡ []) (Names faults) }
{
    if let Err(fault) = check_kind(BadRead::Aborted, index) {
        return Err(fault);
    }
    check_kind(BadRead::Intermediate, index)
}
