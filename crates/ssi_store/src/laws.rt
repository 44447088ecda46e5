//! Laws of courses, each proved as the contract of a function whose body does nothing but call the laws of the store's
//! parts.

ghost use Rattle.ssi_store.specs.Laws.{FinishedAreCovered, OrderedFinishedAreCovered, DumpedAreCovered, OrderedDumpedAreCovered, FinishedRecord, DumpedRecord, CallsAreAllowed, OpenSnapshotsAreHeld, OrderedRefusesNoMore, CollectionsChangeNoReply, UnsafeNamesSmallest, OrderedUnsafeNamesSmallest, SessionsAreInOrder, NoPivotStands, NoOrderedPivotStands, ConflictIsLeast, ScansListSeen, OpenAreCounted, FinalsAreContents, NewTxnsSeeContents};

use ssi_conflict::laws::{ordered_pivots_are_named, pivots_are_named, quiet_calls_make_no_pair};
use ssi_recorder::laws::commits_are_listed;
use ssi_versions::laws::held_shows;

/// The history of a course that is over is a checked snapshot history without a dangerous structure, by either rule,
/// and each of its anti-dependencies between concurrent transactions is a pair. So a tracker meets all conflicts that
/// there are (Cahill, Röhm and Fekete 2008, section 3), and the history is serializable.
pub fn finished_are_covered()
    ensures two_pair { FinishedAreCovered }
    ensures commit_order { OrderedFinishedAreCovered }
{
    pivots_are_named();
    ordered_pivots_are_named();
    quiet_calls_make_no_pair();
    commits_are_listed();
}

/// The same holds of the history of a course so far. So a store can be asked for a certificate at any time.
pub fn dumped_are_covered()
    ensures two_pair { DumpedAreCovered }
    ensures commit_order { OrderedDumpedAreCovered }
{
    pivots_are_named();
    ordered_pivots_are_named();
    quiet_calls_make_no_pair();
    commits_are_listed();
}

/// The history of a course records it, whatever names the pivots. So a history is no invention: its events are the
/// steps that were answered, in their order.
pub fn courses_are_recorded()
    ensures finished { FinishedRecord }
    ensures so_far { DumpedRecord }
{}

/// The store keeps to what its tracker and its versions ask of their callers. So all of their laws hold of every
/// course.
pub fn calls_are_allowed()
    ensures { CallsAreAllowed }
{}

/// What the snapshot of an open transaction sees is held, whatever was collected. So a collection never takes away a
/// version that a transaction may still read.
pub fn open_snapshots_are_held()
    ensures { OpenSnapshotsAreHeld }
{
    held_shows();
}

/// What was collected changes no reply but those of collect and stat. So a collection is safe at any time.
pub fn collections_change_no_reply()
    ensures { CollectionsChangeNoReply }
{}

/// Unsafe names the smallest of the pivots that would stand if the command were carried out, by either rule. So no
/// transaction is refused without a pivot.
pub fn unsafe_names_smallest()
    ensures two_pair { UnsafeNamesSmallest }
    ensures commit_order { OrderedUnsafeNamesSmallest }
{
    pivots_are_named();
    ordered_pivots_are_named();
    quiet_calls_make_no_pair();
}

/// What the commit-order rule answers Unsafe the two-pair rule does too, after any course, and with the same pivot or a
/// smaller one if the numbers of the transactions rise. So to look at the order of the commits only saves transactions
/// (Ports and Grittner 2012, section 3.3).
pub fn ordered_refuses_no_more()
    ensures { OrderedRefusesNoMore }
{}

/// After each command no pivot stands, by either rule. So a command that makes no pair is never Unsafe.
pub fn no_pivot_stands()
    ensures two_pair { NoPivotStands }
    ensures commit_order { NoOrderedPivotStands }
{
    pivots_are_named();
    ordered_pivots_are_named();
    quiet_calls_make_no_pair();
}

/// Each open transaction is that of exactly one session, and no other transaction is a session's. The next transaction
/// number is above all earlier ones. So what is known of a transaction can be kept with its session.
pub fn sessions_are_in_order()
    ensures { SessionsAreInOrder }
{}

/// The key of a conflict is the smallest one that the transaction wrote and another one has committed since it
/// began. So only the keys of the transaction itself can be in conflict.
pub fn conflict_is_least()
    ensures { ConflictIsLeast }
{}

/// A scan lists of each key of its range what its transaction sees of it, by rising key. So it misses no key (Adya
/// 1999, section 3.1.3).
pub fn scans_list_seen()
    ensures { ScansListSeen }
{}

/// The tracker counts as many open transactions as the course has. So stat counts the transactions of the sessions.
pub fn open_are_counted()
    ensures { OpenAreCounted }
{}

/// The finals of a course's history are what the store holds after it, whether the history is that of a course that is over
/// or the one so far. So a store that begins with the finals of another one goes on with its contents.
pub fn finals_are_contents()
    ensures { FinalsAreContents }
{
    commits_are_listed();
}

/// A transaction that begins now sees of each range the rows that the store holds of it, and no others. So the contents are
/// what the next transaction sees.
pub fn new_txns_see_contents()
    ensures { NewTxnsSeeContents }
{}
