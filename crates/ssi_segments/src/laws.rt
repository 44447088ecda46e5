//! Laws of segments, each proved as the contract of a function that does nothing.

ghost use Rattle.ssi_segments.specs.Laws.{SegmentsAreSerial};

use adya_laws::accepted_agrees;
use ssi_recorder::laws::commits_are_listed;
use ssi_store::laws::{dumped_are_covered, finals_are_contents, finished_are_covered};

/// Let the first segment begin with what a map holds, and each of the others with what the one before has left. Let the
/// history of each be accepted with a certificate. Take the certificates one after the other, each without the transactions
/// that load. Then each committed transaction that doesn't load stands there once. Run one at a time in this order, beginning
/// with the map, they give every recorded read and scan, and the contents after the last segment.
pub fn segments_are_serial()
    ensures { SegmentsAreSerial }
{
    accepted_agrees();
    commits_are_listed();
    dumped_are_covered();
    finished_are_covered();
    finals_are_contents();
}
