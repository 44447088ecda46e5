//! A law of logs, proved as the contract of a function whose body does nothing.

ghost use Rattle.std.specs.Prelude.{◌≤◌, ℕ, List, length};
ghost use Rattle.ssi_log.specs.Meaning.Crashes.{Keeps};
ghost use Rattle.ssi_log.specs.Meaning.Texts.{HasNoZero};
ghost use Rattle.ssi_log.specs.Machinery.Standing.{HasText, disk_of, synced_of};

use crate::Log;
use sqlite_disk::Disk;

/// Whenever a crash comes while a log is open, the file has a front of its text, with all that was synced. No byte of the text
/// is zero.
pub fn open_logs_keep_their_text<D: Disk>(log: &Log<D>)
    ensures kept { (text : List ℕ) → HasText log.now text → Keeps (D.may_leave (disk_of log.now)) text (synced_of log.now) }
    ensures synced { (text : List ℕ) → HasText log.now text → synced_of log.now ≤ length text }
    ensures plain { (text : List ℕ) → HasText log.now text → HasNoZero text }
{
    let _log = log;
}
