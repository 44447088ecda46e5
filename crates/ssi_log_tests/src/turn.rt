//! What a server does with its log.

ghost use Rattle.std.specs.Prelude.{◌≡◌, ◌≤◌, ◌++◌, ℕ, List, length, IsTrue, IfOk, OnOk};
ghost use Rattle.sqlite_disk.specs.Disk.{Only};
ghost use Rattle.ssi_log.specs.Meaning.Crashes.{Keeps};
ghost use Rattle.ssi_log.specs.Meaning.Texts.{HasNoZero, text_of};
ghost use Rattle.ssi_log.specs.Machinery.Standing.{HasText, disk_of, room_of, synced_of};

use sqlite_disk::Disk;
use ssi_log::laws::open_logs_keep_their_text;
use ssi_log::{Log, LogFault};
use std::alloc::Global;

/// How many zeros are put ahead at a time, at least.
pub const AHEAD: usize = 64;

/// Adds what the lines of a turn need, and waits until it is on the disk. Whatever comes of it, a crash since the call began
/// leaves what was synced before, and a front of the text with what was added.
pub fn turn<D: Disk>(log: &mut Log<D>, bytes: &[u8]) -> Result<(), LogFault>
    ensures text { (text : List ℕ) → HasText log.old text → HasNoZero bytes.now
        → OnOk result (HasText log.new (text ++ bytes.now) × (synced_of log.new ≡ length (text ++ bytes.now))) }
    ensures crash { (text : List ℕ) → HasText log.old text → HasNoZero bytes.now
        → Keeps (D.may_leave (disk_of log.new)) (text ++ bytes.now) (synced_of log.old) }
{
    make_room(log, bytes.len())?;
    log.append(bytes)?;
    log.sync()
}

/// Puts zeros ahead if there is no room for so many bytes.
fn make_room<D: Disk>(log: &mut Log<D>, bytes: usize) -> Result<(), LogFault>
    ensures room { OnOk result (bytes ≤ room_of log.new) }
    ensures text { (text : List ℕ) → HasText log.old text → OnOk result (HasText log.new text) }
    ensures synced { (text : List ℕ) → HasText log.old text → OnOk result (synced_of log.old ≤ synced_of log.new) }
    ensures crash { (text : List ℕ) → HasText log.old text
        → Keeps (D.may_leave (disk_of log.new)) text (synced_of log.old) }
{
    open_logs_keep_their_text(log);
    if log.room() >= bytes {
        return Ok(());
    }
    log.extend(bytes.max(AHEAD))
}

/// Opens a log with the text that its file has, and returns it. Whatever comes of it, a crash since the call began leaves that
/// text, if nothing else was left before.
pub fn restart<D: Disk>(log: &mut Log<D>, alloc: Global) -> Result<Vec<u8>, LogFault>
    ensures text { IfOk result (λ v. HasText log.new v.items × (synced_of log.new ≡ length v.items)) }
    ensures read { IfOk result (λ v. IsTrue (D.is_clean (disk_of log.new)) → text_of (D.seen (disk_of log.old)) ≡ v.items) }
    ensures crash { Only (D.seen (disk_of log.old)) (D.may_leave (disk_of log.old)) → IsTrue (D.is_clean (disk_of log.new))
        → Keeps (D.may_leave (disk_of log.new)) (text_of (D.seen (disk_of log.old))) (length (text_of (D.seen (disk_of log.old)))) }
{
    let text = log.read(alloc)?;
    log.resume(&text, AHEAD)?;
    Ok(text)
}
