//! The first lines of a new segment.

ghost use Rattle.std.specs.Prelude.{◌≡◌, ◌≤◌, List, ℕ, OnOk, IfErr};
ghost use Rattle.std.specs.List.{All};
ghost use Rattle.adya_line.specs.Meaning.Lines.{IsPlain};
ghost use Rattle.adya_text.specs.Meaning.Texts.{with_ends};
ghost use Rattle.ssi_store.specs.Meaning.Courses.{New};
ghost use Rattle.ssi_log.specs.Meaning.Texts.{HasNoZero};
ghost use Rattle.ssi_log.specs.Machinery.Standing.{room_of};
ghost use Rattle.ssi_durable.specs.Clauses.Journals.{HasAll};
ghost use Rattle.ssi_durable.specs.Clauses.Recovery.{IsReplayed, LoadFails};

use crate::RecoveryFault;
use crate::replaying::replay;
use sqlite_disk::Disk;
use ssi_log::Log;
use ssi_store::AnyStore;

/// Carries out the lines of this text, the first ones of a new segment, on a new store, and writes them to the log, whose file
/// is empty. All of them are on the disk then, and there is room for so many bytes more.
///
/// After `Replay` the file is as it was. `Resume` if it can't be written: then it is of no use any more. `Read` never comes.
pub fn load<S: AnyStore, D: Disk>(
    store: &mut S,
    log: &mut Log<D>,
    number: u32,
    text: &[u8],
    ahead: usize,
) -> Result<(), RecoveryFault>
    ensures loaded { (lines : List (List ℕ)) → All IsPlain lines → text.now ≡ with_ends lines → HasNoZero text.now
        → S.is_at store.old (New 1)
        → OnOk result (IsReplayed S.is_at number lines store.new × HasAll log.new lines) }
    ensures room { OnOk result (ahead ≤ room_of log.new) }
    ensures fault { S.is_at store.old (New 1) → IfErr result (LoadFails log.old log.new number text.now ahead) }
{
    if let Err(fault) = replay(store, number, text) {
        return Err(RecoveryFault::Replay(fault));
    }
    if let Err(fault) = log.resume(text, ahead) {
        return Err(RecoveryFault::Resume(fault));
    }
    Ok(())
}
