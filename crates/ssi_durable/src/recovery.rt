//! Recovery of a log.

ghost use Rattle.std.specs.Prelude.{◌≡◌, ◌≤◌, ℕ, List, length, IsTrue, IfOk, IfErr, OnOk};
ghost use Rattle.sqlite_disk.specs.Disk.{Only};
ghost use Rattle.ssi_store.specs.Meaning.Courses.{New};
ghost use Rattle.ssi_log.specs.Meaning.Texts.{text_of};
ghost use Rattle.ssi_log.specs.Machinery.Standing.{disk_of, room_of};
ghost use Rattle.ssi_durable.specs.Meaning.Lines.{loads_len, torn, whole_lines};
ghost use Rattle.ssi_durable.specs.Clauses.Journals.{HasAll};
ghost use Rattle.ssi_durable.specs.Clauses.Recovery.{IsReplayed, KeepsLines, RecoveryFails, WasRead};

use crate::RecoveryFault;
use crate::replaying::replay;
use sqlite_disk::Disk;
use ssi_log::Log;
use ssi_store::AnyStore;
use std::alloc::Global;

/// What a recovery has found.
#[derive(Clone, Copy, Debug, PartialEq, Eq)]
pub struct Recovered {
    /// How many whole lines the log has, with the header and comments.
    pub lines: usize,
    /// How many bytes followed the last line feed, and are gone.
    pub torn: usize,
    /// How many bytes its loads have: the lines up to the first `# loaded`. 0 if there is no such line.
    pub loaded: usize,
}

/// Carries out the whole lines of a segment on a new store, and opens its log with exactly these lines, all of them on the
/// disk, with room for so many bytes more. Each line is read once, and none is copied.
///
/// `Read` and `Replay` leave the file as it was: of a damaged log nothing is changed. Whatever is returned, a crash leaves
/// the whole lines that there were, so the call may be made again after it, with another new store: after a fault the store
/// has carried out some of the lines.
pub fn recover<S: AnyStore, D: Disk>(
    alloc: Global,
    store: &mut S,
    log: &mut Log<D>,
    number: u32,
    ahead: usize,
) -> Result<Recovered, RecoveryFault>
    ensures recovered { S.is_at store.old (New 1) → IfOk result (λ r. (text : List ℕ) × WasRead log.old log.new text
        × IsReplayed S.is_at number (whole_lines text) store.new × HasAll log.new (whole_lines text)
        × (r.lines ≡ length (whole_lines text)) × (r.torn ≡ length (torn text)) × (r.loaded ≡ loads_len (whole_lines text))) }
    ensures room { OnOk result (ahead ≤ room_of log.new) }
    ensures fault { S.is_at store.old (New 1) → IfErr result (RecoveryFails log.old log.new number ahead) }

    // Of a file that was just opened, the whole lines stay whenever a crash comes.
    ensures crash { IsTrue (D.is_clean (disk_of log.new)) → Only (D.seen (disk_of log.old)) (D.may_leave (disk_of log.old))
        → KeepsLines (D.may_leave (disk_of log.new)) (text_of (D.seen (disk_of log.old))) }
{
    let text = match log.read(alloc) {
        Ok(text) => text,
        Err(fault) => return Err(RecoveryFault::Read(fault)),
    };
    let replayed = match replay(store, number, &text) {
        Ok(replayed) => replayed,
        Err(fault) => return Err(RecoveryFault::Replay(fault)),
    };
    if let Err(fault) = log.resume(&text[..replayed.len], ahead) {
        return Err(RecoveryFault::Resume(fault));
    }
    Ok(Recovered {
        lines: replayed.lines,
        torn: text.len() - replayed.len,
        loaded: replayed.loaded,
    })
}
