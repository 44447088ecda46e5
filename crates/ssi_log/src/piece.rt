//! A file that is read piece by piece, up to a zero.

ghost use Rattle.std.specs.Prelude.{◌≡◌, IfErr, ◌<◌, ◌≤◌, ◌+◌, ℕ, List, length, true, false, IsTrue, IfOk, OnOk};
ghost use Rattle.ssi_log.specs.Meaning.Texts.{HasNoZero};
ghost use Rattle.ssi_log.specs.Machinery.Pieces.{BeginsWith, IsTextOf, ReadingFails};

use crate::fault::LogFault;
use memchr::memchr;
use sqlite_disk::Disk;
use std::alloc::Global;

/// The most bytes of one read.
const PIECE: usize = 16384;

/// Reads what the file has before its first zero.
pub(crate) fn read_text<D: Disk>(disk: &mut D, alloc: Global) -> Result<Vec<u8>, LogFault>
    requires usable { IsTrue (D.is_usable disk.old) }
    ensures text { IfOk result (λ v. IsTrue (D.is_clean disk.new) → IsTextOf (D.seen disk.old) v.items) }
    ensures plain { IfOk result (λ v. HasNoZero v.items) }
    ensures faults { OnOk result (D.faults disk.new ≡ D.faults disk.old) }
    ensures usable { IsTrue (D.is_usable disk.new) }
    ensures seen { D.seen disk.new ≡ D.seen disk.old }
    ensures clean { IsTrue (D.is_clean disk.new) → IsTrue (D.is_clean disk.old) }
    ensures crash { (file : List ℕ) → D.may_leave disk.new file → D.may_leave disk.old file }
    ensures fault { IfErr result (ReadingFails (IsTrue (D.is_clean disk.new) → HasNoZero (D.seen disk.old))
        (D.faults disk.old) (D.faults disk.new)) }
{
    let len = disk.len().map_err(LogFault::Failed)?;
    let mut text = Vec::new(alloc);
    let mut piece = [0; PIECE];
    let mut at = 0;
    while at < len {
        let n = PIECE.min(len - at);
        if read_piece(disk, at, &mut piece[..n], &mut text)? {
            return Ok(text);
        }
        at += n;
    }
    Err(LogFault::NoEnd)
}

/// Fills the piece with what stands at this place of the file, and adds these bytes to the text, up to the first zero.
/// Returns whether there is one.
fn read_piece<D: Disk>(
    disk: &mut D,
    at: usize,
    piece: &mut [u8],
    text: &mut Vec<u8>,
) -> Result<bool, LogFault>
    requires usable { IsTrue (D.is_usable disk.old) }
    requires some { 0 < length piece.old }
    requires within { IsTrue (D.is_clean disk.old) → at + length piece.old ≤ length (D.seen disk.old) }
    requires size { length text.old.items ≡ at }
    requires plain { HasNoZero text.old.items }
    ensures usable { IsTrue (D.is_usable disk.new) }
    ensures fault { IfErr result (ReadingFails ⊥ (D.faults disk.old) (D.faults disk.new)) }
    ensures faults { OnOk result (D.faults disk.new ≡ D.faults disk.old) }
    ensures seen { D.seen disk.new ≡ D.seen disk.old }
    ensures clean { IsTrue (D.is_clean disk.new) → IsTrue (D.is_clean disk.old) }
    ensures crash { (file : List ℕ) → D.may_leave disk.new file → D.may_leave disk.old file }
    ensures plain { OnOk result (HasNoZero text.new.items) }
    ensures size { IfOk result (λ ended. ended ≡ false → length text.new.items ≡ at + length piece.old) }
    ensures begins { IfOk result (λ ended. ended ≡ false → IsTrue (D.is_clean disk.new)
        → BeginsWith (D.seen disk.old) text.old.items → BeginsWith (D.seen disk.old) text.new.items) }
    ensures ended { IfOk result (λ ended. ended ≡ true → IsTrue (D.is_clean disk.new)
        → BeginsWith (D.seen disk.old) text.old.items → IsTextOf (D.seen disk.old) text.new.items) }
{
    if let Err(error) = disk.read_at(at, piece) {
        return Err(LogFault::Failed(error));
    }
    match memchr(0, piece) {
        Some(end) => {
            text.extend_from_slice(&piece[..end])?;
            Ok(true)
        }
        None => {
            text.extend_from_slice(piece)?;
            Ok(false)
        }
    }
}
