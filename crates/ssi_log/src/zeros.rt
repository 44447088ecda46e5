//! Zeros in a file.

ghost use Rattle.std.specs.Prelude.{◌≡◌, ◌≤◌, ◌<◌, ◌^◌, ℕ, List, IsTrue, OnOk};
ghost use Rattle.sqlite_disk.specs.Disk.{CountsFault, Follows};
ghost use Rattle.ssi_log.specs.Machinery.Zeros.{HasZeros, IsSameBelow, IsZeroed};

use sqlite_disk::Disk;
use std::io;

/// The most bytes of one write.
const PIECE: usize = 16384;

/// Writes zeros from one place up to the other. If a write fails, some of them may be there.
pub(crate) fn write_zeros<D: Disk>(disk: &mut D, from: usize, to: usize) -> io::Result<()>
    requires usable { IsTrue (D.is_usable disk.old) }
    requires mixing { IsTrue (D.is_mixing disk.old) }
    requires ordered { from ≤ to }
    ensures usable { IsTrue (D.is_usable disk.new) }
    ensures faults { CountsFault result (D.faults disk.old) (D.faults disk.new) }
    ensures mixing { D.is_mixing disk.new ≡ D.is_mixing disk.old }
    ensures clean { D.is_clean disk.new ≡ D.is_clean disk.old }
    ensures same { IsSameBelow from (D.seen disk.old) (D.seen disk.new) }
    ensures zeros { OnOk result (from < to → HasZeros from to (D.seen disk.new)) }
    ensures crash { Follows (IsZeroed from) (D.may_leave disk.old) (D.may_leave disk.new) }
{
    let zeros = [0; PIECE];
    let mut at = from;
    while at < to {
        let n = PIECE.min(to - at);
        disk.write_at(at, &zeros[..n])?;
        at += n;
    }
    Ok(())
}
