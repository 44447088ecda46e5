//! A text at the front of a file that had it before.

ghost use Rattle.std.specs.Prelude.{◌≡◌, ◌<◌, ◌+◌, ◌++◌, ℕ, List, length, IsTrue, OnOk};
ghost use Rattle.sqlite_disk.specs.Disk.{CountsFault, Only};
ghost use Rattle.ssi_log.specs.Meaning.Crashes.{Finds};
ghost use Rattle.ssi_log.specs.Machinery.Zeros.{IsOver, LeavesOver};

use crate::zeros::write_zeros;
use sqlite_disk::Disk;
use std::io;

/// Writes the text at the front of the file, and zeros behind it up to this place, and waits until they are on the disk.
pub(crate) fn settle<D: Disk>(disk: &mut D, text: &[u8], room: usize) -> io::Result<()>
    requires usable { IsTrue (D.is_usable disk.old) }
    requires mixing { IsTrue (D.is_mixing disk.old) }
    requires some { length text.now < room }
    ensures usable { OnOk result (IsTrue (D.is_usable disk.new)) }
    ensures faults { CountsFault result (D.faults disk.old) (D.faults disk.new) }
    ensures clean { D.is_clean disk.new ≡ D.is_clean disk.old }
    ensures seen { OnOk result (IsOver text.now (length text.now) room (D.seen disk.new)) }
    ensures only { OnOk result (Only (D.seen disk.new) (D.may_leave disk.new)) }
    ensures crash { (torn : List ℕ) → Finds (D.seen disk.old) (D.may_leave disk.old) (text.now ++ torn)
        → LeavesOver (D.may_leave disk.new) (text.now ++ torn) (length text.now) (length (text.now ++ torn) + 1) }
{
    disk.write_at(0, text)?;
    write_zeros(disk, text.len(), room)?;
    disk.sync()
}
