//! A text in a file.

ghost use Rattle.std.specs.Prelude.{◌≡◌, ◌≤◌, ◌<◌, ◌+◌, ◌-◌, ◌^◌, ◌++◌, ℕ, max, MatchOption, IsErr, IsErrOf, List, length, true, IsTrue, IfOk, IfErr, OnOk};
ghost use Rattle.sqlite_disk.specs.Disk.{Only};
ghost use Rattle.ssi_log.specs.Meaning.Crashes.{Finds, Keeps};
ghost use Rattle.ssi_log.specs.Meaning.Texts.{HasNoZero};

use crate::fault::LogFault;
use crate::piece::read_text;
use crate::settling::settle;
use crate::zeros::write_zeros;
use sqlite_disk::Disk;
use std::alloc::Global;

/// A text in a file that is filled with zeros after it, to which bytes are added at the end.
#[derive(Drop)]
pub struct Log<D: Disk> {
    disk: D,
    /// It was resumed, and no call has failed since.
    is_open: bool,
    /// How many bytes the text has, and how many of them are on the disk for sure.
    end: usize,
    synced: usize,
    /// Up to where the file has zeros after the text.
    room: usize,
    ghost usable: { is_open ≡ true → IsTrue (D.Disk.is_usable disk) },
    ghost within: { end ≤ room },
    ghost ended: { is_open ≡ true → end < room },
}

impl<D: Disk> Log<D> {
    ghost use Rattle.ssi_log.specs.Clauses.Faults.{AppendFails, ExtendFails, ReadFails, ResumeFails, SyncFails};
    ghost use Rattle.ssi_log.specs.Machinery.Pieces.{IsTextOf};
    ghost use Rattle.ssi_log.specs.Machinery.Standing.{HasText, IsClosed, MayGoOn, disk_of, end_of, room_of, synced_of};

    /// A log in this file, which isn't open yet: the text is to be read, and the log to be resumed.
    pub fn new(disk: D) -> Log<D>
        ensures disk { disk_of result ≡ disk }
        ensures closed { IsClosed result }
        ensures room { room_of result ≡ 0 }
        ensures synced { synced_of result ≡ 0 }
    {
        Log {
            disk,
            is_open: false,
            end: 0,
            synced: 0,
            room: 0,
        }
    }

    /// Adds bytes at the end, none of which is zero. They are on the disk for sure only after the next
    /// [`sync`](Log::sync).
    ///
    /// `Closed` if the log isn't open or the disk doesn't mix, and `NoRoom` if there is no room for the bytes; then nothing
    /// changes. After `Failed` the log isn't open any more, and a front of the bytes may be there.
    pub fn append(&mut self, bytes: &[u8]) -> Result<(), LogFault>
        ensures text { (text : List ℕ) → HasText self.old text → HasNoZero bytes.now
            → OnOk result (HasText self.new (text ++ bytes.now)) }
        ensures room { OnOk result (room_of self.new + length bytes.now ≡ room_of self.old) }
        ensures synced { synced_of self.new ≡ synced_of self.old }
        ensures crash { (text : List ℕ) → HasText self.old text → HasNoZero bytes.now
            → Keeps (D.may_leave (disk_of self.new)) (text ++ bytes.now) (synced_of self.old) }
        ensures clean { IsTrue (D.is_clean (disk_of self.new)) → IsTrue (D.is_clean (disk_of self.old)) }
        ensures fault { IfErr result (AppendFails self.old self.new (length bytes.now)) }
        ensures closed { IsClosed self.old → IsErrOf result LogFault.Closed }
        ensures mixing { D.is_mixing (disk_of self.new) ≡ D.is_mixing (disk_of self.old) }
    {
        if !self.is_open || !self.disk.mixes() {
            return Err(LogFault::Closed);
        }
        if bytes.len() >= self.room - self.end {
            return Err(LogFault::NoRoom);
        }
        if let Err(error) = self.disk.write_at(self.end, bytes) {
            self.is_open = false;
            return Err(LogFault::Failed(error));
        }
        self.end += bytes.len();
        Ok(())
    }

    /// Waits until the whole text is on the disk.
    ///
    /// `Closed` if the log isn't open, and then nothing changes. After `Failed` the log isn't open any more.
    pub fn sync(&mut self) -> Result<(), LogFault>
        ensures text { (text : List ℕ) → HasText self.old text
            → OnOk result (HasText self.new text × (synced_of self.new ≡ length text)) }
        ensures room { room_of self.new ≡ room_of self.old }
        ensures end { end_of self.new ≡ end_of self.old }
        ensures seen { D.seen (disk_of self.new) ≡ D.seen (disk_of self.old) }
        ensures durable { OnOk result (Only (D.seen (disk_of self.new)) (D.may_leave (disk_of self.new))) }
        ensures fewer { (file : List ℕ) → D.may_leave (disk_of self.new) file → D.may_leave (disk_of self.old) file }
        ensures crash { (text : List ℕ) → HasText self.old text
            → Keeps (D.may_leave (disk_of self.new)) text (synced_of self.old) }
        ensures clean { IsTrue (D.is_clean (disk_of self.new)) → IsTrue (D.is_clean (disk_of self.old)) }
        ensures fault { IfErr result (SyncFails self.old self.new) }
        ensures closed { IsClosed self.old → IsErrOf result LogFault.Closed }
    {
        if !self.is_open {
            return Err(LogFault::Closed);
        }
        if let Err(error) = self.disk.sync() {
            self.is_open = false;
            return Err(LogFault::Failed(error));
        }
        self.synced = self.end;
        Ok(())
    }

    /// Puts so many zeros more after the text, ahead of what is added later, and waits until they and the whole text are on
    /// the disk.
    ///
    /// `Closed` if the log isn't open or the disk doesn't mix, and `NoRoom` if the file would have 2^64 bytes or more; then
    /// nothing changes. `Full` if the zeros can't be written: the text and its room stay, and the call may be tried again.
    /// After `Failed` the log isn't open any more.
    pub fn extend(&mut self, more: usize) -> Result<(), LogFault>
        ensures text { (text : List ℕ) → HasText self.old text
            → OnOk result (HasText self.new text × (synced_of self.new ≡ length text)) }
        ensures full { (text : List ℕ) → HasText self.old text → IfErr result (λ e. MayGoOn e → HasText self.new text) }
        ensures room { OnOk result (room_of self.new ≡ room_of self.old + more) }
        ensures crash { (text : List ℕ) → HasText self.old text
            → Keeps (D.may_leave (disk_of self.new)) text (synced_of self.old) }
        ensures clean { IsTrue (D.is_clean (disk_of self.new)) → IsTrue (D.is_clean (disk_of self.old)) }
        ensures fault { IfErr result (ExtendFails self.old self.new more) }
        ensures closed { IsClosed self.old → IsErrOf result LogFault.Closed }
    {
        if !self.is_open || !self.disk.mixes() {
            return Err(LogFault::Closed);
        }
        let Some(room) = self.room.checked_add(more) else {
            return Err(LogFault::NoRoom);
        };
        if let Err(error) = write_zeros(&mut self.disk, self.room, room) {
            return Err(LogFault::Full(error));
        }
        self.sync()?;
        self.room = room;
        Ok(())
    }

    /// Returns how many bytes may still be added before the log has to be extended.
    pub fn room(&self) -> usize
        ensures { result ≡ room_of self.now }
    {
        (self.room - self.end).saturating_sub(1)
    }

    /// Returns how many bytes the text has, if the log is open.
    pub fn len(&self) -> usize
        ensures end { result ≡ end_of self.now }
        ensures text { (text : List ℕ) → HasText self.now text → result ≡ length text }
    {
        self.end
    }

    /// Gives the file back.
    pub fn into_disk(self) -> D
        ensures { result ≡ disk_of self }
    {
        self.disk
    }

    /// Reads the text of the file, whether the log is open or not.
    ///
    /// `Closed` if a sync of the file has failed, `NoEnd` if no zero byte ends the text, `Memory` if memory runs out, and
    /// `Failed` if the file can't be read. The file and the log stay as they were.
    pub fn read(&mut self, alloc: Global) -> Result<Vec<u8>, LogFault>
        ensures text { IfOk result (λ v. IsTrue (D.is_clean (disk_of self.new))
            → IsTextOf (D.seen (disk_of self.old)) v.items) }
        ensures plain { IfOk result (λ v. HasNoZero v.items) }
        ensures finds { IfOk result (λ v. IsTrue (D.is_clean (disk_of self.new))
            → Only (D.seen (disk_of self.old)) (D.may_leave (disk_of self.old))
            → Finds (D.seen (disk_of self.new)) (D.may_leave (disk_of self.new)) v.items) }
        ensures own { (text : List ℕ) → HasText self.old text
            → IfOk result (λ v. IsTrue (D.is_clean (disk_of self.new)) → v.items ≡ text) }
        ensures stays { (text : List ℕ) → HasText self.old text → HasText self.new text }
        ensures room { room_of self.new ≡ room_of self.old }
        ensures synced { synced_of self.new ≡ synced_of self.old }
        ensures seen { D.seen (disk_of self.new) ≡ D.seen (disk_of self.old) }
        ensures clean { IsTrue (D.is_clean (disk_of self.new)) → IsTrue (D.is_clean (disk_of self.old)) }
        ensures usable { D.is_usable (disk_of self.new) ≡ D.is_usable (disk_of self.old) }
        ensures faults { OnOk result (D.faults (disk_of self.new) ≡ D.faults (disk_of self.old)) }
        ensures crash { (file : List ℕ) → D.may_leave (disk_of self.new) file → D.may_leave (disk_of self.old) file }
        ensures fault { IfErr result (ReadFails self.old self.new) }
    {
        if !self.disk.may_be_used() {
            return Err(LogFault::Closed);
        }
        read_text(&mut self.disk, alloc)
    }

    /// Opens the log with a front of the text that the file has: what follows it there is overwritten by zeros, and there is
    /// room for so many bytes more, or for as many as the file has zeros for. All of it is on the disk then. The bytes of
    /// the text are written once more: if an earlier sync failed, they may be nowhere but in the memory of the system.
    ///
    /// `Closed` if a sync of the file has failed or the disk doesn't mix, and `NoRoom` if the file would have 2^64 bytes or
    /// more; then the file stays as it was. `Failed` if a call of the file fails. After a failure the log isn't open.
    pub fn resume(&mut self, text: &[u8], ahead: usize) -> Result<(), LogFault>
        ensures text { HasNoZero text.now → OnOk result (HasText self.new text.now × (synced_of self.new ≡ length text.now)) }
        ensures ahead { OnOk result (ahead ≤ room_of self.new) }
        ensures room { OnOk result (IsTrue (D.is_clean (disk_of self.new))
            → room_of self.new ≡ max ahead (length (D.seen (disk_of self.old)) - length text.now - 1)) }
        ensures crash { (torn : List ℕ) → Finds (D.seen (disk_of self.old)) (D.may_leave (disk_of self.old)) (text.now ++ torn)
            → Keeps (D.may_leave (disk_of self.new)) (text.now ++ torn) (length text.now) }
        ensures clean { IsTrue (D.is_clean (disk_of self.new)) → IsTrue (D.is_clean (disk_of self.old)) }
        ensures fault { IfErr result (ResumeFails self.old self.new (length text.now + ahead + 1)) }
        ensures closed { IsErr result → IsClosed self.new }
    {
        self.is_open = false;
        let Some(least) = least_size(text.len(), ahead) else {
            return Err(LogFault::NoRoom);
        };
        if !self.disk.may_be_used() {
            return Err(LogFault::Closed);
        }
        let len = self.disk.len().map_err(LogFault::Failed)?;
        if !self.disk.mixes() {
            return Err(LogFault::Closed);
        }
        let room = least.max(len);
        if let Err(error) = settle(&mut self.disk, text, room) {
            return Err(LogFault::Failed(error));
        }
        self.end = text.len();
        self.synced = text.len();
        self.room = room;
        self.is_open = true;
        Ok(())
    }
}

/// The size of a file with a text of so many bytes, room for so many more, and the zero that ends it.
fn least_size(text: usize, ahead: usize) -> Option<usize>
    ensures { MatchOption result (2 ^ 64 ≤ text + ahead + 1) (λ n. n ≡ text + ahead + 1) }
{
    text.checked_add(ahead)?.checked_add(1)
}
