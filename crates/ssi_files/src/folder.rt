//! A folder of segments.

ghost use Rattle.std.specs.Prelude.{◌≡◌, ◌⊎◌, [], ◌∷◌, ℕ, IfErr, IfOk, IsTrue, OnOk};
ghost use Rattle.std.specs.BTreeSet.{contains};
ghost use Rattle.std.specs.Ordering.{nat_cmp};
ghost use Rattle.ssi_files.specs.Meaning.Files.{HasJust, is_mixing};
ghost use Rattle.ssi_files.specs.Meaning.FolderCalls.{FailsBy, FailsToRemove, Lists, Makes, RemovesNew, after, is_listed, kept, listed, locked, made, opened, renamed, settled, synced};
ghost use Rattle.ssi_files.specs.Meaning.Names.{IsNumber, file_name};
ghost use Rattle.ssi_files.specs.Meaning.Premises.{is_kept};

use crate::directory::Directory;
use crate::fault::FolderFault;
use crate::file_disk::FileDisk;
use crate::name::Ending;
use crate::number::SegmentNumber;
use sqlite_disk::Start;
use std::collections::BTreeSet;
use std::fs::File;

/// An open folder of segments. Whoever has this value has the lock of the folder, until it is dropped or the process ends.
#[derive(Drop)]
pub struct Folder {
    directory: Directory,
    lock: File,
}

impl Folder {
    ghost use Rattle.ssi_files.specs.Machinery.Folders.{calls_of};

    /// Opens the folder at this path and takes its lock, the file `lock` in it. A missing folder is made, but not the folder
    /// around it; then only its owner may use it. What it has, and its own name, are on the disk then.
    ///
    /// `NotAFolder` if something else is there; `NoRight` if this process may not make it, use it, or list the folder around
    /// it; `InUse` if somebody has its lock. The lock ends with the process, also if that is killed.
    pub fn open(rt: &HostRuntime, path: &str) -> Result<Folder, FolderFault>
        ensures { IfOk result (λ folder. calls_of folder ≡ after (locked ∷ kept ∷ synced ∷ []) []) }
    {
        let mut directory = Directory::open(rt, path)?;
        let lock = directory.lock(rt)?;
        directory.keep(rt)?;
        directory.sync()?;
        Ok(Folder { directory, lock })
    }

    /// Returns the numbers of the segments that there are: of each file `NNNNNNNN.log`, with a number of eight digits from
    /// 1 on. The last of them is the greatest. Other names don't count.
    pub fn segments(&mut self, rt: &HostRuntime) -> Result<BTreeSet<SegmentNumber>, FolderFault>
        ensures listed { OnOk result (Lists (calls_of self.old) (calls_of self.new)) }
        ensures numbers { IfOk result (λ numbers. (n : ℕ) → IsNumber n
            → contains nat_cmp numbers n ≡ is_listed (calls_of self.new) (file_name n Ending.Log)) }
        ensures fault { IfErr result (λ fault. FailsBy listed fault (calls_of self.new)) }
    {
        self.directory.list(rt, Ending::Log)
    }

    /// Removes the files of segments that were being made, `NNNNNNNN.new`, and leaves all others alone. An error may come
    /// after some of them are removed.
    pub fn remove_new(&mut self, rt: &HostRuntime) -> Result<(), FolderFault>
        ensures removed { OnOk result (RemovesNew (calls_of self.old) (calls_of self.new)) }
        ensures fault { IfErr result (λ fault. FailsBy listed fault (calls_of self.new) ⊎ FailsToRemove fault (calls_of self.new)) }
    {
        let numbers = self.directory.list(rt, Ending::New)?;
        self.directory.remove_all(rt, &numbers)
    }

    /// Opens a segment, to read and to write. The disk has what the file held as this process found it, which `start`
    /// stands for.
    pub fn open_segment<S: Start>(
        &mut self,
        rt: &HostRuntime,
        number: SegmentNumber,
        _start: S,
    ) -> Result<FileDisk<S>, FolderFault>
        ensures calls { Makes (opened number ∷ settled number ∷ []) result (calls_of self.old) (calls_of self.new) }
        ensures held { IfOk result (λ disk. HasJust S.Start.log disk) }
        ensures mixing { IfOk result (λ disk. is_mixing disk ≡ S.Start.is_mixing) }
    {
        let file = self.directory.open_file(rt, number)?;
        self.directory.settle(number, file)
    }

    /// Makes the file of a new segment, which is empty, as `NNNNNNNN.new`. Only its owner may read or write it. It is an
    /// error if there is such a file already.
    pub fn make_segment<S: Start>(
        &mut self,
        rt: &HostRuntime,
        number: SegmentNumber,
    ) -> Result<FileDisk<S>, FolderFault>
        ensures calls { Makes (made number ∷ settled number ∷ []) result (calls_of self.old) (calls_of self.new) }
        ensures held { IfOk result (λ disk. HasJust [] disk) }
        ensures mixing { IfOk result (λ disk. is_mixing disk ≡ S.Start.is_mixing) }
    {
        let file = self.directory.make_file(rt, number)?;
        self.directory.settle_new(number, file)
    }

    /// Makes a segment of the file that was made for it: `NNNNNNNN.new` becomes `NNNNNNNN.log`, all at once. The bytes of the
    /// file are to be on the disk before, by `sync` of its disk. The new name is on the disk then. After an error either
    /// name may be there.
    pub fn publish(&mut self, rt: &HostRuntime, number: SegmentNumber) -> Result<(), FolderFault>
        ensures calls { Makes (synced ∷ renamed number ∷ synced ∷ []) result (calls_of self.old) (calls_of self.new) }
        ensures kept { OnOk result (IsTrue (is_kept number (calls_of self.new))) }
    {
        self.directory.sync()?;
        self.directory.rename(rt, number)?;
        self.directory.sync()
    }

    /// Waits until the names in the folder are on the disk.
    pub fn sync(&mut self) -> Result<(), FolderFault>
        ensures { Makes (synced ∷ []) result (calls_of self.old) (calls_of self.new) }
    {
        self.directory.sync()
    }
}
