//! An open folder of the system, with the record of its calls.

ghost use Rattle.std.specs.Prelude.{◌≡◌, ◌≢◌, ◌||◌, [], ◌∷◌, ℕ, IfErr, IfOk, OnOk, bytes_eq, false, map, true};
ghost use Rattle.std.specs.BTreeSet.{contains};
ghost use Rattle.std.specs.Ordering.{nat_cmp};
ghost use Rattle.std.specs.Path.{path_buf_bytes, path_join};
ghost use Rattle.ssi_files.specs.Meaning.Files.{HasJust, is_mixing};
ghost use Rattle.ssi_files.specs.Meaning.FolderCalls.{FailsBy, FailsToRemove, Lists, Makes, after, is_listed, kept, listed, locked, made, opened, removed, renamed, settled, synced};
ghost use Rattle.ssi_files.specs.Meaning.Names.{IsNumber, file_name};

use crate::fault::FolderFault;
use crate::file_disk::{FileDisk, found_file, new_file};
use crate::name::{Ending, file_name, number_of};
use crate::number::SegmentNumber;
use crate::record::Record;
use sqlite_disk::Start;
use std::alloc::AllocError;
use std::collections::BTreeSet;
use std::fs::{self, DirBuilder, File, OpenOptions, TryLockError};
use std::io;
use std::os::fd::AsRawFd;
use std::os::unix::fs::{DirBuilderExt, OpenOptionsExt};
use std::path::PathBuf;

// The calls, by their numbers in the record.
const LOCKED: u64 = 0;

const SYNCED: u64 = 1;

const KEPT: u64 = 2;

const OPENED: u64 = 3;

const MADE: u64 = 4;

const SETTLED: u64 = 5;

const RENAMED: u64 = 7;

const REMOVED: u64 = 8;

const LISTED: u64 = 9;

const FOUND: u64 = 10;

/// Only the owner may list, open or change what is in a folder that is made.
const FOLDER_MODE: u32 = 0o700;

/// Only the owner may read or write a file that is made.
const FILE_MODE: u32 = 0o600;

/// An open folder of the system. Each method makes one call of the system, and then notes it with its result.
#[derive(Drop)]
pub(crate) struct Directory {
    path: PathBuf,
    handle: File,
    calls: Record,
}

impl Directory {
    /// Opens the folder, and makes it if it is missing.
    pub(crate) fn open(rt: &HostRuntime, path: &str) -> Result<Directory, FolderFault>
        ensures { IfOk result (λ directory. directory.calls.events ≡ []) }
    {
        let handle = match File::open(rt, path) {
            Err(error) if error.kind() == io::ErrorKind::NotFound => {
                make_folder(rt, path)?;
                File::open(rt, path)?
            }
            opened => opened?,
        };
        if !handle.metadata()?.is_dir() {
            return Err(FolderFault::NotAFolder);
        }
        Ok(Directory {
            path: PathBuf::from_str(rt.alloc(), path)?,
            handle,
            calls: Record::new(),
        })
    }

    /// Opens the lock of the folder, and makes it if it is missing, and takes it for as long as the file is open.
    pub(crate) fn lock(&mut self, rt: &HostRuntime) -> Result<File, FolderFault>
        ensures { OnOk result (self.new.calls.events ≡ locked true ∷ self.old.calls.events) }
    {
        let path = self.joined("lock")?;
        let file = open_above(
            rt,
            &path,
            OpenOptions::new()
                .read(true)
                .write(true)
                .create(true)
                .mode(FILE_MODE),
        )?;
        match file.try_lock() {
            Ok(()) => {
                self.note(LOCKED, 0, true);
                Ok(file)
            }
            Err(TryLockError::WouldBlock) => Err(FolderFault::InUse),
            Err(TryLockError::Error(error)) => Err(error.into()),
        }
    }

    /// Waits until the names in the folder are on the disk.
    pub(crate) fn sync(&mut self) -> Result<(), FolderFault>
        ensures { Makes (synced ∷ []) result self.old.calls.events self.new.calls.events }
    {
        let result = self.handle.sync_all();
        self.note(SYNCED, 0, result.is_ok());
        Ok(result?)
    }

    /// Waits until the name of the folder itself is on the disk.
    pub(crate) fn keep(&mut self, rt: &HostRuntime) -> Result<(), FolderFault>
        ensures { Makes (kept ∷ []) result self.old.calls.events self.new.calls.events }
    {
        let path = self.joined("..")?;
        let result = sync_folder(rt, &path);
        self.note(KEPT, 0, result.is_ok());
        Ok(result?)
    }

    /// Opens the file of a segment.
    pub(crate) fn open_file(
        &mut self,
        rt: &HostRuntime,
        number: SegmentNumber,
    ) -> Result<File, FolderFault>
        ensures { Makes (opened number ∷ []) result self.old.calls.events self.new.calls.events }
    {
        let path = self.path_of(number, Ending::Log)?;
        let result = open_above(rt, &path, OpenOptions::new().read(true).write(true));
        self.note(OPENED, number.get(), result.is_ok());
        Ok(result?)
    }

    /// Makes a new file for a segment.
    pub(crate) fn make_file(
        &mut self,
        rt: &HostRuntime,
        number: SegmentNumber,
    ) -> Result<File, FolderFault>
        ensures { Makes (made number ∷ []) result self.old.calls.events self.new.calls.events }
    {
        let path = self.path_of(number, Ending::New)?;
        let result = open_above(
            rt,
            &path,
            OpenOptions::new()
                .read(true)
                .write(true)
                .create_new(true)
                .mode(FILE_MODE),
        );
        self.note(MADE, number.get(), result.is_ok());
        Ok(result?)
    }

    /// Makes a disk of the file of a segment that was there before.
    pub(crate) fn settle<S: Start>(
        &mut self,
        number: SegmentNumber,
        file: File,
    ) -> Result<FileDisk<S>, FolderFault>
        ensures calls { Makes (settled number ∷ []) result self.old.calls.events self.new.calls.events }
        ensures held { IfOk result (λ disk. HasJust S.Start.log disk) }
        ensures mixing { IfOk result (λ disk. is_mixing disk ≡ S.Start.is_mixing) }
    {
        let result = found_file(file);
        self.note(SETTLED, number.get(), result.is_ok());
        Ok(result?)
    }

    /// Makes a disk of the file of a segment that was made just now.
    pub(crate) fn settle_new<S: Start>(
        &mut self,
        number: SegmentNumber,
        file: File,
    ) -> Result<FileDisk<S>, FolderFault>
        ensures calls { Makes (settled number ∷ []) result self.old.calls.events self.new.calls.events }
        ensures held { IfOk result (λ disk. HasJust [] disk) }
        ensures mixing { IfOk result (λ disk. is_mixing disk ≡ S.Start.is_mixing) }
    {
        let result = new_file(file);
        self.note(SETTLED, number.get(), result.is_ok());
        Ok(result?)
    }

    /// Gives the new file of a segment the name of the segment.
    pub(crate) fn rename(
        &mut self,
        rt: &HostRuntime,
        number: SegmentNumber,
    ) -> Result<(), FolderFault>
        ensures { Makes (renamed number ∷ []) result self.old.calls.events self.new.calls.events }
    {
        let (from, to) = (
            self.path_of(number, Ending::New)?,
            self.path_of(number, Ending::Log)?,
        );
        let result = fs::rename(rt, from.as_path(), to.as_path());
        self.note(RENAMED, number.get(), result.is_ok());
        Ok(result?)
    }

    /// Removes the new file of a segment.
    pub(crate) fn remove(
        &mut self,
        rt: &HostRuntime,
        number: SegmentNumber,
    ) -> Result<(), FolderFault>
        ensures { Makes (removed number ∷ []) result self.old.calls.events self.new.calls.events }
    {
        let path = self.path_of(number, Ending::New)?;
        let result = fs::remove_file(rt, path.as_path());
        self.note(REMOVED, number.get(), result.is_ok());
        Ok(result?)
    }

    /// Removes the new files of these segments.
    pub(crate) fn remove_all(
        &mut self,
        rt: &HostRuntime,
        numbers: &BTreeSet<SegmentNumber>,
    ) -> Result<(), FolderFault>
        ensures removed { OnOk result (self.new.calls.events ≡ after (map removed numbers.now.keys) self.old.calls.events) }
        ensures fault { IfErr result (λ fault. FailsToRemove fault self.new.calls.events) }
    {
        for number in numbers {
            self.remove(rt, *number)?;
        }
        Ok(())
    }

    /// Returns the numbers of the segments whose files have this ending.
    pub(crate) fn list(
        &mut self,
        rt: &HostRuntime,
        ending: Ending,
    ) -> Result<BTreeSet<SegmentNumber>, FolderFault>
        ensures listed { OnOk result (Lists self.old.calls.events self.new.calls.events) }
        ensures numbers { IfOk result (λ numbers. (n : ℕ) → IsNumber n
            → contains nat_cmp numbers n ≡ is_listed self.new.calls.events (file_name n ending)) }
        ensures fault { IfErr result (λ fault. FailsBy listed fault self.new.calls.events) }
    {
        let entries = match fs::read_dir(rt, self.path.as_path()) {
            Ok(entries) => entries,
            Err(error) => return Err(self.not_listed(error)),
        };
        self.note(LISTED, 0, true);
        let mut numbers = BTreeSet::new(rt.alloc());
        for entry in entries {
            match entry {
                Ok(entry) => {
                    let name = entry.file_name().as_bytes();
                    self.calls.note(&[FOUND, 0, 0, 1], name);
                    enter(&mut numbers, name, ending)?;
                }
                // A name that isn't UTF-8.
                Err(error) if error.kind() == io::ErrorKind::InvalidFilename => {}
                Err(error) => return Err(self.not_listed(error)),
            }
        }
        Ok(numbers)
    }

    fn not_listed(&mut self, error: io::Error) -> FolderFault
        ensures { self.new.calls.events ≡ listed false ∷ self.old.calls.events }
    {
        self.note(LISTED, 0, false);
        error.into()
    }

    fn note(&mut self, call: u64, number: u32, ok: bool)
        requires { call ≢ 6 }
        ensures { self.new.calls.events ≡ (call, number, 0, ok, []) ∷ self.old.calls.events }
    {
        self.calls
            .note(&[call, u64::from(number), 0, u64::from(ok)], &[]);
    }

    fn joined(&self, name: &str) -> Result<PathBuf, AllocError>
        ensures { IfOk result (λ path. path_buf_bytes path ≡ path_join (path_buf_bytes self.now.path) name.now) }
    {
        let mut path = self.path.clone()?;
        path.push(name)?;
        Ok(path)
    }

    /// The path of the file of a segment.
    fn path_of(&self, number: SegmentNumber, ending: Ending) -> Result<PathBuf, AllocError>
        ensures { IfOk result (λ path. path_buf_bytes path
            ≡ path_join (path_buf_bytes self.now.path) (file_name number ending)) }
    {
        let name = file_name(number, ending);
        self.joined(str::from_utf8(&name).unwrap())
    }
}

/// Adds the number of the segment whose file has this name and ending, if there is one.
fn enter(
    numbers: &mut BTreeSet<SegmentNumber>,
    name: &[u8],
    ending: Ending,
) -> Result<(), AllocError>
    ensures { OnOk result ((n : ℕ) → IsNumber n → contains nat_cmp numbers.new n
        ≡ (bytes_eq name.now (file_name n ending) || contains nat_cmp numbers.old n)) }
{
    if let Some(number) = number_of(name, ending) {
        numbers.insert(number)?;
    }
    Ok(())
}

/// Makes the folder, unless somebody else just made it.
fn make_folder(rt: &HostRuntime, path: &str) -> io::Result<()> {
    match DirBuilder::new().mode(FOLDER_MODE).create(rt, path) {
        Err(error) if error.kind() == io::ErrorKind::AlreadyExists => Ok(()),
        result => result,
    }
}

fn sync_folder(rt: &HostRuntime, path: &PathBuf) -> io::Result<()> {
    File::open(rt, path.as_path())?.sync_all()
}

/// Opens a file. What the program writes to a standard stream that was closed doesn't land in it.
fn open_above(rt: &HostRuntime, path: &PathBuf, options: &OpenOptions) -> io::Result<File> {
    let file = options.open(rt, path.as_path())?;
    if file.as_raw_fd() <= 2 {
        return file.try_clone();
    }
    Ok(file)
}
