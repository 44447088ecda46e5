//! The last segment of a folder, and the next one.

ghost use Rattle.std.specs.Prelude.{◌≡◌, IfOk, OnOk};
ghost use Rattle.ssi_store.specs.Meaning.Contents.{contents_after};
ghost use Rattle.ssi_store.specs.Meaning.Courses.{Course, New};
ghost use Rattle.ssi_durable.specs.Clauses.Journals.{HasAll};
ghost use Rattle.ssi_durable.specs.Clauses.Recovery.{IsReplayed};
ghost use Rattle.ssi_durable.specs.Mirror.Servers.{store_of};
ghost use Rattle.ssi_files.specs.Machinery.Folders.{calls_of};
ghost use Rattle.ssi_files.specs.Meaning.Files.{HasJust, is_mixing};
ghost use Rattle.ssi_loads.specs.Meaning.Loads.{first_lines};
ghost use Rattle.ssi_data.specs.Clauses.Segments.{IsLastOf, MakesSegment, OpensLast};

use crate::fault::DataFault;
use sqlite_disk::Disk;
use ssi_durable::{Server, load};
use ssi_files::{FileDisk, Folder, SegmentNumber, Start};
use ssi_line::ProtocolStore;
use ssi_loads::first_lines;
use ssi_loads::laws::{first_lines_are_clean, first_lines_are_plain};
use ssi_log::Log;
use std::alloc::Global;
use std::collections::BTreeSet;

/// By so many bytes of zeros a log is longer than its text at first.
const AHEAD: usize = 1_048_576;

/// The segment that a server goes on with.
#[derive(Drop)]
pub struct Segment<D: Disk + Drop> {
    /// Its file, of which nothing is read yet.
    pub disk: D,
    /// Its number, the greatest in the folder.
    pub number: SegmentNumber,
    /// How many segments the folder has.
    pub count: usize,
}

/// Opens the last segment of the folder, and makes the first one if there is none. What was being made of a segment is removed
/// before. The disk has what the file held as this process found it, which `start` stands for.
pub fn open_last<S: Start>(
    rt: &HostRuntime,
    folder: &mut Folder,
    start: S,
) -> Result<Segment<FileDisk<S>>, DataFault>
    ensures last { IfOk result (λ s. OpensLast s.number (calls_of folder.old) (calls_of folder.new)) }
    ensures held { IfOk result (λ s. HasJust S.Start.log s.disk) }
    ensures mixing { IfOk result (λ s. is_mixing s.disk ≡ S.Start.is_mixing) }
{
    folder.remove_new(rt)?;
    let found = folder.segments(rt)?;
    let number = last_of::<S>(rt, folder, &found)?;
    let disk = folder.open_segment(rt, number, start)?;
    Ok(Segment {
        disk,
        number,
        count: found.len().max(1),
    })
}

/// Returns the last of these numbers of segments. If there is none, makes the first segment, and returns its number.
fn last_of<S: Start>(
    rt: &HostRuntime,
    folder: &mut Folder,
    numbers: &BTreeSet<SegmentNumber>,
) -> Result<SegmentNumber, DataFault>
    ensures { IfOk result (λ n. IsLastOf numbers.now n (calls_of folder.old) (calls_of folder.new)) }
{
    match numbers.last() {
        Some(number) => Ok(*number),
        None => make_first::<S>(rt, folder),
    }
}

/// Makes the first segment, and returns its number.
fn make_first<S: Start>(rt: &HostRuntime, folder: &mut Folder) -> Result<SegmentNumber, DataFault>
    ensures number { IfOk result (λ n. n ≡ 1) }
    ensures made { OnOk result (MakesSegment 1 (calls_of folder.old) (calls_of folder.new)) }
{
    let number = SegmentNumber::new(1).unwrap();
    let disk = folder.make_segment::<S>(rt, number)?;
    write_first(rt.alloc(), disk, number.get())?;
    folder.publish(rt, number)?;
    Ok(number)
}

/// Writes the lines of a new segment without loads, so that they are on the disk.
fn write_first<D: Disk + Drop>(alloc: Global, disk: D, number: u32) -> Result<(), DataFault> {
    let text = first_lines(alloc, number, &[])?;
    let mut log = Log::new(disk);
    log.resume(&text, AHEAD)?;
    Ok(())
}

/// What a server goes on with in the next segment.
#[derive(Drop)]
pub(crate) struct Next<T: Drop, D: Disk + Drop> {
    /// It has carried out the first lines of the segment.
    pub store: T,
    /// The log of the segment, with these lines. All of them are on the disk.
    pub log: Log<D>,
    /// How many bytes they have.
    pub loaded: usize,
}

/// Makes the file of the next segment, with the contents of the store of this server, and carries out its lines on this store,
/// which is new. The segment isn't published yet.
pub(crate) fn next_segment<T: ProtocolStore + Drop, S: Start>(
    rt: &HostRuntime,
    folder: &mut Folder,
    number: SegmentNumber,
    mut store: T,
    server: &Server<T, FileDisk<S>>,
) -> Result<Next<T, FileDisk<S>>, DataFault>
    ensures { T.is_at store (New 1) → IfOk result (λ next. (c : Course)
        → T.is_at (store_of server.now) c
        → IsReplayed T.is_at number (first_lines number (contents_after c)) next.store
        × HasAll next.log (first_lines number (contents_after c))) }
{
    first_lines_are_plain();
    first_lines_are_clean();
    let rows = server.contents()?;
    let text = first_lines(rt.alloc(), number.get(), &rows)?;
    folder.remove_new(rt)?;
    let mut log = Log::new(folder.make_segment::<S>(rt, number)?);
    load(&mut store, &mut log, number.get(), &text, AHEAD)?;
    Ok(Next {
        store,
        log,
        loaded: text.len(),
    })
}
