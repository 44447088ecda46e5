//! Certifying what a store that keeps its data has done.

use crate::output_file::OutputFile;
use crate::problem::Problem;
use devices::Watched;
use ssi_cli::{CommandsFault, Fault, ScriptFault, Status, carry_out_commands, new_live_store};
use ssi_data::DataFault;
use ssi_files::{Ending, SegmentNumber, file_name, number_of};
use ssi_loads::{FollowFault, is_followed};
use std::alloc::{AllocError, Global};
use std::collections::BTreeSet;
use std::io::{BufWriter, ErrorKind};
use std::{fs, io, str};

/// Why the segments weren't all looked at.
#[derive(Drop)]
enum SealFault {
    /// The folder or a segment can't be used.
    Data(DataFault),
    /// The texts of the segment with this number can't be written.
    Texts(u32),
}

impl From<AllocError> for SealFault {
    fn from(_: AllocError) -> SealFault {
        SealFault::Data(DataFault::Memory)
    }
}

impl From<io::Error> for SealFault {
    fn from(error: io::Error) -> SealFault {
        SealFault::Data(match error.kind() {
            ErrorKind::OutOfMemory => DataFault::Memory,
            ErrorKind::PermissionDenied => DataFault::NoRight,
            ErrorKind::NotADirectory => DataFault::NotAFolder,
            _ => DataFault::System(error),
        })
    }
}

impl From<FollowFault> for SealFault {
    fn from(fault: FollowFault) -> SealFault {
        SealFault::Data(match fault {
            FollowFault::Replay(fault) => DataFault::from(fault),
            FollowFault::Memory => DataFault::Memory,
        })
    }
}

/// Writes the history and the certificate of each segment in the folder but the last, unless they are there, and prints `yes`.
/// If a segment doesn't begin with what the one before it ended with, prints its number, and writes none for that one and
/// those after it.
pub fn seal<'a>(rt: &HostRuntime, folder: &'a str) -> Result<Status, Problem<'a>> {
    let (printed, status) = match first_apart(rt, folder) {
        Ok(None) => (println!(rt; "yes"), Status::Fine),
        Ok(Some(number)) => (println!(rt; "no {number}"), Status::Refused),
        Err(SealFault::Data(fault)) => return Err(Problem::Data(folder, fault)),
        Err(SealFault::Texts(number)) => return Err(Problem::Unsealed(folder, number)),
    };
    match printed {
        Ok(()) => Ok(status),
        Err(_) => Err(Problem::Fault(Fault::Write("stdout"))),
    }
}

/// Certifies one segment after the other, up to the first whose next one doesn't begin with what it ended with. Returns the
/// number of that next one.
fn first_apart(rt: &HostRuntime, folder: &str) -> Result<Option<u32>, SealFault> {
    let numbers = numbers_in(rt, folder)?;
    let mut before: Option<SegmentNumber> = None;
    for number in numbers.iter() {
        if let Some(before) = before {
            if !seal_one(rt, folder, before, *number)? {
                return Ok(Some(number.get()));
            }
        }
        before = Some(*number);
    }
    Ok(None)
}

/// Returns the numbers of the segments in the folder.
fn numbers_in(rt: &HostRuntime, folder: &str) -> Result<BTreeSet<SegmentNumber>, SealFault> {
    let mut numbers = BTreeSet::new(rt.alloc());
    for entry in fs::read_dir(rt, folder)? {
        let entry = entry?;
        if let Some(number) = number_of(entry.file_name().as_bytes(), Ending::Log) {
            if numbers.insert(number).is_err() {
                return Err(SealFault::from(AllocError));
            }
        }
    }
    Ok(numbers)
}

/// Certifies this segment, unless its texts are there. Returns whether the next one begins with what it ended with.
fn seal_one(
    rt: &HostRuntime,
    folder: &str,
    number: SegmentNumber,
    next: SegmentNumber,
) -> Result<bool, SealFault> {
    if !is_next(number, next) {
        return Ok(false);
    }
    let alloc = rt.alloc();
    let history = path_of(alloc, folder, number, "history")?;
    let certificate = path_of(alloc, folder, number, "certificate")?;
    if fs::exists(rt, history.as_str())? && fs::exists(rt, certificate.as_str())? {
        return Ok(true);
    }
    let bytes = fs::read(rt, path_of(alloc, folder, number, "log")?.as_str())?;
    let next_bytes = fs::read(rt, path_of(alloc, folder, next, "log")?.as_str())?;
    let text = text_of(&bytes);
    let mut store = new_live_store(alloc);
    let is_same = is_followed(
        alloc,
        &mut store,
        number.get(),
        text,
        next.get(),
        text_of(&next_bytes),
    )?;
    if is_same {
        certify(rt, number, text, &history, &certificate)?;
    }
    Ok(is_same)
}

/// Returns whether no segment between them is missing.
fn is_next(number: SegmentNumber, next: SegmentNumber) -> bool {
    match number.next() {
        Some(following) => following == next,
        None => false,
    }
}

/// Writes the history and a certificate of what these lines do.
fn certify(
    rt: &HostRuntime,
    number: SegmentNumber,
    text: &[u8],
    history: &str,
    certificate: &str,
) -> Result<(), SealFault> {
    let mut input = Watched::new(text);
    let mut replies = Watched::new(io::sink());
    let mut history = Watched::new(BufWriter::new(rt.alloc(), OutputFile::new(rt, history)?)?);
    let mut certificate = Watched::new(BufWriter::new(
        rt.alloc(),
        OutputFile::new(rt, certificate)?,
    )?);
    let done = carry_out_commands(
        rt.alloc(),
        &mut input,
        &mut replies,
        &mut history,
        &mut certificate,
    );
    match done {
        Ok(_) => Ok(()),
        Err(CommandsFault::Texts(ScriptFault::Memory)) => Err(SealFault::Data(DataFault::Memory)),
        Err(_) => Err(SealFault::Texts(number.get())),
    }
}

/// Returns the path of a file of a segment.
fn path_of(
    alloc: Global,
    folder: &str,
    number: SegmentNumber,
    ending: &str,
) -> Result<String, AllocError> {
    let name = file_name(number, Ending::Log);
    let digits = str::from_utf8(&name[..8]).unwrap_or("");
    format!(in alloc; "{folder}/{digits}.{ending}")
}

/// Returns what stands before the first zero byte.
fn text_of(bytes: &[u8]) -> &[u8] {
    match bytes.iter().position(|byte| *byte == 0) {
        Some(end) => &bytes[..end],
        None => bytes,
    }
}
