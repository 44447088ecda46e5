//! Cases whose values were worked out by hand.

use crate::crashes::zeros;
use crate::turn::turn;
use sqlite_disk::{Crash, Disk, Memory};
use ssi_log::{Log, LogFault};
use std::alloc::Global;

/// A file of 16 zeros, and a text of three bytes and three more, of which the first alone are synced. With seed 0 a crash takes
/// the others away.
pub fn two_lines(alloc: Global) -> Result<bool, LogFault> {
    let mut log = Log::new(zeros(alloc, 0, 16)?);
    let is_added = add_two_lines(&mut log, alloc);
    let mut disk = log.into_disk();
    let has_both = disk.bytes() == b"ab\ncd\n\0\0\0\0\0\0\0\0\0\0".as_slice();
    disk.crash();
    let has_one = disk.bytes() == b"ab\n\0\0\0\0\0\0\0\0\0\0\0\0\0".as_slice();
    Ok(is_added? && has_both && has_one)
}

/// With seed 1 all that was written is there after the crash.
pub fn all_arrives(alloc: Global) -> Result<bool, LogFault> {
    let mut log = Log::new(zeros(alloc, 1, 16)?);
    let is_added = add_two_lines(&mut log, alloc);
    let mut disk = log.into_disk();
    disk.crash();
    Ok(is_added? && disk.bytes() == b"ab\ncd\n\0\0\0\0\0\0\0\0\0\0".as_slice())
}

fn add_two_lines<D: Disk>(log: &mut Log<D>, alloc: Global) -> Result<bool, LogFault> {
    let is_new = log.room() == 0 && matches!(log.sync(), Err(LogFault::Closed));
    let is_empty = log.read(alloc)?.is_empty();
    log.resume(b"", 8)?;
    let is_open = log.room() == 15 && log.len() == 0;
    log.append(b"ab\n")?;
    log.sync()?;
    log.append(b"cd\n")?;
    let text = log.read(alloc)?;
    let is_longer = log.room() == 9 && log.len() == 6;
    Ok(is_new && is_empty && is_open && is_longer && text.as_slice() == b"ab\ncd\n".as_slice())
}

/// A log that is opened with a front of its text writes zeros over the rest, and makes its file longer.
pub fn front_of_a_text(alloc: Global) -> Result<bool, LogFault> {
    let mut log = Log::new(zeros(alloc, 0, 8)?);
    Ok(shortens(&mut log)? && grows(&mut log, alloc)?)
}

fn shortens<D: Disk>(log: &mut Log<D>) -> Result<bool, LogFault> {
    log.resume(b"ab\ncd", 0)?;
    let has_two = log.room() == 2;
    log.resume(b"ab\n", 20)?;
    let has_twenty = log.room() == 20;
    log.extend(6)?;
    Ok(has_two && has_twenty && log.room() == 26)
}

fn grows<D: Disk>(log: &mut Log<D>, alloc: Global) -> Result<bool, LogFault> {
    let is_too_long = matches!(
        log.append(b"abcdefghijklmnopqrstuvwxyzA"),
        Err(LogFault::NoRoom)
    );
    log.append(b"abcdefghijklmnopqrstuvwxyz")?;
    turn(log, b"\n.\n")?;
    let text = log.read(alloc)?;
    Ok(
        is_too_long
            && log.len() == 32
            && log.room() == 61
            && text.as_slice() == b"ab\nabcdefghijklmnopqrstuvwxyz\n.\n".as_slice(),
    )
}

/// A text of several pieces.
pub fn long_text(alloc: Global) -> Result<bool, LogFault> {
    let mut text = Vec::new(alloc);
    let mut log = Log::new(zeros(alloc, 0, 1)?);
    let is_read = match write_long(&mut log, &mut text) {
        Ok(()) => is_read(&mut log, alloc, &text),
        Err(fault) => Err(fault),
    };
    let mut disk = log.into_disk();
    disk.crash();
    let left = Log::new(disk).read(alloc)?;
    Ok(is_read? && left == text)
}

fn write_long<D: Disk>(log: &mut Log<D>, text: &mut Vec<u8>) -> Result<(), LogFault> {
    let line =
        b"put a key and a value, and once more the key and the value, and what else it takes to fill the line: one hundred\n";
    log.resume(b"", 0)?;
    log.extend(70_000)?;
    for _ in 0..600 {
        text.extend_from_slice(line)?;
        log.append(line)?;
    }
    log.sync()
}

fn is_read<D: Disk>(log: &mut Log<D>, alloc: Global, text: &Vec<u8>) -> Result<bool, LogFault> {
    let first = log.read(alloc)?;
    log.resume(text, 90_000)?;
    let second = log.read(alloc)?;
    Ok(first == *text && second == *text && log.room() == 90_000)
}

/// What a log can't be made of.
pub fn refused(alloc: Global) -> Result<bool, LogFault> {
    let mut file = zeros(alloc, 0, 1)?;
    file.write_at(0, b"abc").map_err(LogFault::Failed)?;
    let mut log = Log::new(file);
    let has_no_end = matches!(log.read(alloc), Err(LogFault::NoEnd));
    let is_too_long = matches!(log.resume(b"abc", usize::MAX), Err(LogFault::NoRoom));
    let mut log = Log::new(Memory::new(alloc));
    let is_unmixed = matches!(log.resume(b"abc", 1), Err(LogFault::Closed));
    Ok(has_no_end && is_too_long && is_unmixed)
}
