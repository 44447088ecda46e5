//! A file as a disk.

use crate::say;
use crate::trouble::Trouble;
use sqlite_disk::Disk;
use ssi_files::{Folder, SegmentNumber, Unknown};
use std::io;

pub(crate) fn say_disks(rt: &HostRuntime) -> Result<(), Trouble> {
    let mut folder = Folder::open(rt, "disks")?;
    let Some(number) = SegmentNumber::new(7) else {
        return Ok(());
    };
    let mut disk = folder.make_segment::<Unknown>(rt, number)?;
    say(rt, "written", is_written(&mut disk)?)?;
    drop(disk);
    folder.publish(rt, number)?;
    let mut found = folder.open_segment(rt, number, Unknown)?;
    say(rt, "found again", has(&mut found, b"\0\0a")?)?;
    Ok(())
}

/// Bytes are written to a new file, read, and cut off.
fn is_written<D: Disk>(disk: &mut D) -> io::Result<bool> {
    if !disk.may_be_used() || !disk.mixes() || disk.len()? != 0 {
        return Ok(false);
    }
    disk.write_at(2, b"abc")?;
    disk.write_at(3, b"x")?;
    let refuses = disk.write_at(usize::MAX, b"x").is_err();
    let is_there = has(disk, b"\0\0axc")?;
    Ok(refuses && is_there && is_cut(disk)?)
}

fn is_cut<D: Disk>(disk: &mut D) -> io::Result<bool> {
    if !disk.may_be_used() {
        return Ok(false);
    }
    disk.set_len(3)?;
    disk.sync()?;
    has(disk, b"\0\0a")
}

/// Whether the file has these bytes, of which there are at most eight, and no more.
fn has<D: Disk>(disk: &mut D, wanted: &[u8]) -> io::Result<bool> {
    let mut bytes = [9; 8];
    if !disk.may_be_used() || disk.len()? != wanted.len() || wanted.len() >= bytes.len() {
        return Ok(false);
    }
    let bytes = &mut bytes[..wanted.len()];
    disk.read_at(0, bytes)?;
    let same = &*bytes == wanted;
    Ok(same && disk.read_at(1, bytes).is_err())
}
