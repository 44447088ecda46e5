//! Segments that are made, published, listed and removed.

use crate::say;
use crate::trouble::Trouble;
use sqlite_disk::Disk;
use ssi_files::{Folder, FolderFault, SegmentNumber, Unknown};
use std::os::unix::fs::MetadataExt;
use std::{fs, io};

pub(crate) fn say_segments(rt: &HostRuntime) -> Result<(), Trouble> {
    let mut made = Folder::open(rt, "segments")?;
    make(rt, &mut made)?;
    let mut found = Folder::open(rt, "found")?;
    say_segments_of(rt, &mut found)?;
    found.remove_new(rt)?;
    found.sync()?;
    say_left(rt)?;
    Ok(())
}

fn make(rt: &HostRuntime, folder: &mut Folder) -> Result<(), Trouble> {
    let (Some(first), Some(second)) = (SegmentNumber::new(1), SegmentNumber::new(2)) else {
        return Ok(());
    };
    write_new(rt, folder, first)?;
    say_segments_of(rt, folder)?;
    let mode = fs::metadata(rt, "segments/00000001.new")?.mode();
    say(rt, "the owner alone may use it", mode & 0o777 == 0o600)?;
    say_fault(rt, "made twice", folder.make_segment::<Unknown>(rt, first))?;
    folder.publish(rt, first)?;
    say_segments_of(rt, folder)?;
    say_fault(rt, "published twice", folder.publish(rt, first))?;
    say_fault(rt, "missing", folder.open_segment(rt, second, Unknown))?;
    Ok(())
}

fn write_new(rt: &HostRuntime, folder: &mut Folder, number: SegmentNumber) -> Result<(), Trouble> {
    let mut disk = folder.make_segment::<Unknown>(rt, number)?;
    disk.write_at(0, b"first")?;
    disk.sync()?;
    Ok(())
}

fn say_segments_of(rt: &HostRuntime, folder: &mut Folder) -> Result<(), Trouble> {
    println!(rt; "segments:")?;
    for number in &folder.segments(rt)? {
        println!(rt; "  {}", number.get())?;
    }
    Ok(())
}

/// Writes which files are left, of some.
fn say_left(rt: &HostRuntime) -> io::Result<()> {
    let new = fs::exists(rt, "found/00000004.new")? || fs::exists(rt, "found/00000005.new")?;
    say(rt, "new files are removed", !new)?;
    let others = fs::exists(rt, "found/5.new")? && fs::exists(rt, "found/00000001.log")?;
    say(rt, "others stay", others && fs::exists(rt, "found/notes")?)
}

fn say_fault<T: Drop>(
    rt: &HostRuntime,
    case: &str,
    outcome: Result<T, FolderFault>,
) -> io::Result<()> {
    match outcome {
        Ok(_) => println!(rt; "{case}: done"),
        Err(fault) => println!(rt; "{case}: {fault}"),
    }
}
