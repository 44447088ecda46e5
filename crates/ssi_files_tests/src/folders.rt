//! Folders that are opened, and their locks.

use crate::say;
use crate::trouble::Trouble;
use ssi_files::Folder;
use std::os::unix::fs::MetadataExt;
use std::{fs, io};

pub(crate) fn say_folders(rt: &HostRuntime) -> Result<(), Trouble> {
    let folder = Folder::open(rt, "made")?;
    say_while_open(rt)?;
    drop(folder);
    let again = Folder::open(rt, "made/")?;
    say_fault(rt, "./made")?;
    drop(again);
    fs::write(rt, "a_file", b"text".as_slice())?;
    say_fault(rt, "a_file")?;
    say_fault(rt, "a_file/folder")?;
    say_fault(rt, "missing/folder")?;
    say_fault(rt, "")?;
    Ok(())
}

fn say_while_open(rt: &HostRuntime) -> io::Result<()> {
    say_fault(rt, "made")?;
    let (folder, lock) = (fs::metadata(rt, "made")?, fs::metadata(rt, "made/lock")?);
    say(
        rt,
        "the owner alone may use them",
        folder.mode() & 0o777 == 0o700 && lock.mode() & 0o777 == 0o600,
    )
}

/// Writes why the folder can't be opened.
fn say_fault(rt: &HostRuntime, path: &str) -> io::Result<()> {
    match Folder::open(rt, path) {
        Ok(_) => println!(rt; "'{path}': opened"),
        Err(fault) => println!(rt; "'{path}': {fault}"),
    }
}
