//! Calls of `ssi_files` on real files and folders, made in the folder where it runs, and logs of `ssi_log` in such files.
//! For each case it writes whether it is as defined. What an error says is written as it is.
#![tactic(auto)]

mod disks;
mod folders;
mod logs;
mod names;
mod segments;
mod trouble;

use crate::trouble::Trouble;
use std::io;

fn main(rt: HostRuntime) -> Result<(), Trouble> {
    names::say_names(&rt)?;
    folders::say_folders(&rt)?;
    segments::say_segments(&rt)?;
    disks::say_disks(&rt)?;
    logs::say_logs(&rt)
}

/// Writes whether a case is as defined.
pub(crate) fn say(rt: &HostRuntime, case: &str, is_so: bool) -> io::Result<()> {
    let outcome = if is_so { "as defined" } else { "otherwise" };
    println!(rt; "{case}: {outcome}")
}
