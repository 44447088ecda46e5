//! A log in a file.

use crate::say;
use crate::trouble::Trouble;
use sqlite_disk::Disk;
use ssi_files::{Folder, SegmentNumber, Unknown};
use ssi_log::{Log, LogFault};

/// What a log has, the front of it that stays, and what is added.
#[derive(Clone, Copy)]
struct Lines<'a> {
    wanted: &'a [u8],
    front: &'a [u8],
    more: &'a [u8],
}

pub(crate) fn say_logs(rt: &HostRuntime) -> Result<(), Trouble> {
    let mut folder = Folder::open(rt, "logs")?;
    let Some(number) = SegmentNumber::new(1) else {
        return Ok(());
    };
    let mut log = Log::new(folder.make_segment::<Unknown>(rt, number)?);
    begin(rt, &mut log)?;
    drop(log);
    folder.publish(rt, number)?;
    let both = Lines {
        wanted: b"one\ntwo\n",
        front: b"one\ntwo\n",
        more: b"three",
    };
    go_on(rt, &mut folder, number, both)?;
    let torn = Lines {
        wanted: b"one\ntwo\nthree",
        front: b"one\ntwo\n",
        more: b"4\n",
    };
    go_on(rt, &mut folder, number, torn)?;
    let none = Lines {
        wanted: b"one\ntwo\n4\n",
        front: b"",
        more: b"5\n",
    };
    go_on(rt, &mut folder, number, none)?;
    let last = Lines {
        wanted: b"5\n",
        front: b"5\n",
        more: b"6\n",
    };
    go_on(rt, &mut folder, number, last)
}

/// A log in a new file, to which lines are added.
fn begin<D: Disk>(rt: &HostRuntime, log: &mut Log<D>) -> Result<(), Trouble> {
    let has_no_end = matches!(log.read(rt.alloc()), Err(LogFault::NoEnd));
    log.resume(b"", 7)?;
    log.append(b"one\n")?;
    let has_no_room = matches!(log.append(b"two\n"), Err(LogFault::NoRoom));
    log.extend(100)?;
    log.append(b"two\n")?;
    log.sync()?;
    say(rt, "begun", has_no_end && has_no_room && log.room() == 99)?;
    Ok(())
}

/// A log in the file that was found, which goes on.
fn go_on(
    rt: &HostRuntime,
    folder: &mut Folder,
    number: SegmentNumber,
    lines: Lines,
) -> Result<(), Trouble> {
    let mut log = Log::new(folder.open_segment(rt, number, Unknown)?);
    add(rt, &mut log, lines)
}

/// The log has the text that is wanted. It is resumed with a front of it, and a line is added.
fn add<D: Disk>(rt: &HostRuntime, log: &mut Log<D>, lines: Lines) -> Result<(), Trouble> {
    say(rt, "read", log.read(rt.alloc())?.as_slice() == lines.wanted)?;
    log.resume(lines.front, 50)?;
    log.append(lines.more)?;
    log.sync()?;
    Ok(())
}
