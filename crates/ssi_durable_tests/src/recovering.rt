//! Logs that are recovered, and files that aren't the log of a first segment.

use crate::plain::{Plain, new_store, replies_to};
use crate::serving::{Ending, live_over, recovery_over};
use crate::texts::{HEAD, file, text_of, whole_lines};
use crate::worked::{OneClient, is};
use crate::wrong::Wrong;
use disk_testing::Mixing;
use sqlite_disk::Crash;
use ssi_durable::{Recovered, Release, ReplayFault};
use std::alloc::{AllocError, Global};

const LOG: &[u8] = b"# ssi log 1 segment 1
# loaded
begin a
put a k 1
put a m 1
commit a
begin b
# a comment
put b k 2
begin c
get c k
put c m 3
";

/// What follows these lines, and the replies.
const MORE: &[u8] = b"get b k\nput c k 3\ncommit b\ncommit c\nbegin d\nget d k\nget c k\n";

const REPLIES: &[u8] = b"value 2\ndone\ncommitted\nconflict k 2\nbegun 4\nvalue 2\n! 2 idle\n";

const TALK: OneClient<'static> = OneClient {
    lines: MORE,
    replies: REPLIES,
};

/// A store that was recovered replies as one that has carried out all lines.
pub fn goes_on(alloc: Global) -> Result<(), Wrong> {
    are_carried_out(alloc)?;
    live_over(
        alloc,
        &mut file(alloc, 0, LOG, 1000)?,
        Release::Synced,
        &mut TALK,
    )
}

fn are_carried_out(alloc: Global) -> Result<(), Wrong> {
    are_replies_of(alloc, &mut new_store(alloc))
}

fn are_replies_of(alloc: Global, store: &mut Plain) -> Result<(), Wrong> {
    replies_to(alloc, store, LOG)?;
    is(&replies_to(alloc, store, MORE)?, REPLIES)
}

/// A line without a line feed is cut, and the log goes on in its place.
pub fn torn_line(alloc: Global) -> Result<(), Wrong> {
    let text = joined(alloc, LOG, b"commit c")?;
    cuts(alloc, &mut file(alloc, 2, &text, 1000)?)
}

fn cuts(alloc: Global, disk: &mut Mixing) -> Result<(), Wrong> {
    let wanted = Recovered {
        lines: 12,
        torn: 8,
        loaded: 31,
    };
    if recovery_over(alloc, disk, 1, 0) != Ending::Recovered(wanted) {
        return Err(Wrong::OtherLines);
    }
    is(text_of(disk), LOG)?;
    disk.crash();
    is(text_of(disk), LOG)?;
    live_over(alloc, disk, Release::Synced, &mut TALK)
}

fn joined(alloc: Global, text: &[u8], more: &[u8]) -> Result<Vec<u8>, AllocError> {
    let mut joined = Vec::from_slice(alloc, text)?;
    joined.extend_from_slice(more)?;
    Ok(joined)
}

/// There is no room for the zeros that a log is to have ahead. The whole lines stay, and later the log is recovered.
pub fn full_disk(alloc: Global) -> Result<(), Wrong> {
    let text = joined(alloc, LOG, b"commit c")?;
    stays(alloc, &mut file(alloc, 2, &text, 1000)?)
}

fn stays(alloc: Global, disk: &mut Mixing) -> Result<(), Wrong> {
    disk.fill();
    if recovery_over(alloc, disk, 1, 100_000) != Ending::Failed {
        return Err(Wrong::NoRoom);
    }
    disk.crash();
    is(whole_lines(text_of(disk)), LOG)?;
    live_over(alloc, disk, Release::Synced, &mut TALK)
}

/// Without its header a file isn't the log of this segment, and without a zero it has no text.
pub fn no_log(alloc: Global) -> Result<(), Wrong> {
    for (number, text) in [
        (1, ""),
        (1, "\n"),
        (1, "# ssi log 1 segment 1"),
        (1, "# ssi log 1 segment 2\n# loaded\n"),
        (1, "# ssi log 1 segment 11\n# loaded\n"),
        (1, "# ssi log 1 segment 01\n# loaded\n"),
        (1, "# ssi log 2 segment 1\n# loaded\n"),
        (1, " # ssi log 1 segment 1\n# loaded\n"),
        (1, "begin a\n# ssi log 1 segment 1\n"),
        (2, "# ssi log 1 segment 1\n# loaded\n"),
    ] {
        let mut disk = file(alloc, 2, text.as_bytes(), 0)?;
        refuses(
            alloc,
            &mut disk,
            number,
            Ending::Refused(ReplayFault::Header),
        )?;
    }
    refuses(
        alloc,
        &mut Mixing::with_bytes(alloc, 2, HEAD)?,
        1,
        Ending::NoEnd,
    )
}

/// A line that is no command, or whose command is refused.
pub fn damaged_line(alloc: Global) -> Result<(), Wrong> {
    for (line, more) in [
        (3, "hello\n"),
        (3, "\n"),
        (3, "get a k\n"),
        (4, "begin a\nget a k \nget a k\n"),
        (4, "begin a\nbegin a\n"),
        (4, "begin a\nstop\n"),
        (4, "begin a\ndump\ncommit a\n"),
        (5, "begin a\nput a k 1\nscan a m k\ncommit a\ntorn"),
        (6, "begin a\n# a comment\nput a k 1\ncommit b\n"),
    ] {
        let text = joined(alloc, HEAD, more.as_bytes())?;
        let wanted = Ending::Refused(ReplayFault::Damaged { line });
        refuses(alloc, &mut file(alloc, 2, &text, 0)?, 1, wanted)?;
    }
    Ok(())
}

/// The recovery ends so, and the file stays as it was, also after a crash.
fn refuses(alloc: Global, disk: &mut Mixing, number: u32, wanted: Ending) -> Result<(), Wrong> {
    let before = Vec::from_slice(alloc, disk.bytes())?;
    if recovery_over(alloc, disk, number, 70_000) != wanted {
        return Err(Wrong::NotRecovered);
    }
    disk.crash();
    if disk.bytes() != before.as_slice() {
        return Err(Wrong::Changed);
    }
    Ok(())
}
