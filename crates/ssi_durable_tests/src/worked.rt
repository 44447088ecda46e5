//! Cases whose values were worked out by hand.

use crate::life::Life;
use crate::serving::{Plan, Serving, live_over};
use crate::texts::{HEAD, file, text_of};
use crate::wrong::Wrong;
use disk_testing::Mixing;
use sqlite_disk::{Crash, Disk};
use ssi_durable::Release;
use ssi_log::LogFault;
use std::alloc::Global;

/// The values have to be the same.
pub fn is(found: &[u8], wanted: &[u8]) -> Result<(), Wrong> {
    if found != wanted {
        return Err(Wrong::Value);
    }
    Ok(())
}

/// The plan is followed, and after it and a crash the file has this text.
pub fn leaves<P: Plan>(
    alloc: Global,
    disk: &mut Mixing,
    release: Release,
    plan: &mut P,
    text: &[u8],
) -> Result<(), Wrong> {
    live_over(alloc, disk, release, plan)?;
    disk.crash();
    is(text_of(disk), text)
}

/// Carries out all lines that wait of the connection.
fn run<D: Disk + Drop>(alloc: Global, server: &mut Serving<D>, token: u64) -> Result<(), Wrong> {
    for _ in 0..100 {
        match server.step(alloc, token) {
            Ok(Some(_)) => {}
            Ok(None) => return Ok(()),
            Err(_) => return Err(Wrong::Failed),
        }
    }
    Err(Wrong::Value)
}

/// The connection sends the lines, of which one at least counts, and gets these replies: all after a settle, and none before.
fn talk<D: Disk + Drop>(
    alloc: Global,
    server: &mut Serving<D>,
    token: u64,
    lines: &[u8],
    replies: &[u8],
) -> Result<(), Wrong> {
    server.received(token, lines)?;
    run(alloc, server, token)?;
    is(server.to_write(token), b"")?;
    if server.is_settled() || server.settle().is_err() {
        return Err(Wrong::Failed);
    }
    is(server.to_write(token), replies)?;
    server.written(token, replies.len());
    is(server.to_write(token), b"")
}

/// One client sends the lines, and gets the replies.
#[derive(Clone, Copy)]
pub struct OneClient<'a> {
    pub lines: &'a [u8],
    pub replies: &'a [u8],
}

impl Plan for OneClient<'_> {
    fn follow<D: Disk + Drop>(
        &mut self,
        alloc: Global,
        server: &mut Serving<D>,
        _life: &mut Life,
    ) -> Result<(), Wrong> {
        let token = server.opened(alloc)?;
        talk(alloc, server, token, self.lines, self.replies)
    }
}

/// Two clients use the store. Nothing is given out before the settle, and after it exactly the replies.
pub fn replies(alloc: Global) -> Result<(), Wrong> {
    leaves(
        alloc,
        &mut file(alloc, 0, HEAD, 1000)?,
        Release::Synced,
        &mut TwoClients,
        b"# ssi log 1 segment 1\n# loaded\nbegin a\nput a k 1\nbegin b\nget b k\nget a k\n",
    )
}

#[derive(Clone, Copy)]
struct TwoClients;

impl Plan for TwoClients {
    fn follow<D: Disk + Drop>(
        &mut self,
        alloc: Global,
        server: &mut Serving<D>,
        _life: &mut Life,
    ) -> Result<(), Wrong> {
        let (one, two) = (server.opened(alloc)?, server.opened(alloc)?);
        say(alloc, server, one, b"begin a\nput a k 1\nget a")?;
        say(alloc, server, two, b"begin b\nget b k\n")?;
        say(alloc, server, one, b" k\n")?;
        is(server.to_write(one), b"")?;
        is(server.to_write(two), b"")?;
        // nothing is to be written, so nothing was
        server.written(one, 6);
        if server.release().is_early() || !server.is_waiting() || server.settle().is_err() {
            return Err(Wrong::Failed);
        }
        is(server.to_write(one), b"begun 1\ndone\nvalue 1\n")?;
        is(server.to_write(two), b"begun 2\nabsent\n")?;
        server.written(one, 6);
        is(server.to_write(one), b"1\ndone\nvalue 1\n")?;
        // a line that doesn't count needn't wait for the disk
        say(alloc, server, two, b"stay\n")?;
        is(server.to_write(two), b"begun 2\nabsent\n? syntax\n")
    }
}

/// The connection sends the bytes, and its lines are carried out.
pub fn say<D: Disk + Drop>(
    alloc: Global,
    server: &mut Serving<D>,
    token: u64,
    bytes: &[u8],
) -> Result<(), Wrong> {
    server.received(token, bytes)?;
    run(alloc, server, token)
}

const LINES: &[u8] = b"stat
begin a
begin a
hello
put a k 1
# loaded
begin b
put b k 2
scan a m k
scan a a z

commit a
stat of the store
get c k
commit b
commit b
dump of the store
collect
begin b
get b k
del b k
abort b
stop
begin d
";

/// The replies to these lines, up to the one that stops the server.
const REPLIES: &[u8] = b"stat open 0 kept 0 versions 0 keys 0
begun 1
! 1 busy
? syntax
done
? syntax
begun 2
done
! 3 range
rows 1 k,1
? syntax
committed
? syntax
! 2 idle
conflict k 1
! 2 idle
? syntax
kept 1
begun 3
value 1
done
aborted
stopped
";

const COUNTED: &[u8] = b"# ssi log 1 segment 1
# loaded
begin a
put a k 1
begin b
put b k 2
scan a a z
commit a
commit b
collect
begin b
get b k
del b k
abort b
";

/// Lines that are refused or no commands, `stat` and `stop` aren't in the log.
pub fn lines_that_count(alloc: Global) -> Result<(), Wrong> {
    let mut talk = OneClient {
        lines: LINES,
        replies: REPLIES,
    };
    leaves(
        alloc,
        &mut file(alloc, 0, HEAD, 1000)?,
        Release::Synced,
        &mut talk,
        COUNTED,
    )
}

/// The file can't grow. Lines are carried out while there is room, and then they wait; `stop` doesn't.
pub fn full_disk(alloc: Global) -> Result<(), Wrong> {
    let mut disk = file(alloc, 0, HEAD, 9)?;
    disk.fill();
    leaves(
        alloc,
        &mut disk,
        Release::Synced,
        &mut FillUp,
        b"# ssi log 1 segment 1\n# loaded\nbegin a\nget a k\n",
    )
}

#[derive(Clone, Copy)]
struct FillUp;

impl Plan for FillUp {
    fn follow<D: Disk + Drop>(
        &mut self,
        alloc: Global,
        server: &mut Serving<D>,
        _life: &mut Life,
    ) -> Result<(), Wrong> {
        let (one, two) = (server.opened(alloc)?, server.opened(alloc)?);
        talk(alloc, server, one, b"begin a\n", b"begun 1\n")?;
        talk(alloc, server, one, b"get a k\n", b"absent\n")?;
        waits(alloc, server, one, b"put a k 1")?;
        waits(alloc, server, two, b"stat")?;
        let three = server.opened(alloc)?;
        say(alloc, server, three, b"stop\n")?;
        is(server.to_write(three), b"stopped\n")?;
        if !server.is_stopped() {
            return Err(Wrong::Failed);
        }
        // after that no line of anybody is carried out
        run(alloc, server, one)
    }
}

/// The connection sends a line for which there is no room.
fn waits<D: Disk + Drop>(
    alloc: Global,
    server: &mut Serving<D>,
    token: u64,
    line: &[u8],
) -> Result<(), Wrong> {
    server.received(token, line)?;
    server.received(token, b"\n")?;
    if !matches!(server.step(alloc, token), Err(LogFault::Full(_))) {
        return Err(Wrong::NoRoom);
    }
    is(server.to_write(token), b"")?;
    is(server.next_line(token).unwrap_or(b""), line)
}
