//! A case of a server of which only `committed` waits for the disk, whose values were worked out by hand.

use crate::life::Life;
use crate::serving::{Plan, Serving};
use crate::texts::{HEAD, file};
use crate::worked::{is, leaves, say};
use crate::wrong::Wrong;
use sqlite_disk::Disk;
use ssi_durable::Release;
use std::alloc::Global;

/// Two clients use the store. Before the settle the replies are given out up to the first `committed` to each.
pub fn early_replies(alloc: Global) -> Result<(), Wrong> {
    leaves(
        alloc,
        &mut file(alloc, 0, HEAD, 1000)?,
        Release::Early,
        &mut TwoClients,
        b"# ssi log 1 segment 1\n# loaded\nbegin a\nput a k 1\ncommit a\nbegin a\nbegin b\nget b k\nput b k 2\ncommit b\nput a k 3\ncommit a\n",
    )
}

#[derive(Clone, Copy)]
struct TwoClients;

impl Plan for TwoClients {
    fn follow<D: Disk + Drop>(
        &mut self,
        alloc: Global,
        server: &mut Serving<D>,
        _life: &mut Life,
    ) -> Result<(), Wrong> {
        let (one, two) = (server.opened(alloc)?, server.opened(alloc)?);
        say(alloc, server, one, b"begin a\nput a k 1\n")?;
        if !server.release().is_early() || server.is_settled() || server.is_waiting() {
            return Err(Wrong::Value);
        }
        is(server.to_write(one), b"begun 1\ndone\n")?;
        say(alloc, server, one, b"commit a\nbegin a\n")?;
        say(alloc, server, two, b"begin b\nget b k\n")?;
        is(server.to_write(one), b"begun 1\ndone\n")?;
        is(server.to_write(two), b"begun 3\nvalue 1\n")?;
        server.written(one, 6);
        is(server.to_write(one), b"1\ndone\n")?;
        // no more is written than may be
        server.written(one, 100);
        is(server.to_write(one), b"")?;
        if !server.is_waiting() || server.settle().is_err() || server.is_waiting() {
            return Err(Wrong::Value);
        }
        is(server.to_write(one), b"committed\nbegun 2\n")?;
        is(server.to_write(two), b"begun 3\nvalue 1\n")?;
        go_on(alloc, server, one, two)
    }
}

/// One commits, and the other is answered that it can't.
fn go_on<D: Disk + Drop>(
    alloc: Global,
    server: &mut Serving<D>,
    one: u64,
    two: u64,
) -> Result<(), Wrong> {
    say(alloc, server, two, b"put b k 2\ncommit b\n")?;
    is(server.to_write(two), b"begun 3\nvalue 1\ndone\n")?;
    say(alloc, server, one, b"put a k 3\ncommit a\n")?;
    is(
        server.to_write(one),
        b"committed\nbegun 2\ndone\nconflict k 3\n",
    )?;
    // of one of them a reply waits, and then of none
    if server.waiting() != 1 || server.settle().is_err() || server.waiting() != 0 {
        return Err(Wrong::Failed);
    }
    is(server.to_write(two), b"begun 3\nvalue 1\ndone\ncommitted\n")
}
