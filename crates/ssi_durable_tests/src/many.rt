//! More lines than are gathered before they are handed over to the log.

use crate::life::Life;
use crate::runs::end;
use crate::seen::Seen;
use crate::serving::{Plan, Serving, live_over, live_well, step};
use crate::texts::{HEAD, LEAST_ROOM, file};
use crate::wrong::Wrong;
use disk_testing::Mixing;
use sqlite_disk::Disk;
use ssi_durable::Release;
use std::alloc::Global;

/// How many lines follow the first one. They have more than 65,536 bytes.
const LINES: usize = 650;

const LINE: &[u8; 103] =
    b"put a a_key_that_has_as_many_bytes_as And.a.value.that.has.no.more.than.64.bytes.but.also.not.less____\n";

/// Nobody waits until the lines are on the disk, and nothing is given out. After a crash there is a front of them, with which
/// the server goes on.
pub fn many_lines(alloc: Global, seed: u64, seen: &mut Seen) -> Result<(), Wrong> {
    let mut disk = file(alloc, seed, HEAD, LEAST_ROOM)?;
    let mut life = Life::new(alloc, HEAD, Release::Synced)?;
    live_twice(alloc, &mut disk, &mut life, seen)
}

fn live_twice(
    alloc: Global,
    disk: &mut Mixing,
    life: &mut Life,
    seen: &mut Seen,
) -> Result<(), Wrong> {
    live_well(alloc, disk, life, &mut ManyLines)?;
    end(alloc, disk, life, seen)?;
    live_over(alloc, disk, Release::Synced, &mut ManyLines)
}

#[derive(Clone, Copy)]
struct ManyLines;

impl Plan for ManyLines {
    fn follow<D: Disk + Drop>(
        &mut self,
        alloc: Global,
        server: &mut Serving<D>,
        life: &mut Life,
    ) -> Result<(), Wrong> {
        let token = server.opened(alloc)?;
        server.received(token, b"begin a\n")?;
        for _ in 0..LINES {
            server.received(token, LINE)?;
            step(alloc, server, token, life)?;
        }
        if server.is_settled() {
            return Err(Wrong::Failed);
        }
        Ok(())
    }
}
