//! A server over a log, and what is done with it.

use crate::life::{CONNECTIONS, Life};
use crate::texts::text_of;
use crate::wrong::Wrong;
use disk_testing::{Lent, Mixing};
use sqlite_disk::Disk;
use ssi_durable::{Recovered, RecoveryFault, Release, ReplayFault, Server, recover};
use ssi_log::{Log, LogFault};
use ssi_reads::IndexMarks;
use ssi_store::LiveStore;
use ssi_versions::KeyChains;
use std::alloc::Global;

/// A store that keeps no history, since a log does.
type Logged = LiveStore<KeyChains, IndexMarks>;

/// A server over this disk.
pub type Serving<D> = Server<Logged, D>;

/// How a recovery has ended.
#[derive(Clone, Copy, PartialEq, Eq)]
pub enum Ending {
    Recovered(Recovered),
    /// The text isn't that of a log.
    Refused(ReplayFault),
    /// The text has no end.
    NoEnd,
    /// A call of the disk has failed, while the text was read or the log was resumed.
    Failed,
    /// Something else has failed.
    Other,
}

fn new_logged(alloc: Global) -> Logged {
    LiveStore::new(alloc, KeyChains::new(alloc), IndexMarks::new(alloc))
}

/// Recovers the log of a segment, with room for so many bytes more.
fn recovery<D: Disk>(
    alloc: Global,
    store: &mut Logged,
    log: &mut Log<D>,
    number: u32,
    ahead: usize,
) -> Ending {
    match recover(alloc, store, log, number, ahead) {
        Ok(recovered) => Ending::Recovered(recovered),
        Err(RecoveryFault::Replay(fault)) => Ending::Refused(fault),
        Err(RecoveryFault::Read(LogFault::NoEnd)) => Ending::NoEnd,
        Err(
            RecoveryFault::Read(LogFault::Failed(_)) | RecoveryFault::Resume(LogFault::Failed(_)),
        ) => Ending::Failed,
        Err(_) => Ending::Other,
    }
}

/// Recovers the log of a disk, which is to be that of this segment, and does nothing with it.
pub fn recovery_over(alloc: Global, disk: &mut Mixing, number: u32, ahead: usize) -> Ending {
    let mut log = Log::new(Lent::new(disk));
    recovery(alloc, &mut new_logged(alloc), &mut log, number, ahead)
}

/// What is done with a server.
pub trait Plan {
    /// Does it. The life is told what the server does.
    fn follow<D: Disk + Drop>(
        &mut self,
        alloc: Global,
        server: &mut Serving<D>,
        life: &mut Life,
    ) -> Result<(), Wrong>;
}

/// Recovers the log of a disk with room for so many bytes more, and follows the plan with a server over it. It doesn't if the
/// disk fails.
pub fn live<D: Disk + Drop, P: Plan>(
    alloc: Global,
    disk: D,
    ahead: usize,
    life: &mut Life,
    plan: &mut P,
) -> Result<(), Wrong> {
    let mut store = new_logged(alloc);
    let mut log = Log::new(disk);
    let begins = life.begins(recovery(alloc, &mut store, &mut log, 1, ahead));
    if !matches!(begins, Ok(true)) {
        return begins.and(Ok(()));
    }
    let mut server = Server::new(alloc, store, log, life.release)?;
    plan.follow(alloc, &mut server, life)
}

/// Recovers the log of this file without more room than it has, and follows the plan with a server over it. No call of the file
/// may fail.
pub fn live_well<P: Plan>(
    alloc: Global,
    disk: &mut Mixing,
    life: &mut Life,
    plan: &mut P,
) -> Result<(), Wrong> {
    live(alloc, Lent::new(disk), 0, life, plan)?;
    if life.has_failed {
        return Err(Wrong::Failed);
    }
    Ok(())
}

/// The same, with the lines that this file has.
pub fn live_over<P: Plan>(
    alloc: Global,
    disk: &mut Mixing,
    release: Release,
    plan: &mut P,
) -> Result<(), Wrong> {
    let mut life = Life::new(alloc, text_of(disk), release)?;
    live_well(alloc, disk, &mut life, plan)
}

/// Carries out a line of the connection. If the file can't grow, the line still waits; this isn't so of `stop`.
pub fn step<D: Disk + Drop>(
    alloc: Global,
    server: &mut Serving<D>,
    token: u64,
    life: &mut Life,
) -> Result<(), Wrong> {
    let line = Vec::from_slice(alloc, server.next_line(token).unwrap_or(b""))?;
    match server.step(alloc, token) {
        Ok(Some(carried)) => life.carried(alloc, token, &line, carried.counted)?,
        Ok(None) => {}
        Err(LogFault::Full(_)) => {
            life.was_full = true;
            let waits = server.next_line(token).unwrap_or(b"");
            if waits != line.as_slice() || waits == b"stop".as_slice() {
                return Err(Wrong::NoRoom);
            }
        }
        Err(LogFault::Failed(_)) => life.has_failed = true,
        Err(_) => return Err(Wrong::Failed),
    }
    Ok(())
}

/// Waits until all lines are on the disk.
pub fn settle<D: Disk + Drop>(server: &mut Serving<D>, life: &mut Life) -> Result<(), Wrong> {
    match server.settle() {
        Ok(()) => Ok(()),
        Err(LogFault::Failed(_)) => {
            life.has_failed = true;
            Ok(())
        }
        Err(_) => Err(Wrong::Failed),
    }
}

/// Gives out the first bytes that are to be written to the connection, as many as chance has it.
pub fn write<D: Disk + Drop>(
    alloc: Global,
    server: &mut Serving<D>,
    token: u64,
    chance: u64,
    life: &mut Life,
) -> Result<(), Wrong> {
    let bytes = server.to_write(token);
    if !server.is_settled() && !bytes.is_empty() {
        if life.release == Release::Synced {
            return Err(Wrong::TooEarly);
        }
        life.was_early = true;
    }
    let count = chance as usize % (bytes.len() + 1);
    life.gave(alloc, token, &bytes[..count])?;
    server.written(token, count);
    Ok(())
}

/// Looks whether nothing more is carried out or given out after a fault of the log.
pub fn rest<D: Disk + Drop>(alloc: Global, server: &mut Serving<D>) -> Result<(), Wrong> {
    if !matches!(server.settle(), Err(LogFault::Closed)) {
        return Err(Wrong::AfterFault);
    }
    for token in 0..CONNECTIONS {
        let is_idle = matches!(server.step(alloc, token), Ok(None) | Err(LogFault::Closed));
        if !is_idle || !server.to_write(token).is_empty() {
            return Err(Wrong::AfterFault);
        }
    }
    Ok(())
}
