//! The start of a server.

ghost use Rattle.std.specs.Prelude.{ℕ, List, IfOk};
ghost use Rattle.ssi_store.specs.Meaning.Courses.{New};
ghost use Rattle.ssi_durable.specs.Clauses.Holding.{is_early};
ghost use Rattle.ssi_data.specs.Clauses.Starts.{HasStarted};

use crate::fault::DataFault;
use sqlite_disk::Disk;
use ssi_durable::laws::texts_fall_into_lines;
use ssi_durable::{Recovered, Release, Server, recover};
use ssi_line::ProtocolStore;
use ssi_log::Log;
use std::alloc::Global;

/// A server that has started, and what was found.
#[derive(Drop)]
pub struct Started<T: Drop, D: Disk + Drop> {
    pub server: Server<T, D>,
    /// What was found in the file.
    pub recovered: Recovered,
}

/// Starts a server of this store, which is new. It has carried out the lines of the log in this file, that of segment `number`, and
/// gives out replies so.
///
/// The faults are those of [`recover`], and `Memory` if memory runs out after it. A crash leaves the whole lines that there
/// were, whatever is returned.
pub fn start<T: ProtocolStore + Drop, D: Disk + Drop>(
    alloc: Global,
    mut store: T,
    disk: D,
    number: u32,
    release: Release,
) -> Result<Started<T, D>, DataFault>
    ensures { T.is_at store (New 1) → IfOk result (λ s. (text : List ℕ)
        × HasStarted (is_early release) T.keeps T.is_at number (D.seen disk) s.server s.recovered text) }
{
    texts_fall_into_lines();
    let mut log = Log::new(disk);
    // Room for more lines is made by the first one, so that a full disk can still be read.
    let recovered = recover(alloc, &mut store, &mut log, number, 0)?;
    let server = Server::new(alloc, store, log, release)?;
    Ok(Started { server, recovered })
}
