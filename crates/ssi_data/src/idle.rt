//! Aborts of the sessions that had no command for long.

ghost use Rattle.std.specs.Prelude.{◌≡◌, ◌≤◌, ◌<◌, ◌+◌, ℕ, List, Some, true, false, is_some, IfOk, IfErr};
ghost use Rattle.ssi_durable.specs.Clauses.Journals.{is_full};
ghost use Rattle.ssi_durable.specs.Mirror.Servers.{has_failed};
ghost use Rattle.ssi_cli.specs.Clauses.Leaving.{HasForgotten};
ghost use Rattle.ssi_cli.specs.Mirror.{last_at};
ghost use Rattle.ssi_data.specs.Clauses.Idling.{HasAbortedIdle, IsIdleSince};

use crate::own_lines::carry_out_own;
use crate::tables::Tables;
use sqlite_disk::Disk;
use ssi_cli::abort_line;
use ssi_durable::Server;
use ssi_line::ProtocolStore;
use ssi_log::LogFault;
use ssi_store::Session;
use std::alloc::Global;
use std::io;
use std::time::Instant;

/// For how long a session may have no command.
#[derive(Drop)]
pub struct Idle {
    // for so many seconds
    limit: u64,
    // seconds are counted from here
    start: Instant,
    // sessions that had their last command in a second before this one were aborted
    swept: u64,
}

impl Idle {
    ghost use Rattle.ssi_data.specs.Mirror.{seconds_of};

    /// A session may have none for so many seconds. An error if the clock can't be read.
    pub fn new(rt: &HostRuntime, limit: u64) -> io::Result<Idle>
        ensures { IfOk result (λ idle. seconds_of idle ≡ limit) }
    {
        Ok(Idle {
            limit,
            start: Instant::now(rt)?,
            swept: 0,
        })
    }

    /// Returns the second that it is; this one at least, also if the clock can't be read.
    pub(crate) fn second(&self, rt: &HostRuntime, least: u64) -> u64
        ensures { least ≤ result }
    {
        match self.start.elapsed(rt) {
            Ok(elapsed) => elapsed.as_secs().max(least),
            Err(_) => least,
        }
    }
}

/// Aborts the sessions that had no command for longer than they may, by lines of the server's own. Some are left if memory runs
/// out. `Full` if there is no room in the log for the next abort, and the file can't grow: then some are left, too. After any
/// other fault the log has failed.
pub(crate) fn abort_idle<T: ProtocolStore + Drop, D: Disk + Drop>(
    alloc: Global,
    idle: &mut Idle,
    tables: &mut Tables,
    server: &mut Server<T, D>,
) -> Result<(), LogFault>
    ensures aborts { HasAbortedIdle T.keeps T.is_at (IsIdleSince idle.old.limit tables.old.second tables.old.times)
        tables.old.users tables.new.users server.old server.new }
    ensures times { HasForgotten tables.old.times tables.new.times }
    ensures clock { tables.new.second ≡ tables.old.second }
    ensures table { is_some tables.new.users ≡ is_some tables.old.users }
    ensures fault { IfErr result (λ fault. is_full fault ≡ false → has_failed server.new ≡ true) }
{
    for _ in 0..u64::MAX {
        if tables.second.saturating_sub(idle.swept) <= idle.limit {
            return Ok(());
        }
        if !abort_all_of(alloc, idle.swept, tables, server)? {
            return Ok(());
        }
        idle.swept += 1;
    }
    Ok(())
}

/// Aborts the sessions that had their last command in this second. Returns whether all are aborted.
fn abort_all_of<T: ProtocolStore + Drop, D: Disk + Drop>(
    alloc: Global,
    second: u64,
    tables: &mut Tables,
    server: &mut Server<T, D>,
) -> Result<bool, LogFault>
    ensures aborts { HasAbortedIdle T.keeps T.is_at (λ s. last_at tables.old.times s ≡ Some second)
        tables.old.users tables.new.users server.old server.new }
    ensures times { HasForgotten tables.old.times tables.new.times }
    ensures clock { tables.new.second ≡ tables.old.second }
    ensures table { is_some tables.new.users ≡ is_some tables.old.users }
    ensures fault { IfErr result (λ fault. is_full fault ≡ false → has_failed server.new ≡ true) }
{
    for _ in 0..u64::MAX {
        let Some(session) = tables.next_at(second) else {
            return Ok(true);
        };
        if !abort(alloc, session, tables, server)? {
            return Ok(false);
        }
        tables.forget_time(second, &session);
    }
    Ok(false)
}

/// Aborts the session. Returns `false` if memory runs out; then it may not have been aborted.
fn abort<T: ProtocolStore + Drop, D: Disk + Drop>(
    alloc: Global,
    session: Session,
    tables: &mut Tables,
    server: &mut Server<T, D>,
) -> Result<bool, LogFault>
    ensures aborts { HasAbortedIdle T.keeps T.is_at (λ s. s ≡ session) tables.old.users tables.new.users server.old server.new }
    ensures times { tables.new.times ≡ tables.old.times }
    ensures clock { tables.new.second ≡ tables.old.second }
    ensures table { is_some tables.new.users ≡ is_some tables.old.users }
    ensures fault { IfErr result (λ fault. is_full fault ≡ false → has_failed server.new ≡ true) }
{
    let Ok(line) = abort_line(alloc, &session) else {
        return Ok(false);
    };
    carry_out_own(alloc, &line, tables, server)
}
