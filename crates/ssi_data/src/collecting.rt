//! Collections: the server has its store drop versions that nothing needs any more.

ghost use Rattle.std.specs.Prelude.{◌≡◌, ◌<◌, ◌+◌, ℕ, true, false, is_some, IfErr};
ghost use Rattle.ssi_durable.specs.Clauses.Journals.{is_full};
ghost use Rattle.ssi_durable.specs.Mirror.Servers.{has_failed, commits_of};
ghost use Rattle.ssi_cli.specs.Clauses.Leaving.{HasNoted};
ghost use Rattle.ssi_data.specs.Clauses.Calls.{IsCollection, Makes};

use crate::own_lines::carry_out_own;
use crate::tables::Tables;
use sqlite_disk::Disk;
use ssi_cli::laws::calls_are_deeds;
use ssi_durable::Server;
use ssi_line::ProtocolStore;
use ssi_log::LogFault;
use std::alloc::Global;

/// After so many commits it is looked how many versions there are.
const COMMITS: u64 = 10_000;

/// What was found when versions were counted last.
#[derive(Drop)]
pub(crate) struct Upkeep {
    /// How many commits there were then.
    pub(crate) commits: u64,
    /// How many versions the last collection left; 0 if there was none.
    pub(crate) versions: u64,
}

/// Has the store drop the versions that nothing needs any more, if it is time for it: if there were 10,000 commits since it was
/// looked last, and there are at least twice as many versions as the last collection left. Nothing comes of it if memory runs
/// out, or if there is no room in the log for the line and the file can't grow. That is `Full`; after any other fault the log
/// has failed.
pub(crate) fn tidy<T: ProtocolStore + Drop, D: Disk + Drop>(
    alloc: Global,
    upkeep: &mut Upkeep,
    tables: &mut Tables,
    server: &mut Server<T, D>,
) -> Result<(), LogFault>
    ensures tidied { Makes T.keeps T.is_at server.old server.new
        (λ calls made. IsCollection made calls × HasNoted tables.old.users tables.new.users made) }
    // Nothing is done before it is time to look.
    ensures early { commits_of server.old < upkeep.old.commits + 10000 → server.new ≡ server.old }
    ensures times { tables.new.times ≡ tables.old.times }
    ensures table { is_some tables.new.users ≡ is_some tables.old.users }
    ensures fault { IfErr result (λ fault. is_full fault ≡ false → has_failed server.new ≡ true) }
{
    let commits = server.commits();
    calls_are_deeds();
    if commits.saturating_sub(upkeep.commits) < COMMITS {
        return Ok(());
    }
    upkeep.commits = commits;
    let versions = server.versions();
    if versions < upkeep.versions.saturating_mul(2) {
        return Ok(());
    }
    let done = carry_out_own(alloc, b"collect\n", tables, server);
    upkeep.versions = server.versions();
    match done {
        Ok(_) => Ok(()),
        Err(fault) => Err(fault),
    }
}
