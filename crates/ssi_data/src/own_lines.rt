//! Lines of the server's own.

ghost use Rattle.std.specs.Prelude.{◌≡◌, false, true, is_some, IfErr};
ghost use Rattle.ssi_durable.specs.Clauses.Journals.{is_full};
ghost use Rattle.ssi_durable.specs.Mirror.Servers.{has_failed};
ghost use Rattle.ssi_cli.specs.Clauses.Leaving.{HasNoted};
ghost use Rattle.ssi_data.specs.Clauses.Calls.{IsOwn, Makes};

use crate::tables::Tables;
use crate::turns::{carry_out, hand_on};
use sqlite_disk::Disk;
use ssi_cli::laws::calls_are_deeds;
use ssi_durable::Server;
use ssi_line::ProtocolStore;
use ssi_log::LogFault;
use std::alloc::Global;

/// Carries out this line, which has a line feed, as that of a connection of its own, to which nothing is written. When a session
/// had its last command isn't changed by it. Returns `false` if memory runs out; then it may not have been carried out. `Full`
/// if there is no room in the log for it, and the file can't grow. After any other fault the log has failed.
pub(crate) fn carry_out_own<T: ProtocolStore + Drop, D: Disk + Drop>(
    alloc: Global,
    line: &[u8],
    tables: &mut Tables,
    server: &mut Server<T, D>,
) -> Result<bool, LogFault>
    ensures own { Makes T.keeps T.is_at server.old server.new
        (λ calls made. IsOwn line.now made calls × HasNoted tables.old.users tables.new.users made) }
    ensures times { tables.new.times ≡ tables.old.times }
    ensures clock { tables.new.second ≡ tables.old.second }
    ensures table { is_some tables.new.users ≡ is_some tables.old.users }
    ensures fault { IfErr result (λ fault. is_full fault ≡ false → has_failed server.new ≡ true) }
{
    let second = tables.second;
    let times = tables.times.take();
    let done = carry_out_untimed(alloc, line, tables, server);
    tables.times = times;
    tables.second = second;
    done
}

fn carry_out_untimed<T: ProtocolStore + Drop, D: Disk + Drop>(
    alloc: Global,
    line: &[u8],
    tables: &mut Tables,
    server: &mut Server<T, D>,
) -> Result<bool, LogFault>
    ensures own { Makes T.keeps T.is_at server.old server.new
        (λ calls made. IsOwn line.now made calls × HasNoted tables.old.users tables.new.users made) }
    ensures table { is_some tables.new.users ≡ is_some tables.old.users }
    ensures fault { IfErr result (λ fault. is_full fault ≡ false → has_failed server.new ≡ true) }
{
    calls_are_deeds();
    let Ok(token) = server.opened(alloc) else {
        return Ok(false);
    };
    if hand_on(token, line, server).is_err() {
        return Ok(false);
    }
    let carried = carry_out(alloc, token, tables, server);
    let done = server.is_open(token);
    server.closed(token);
    match carried {
        Ok(()) => Ok(done),
        Err(fault) => Err(fault),
    }
}
