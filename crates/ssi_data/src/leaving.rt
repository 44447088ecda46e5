//! What becomes of the sessions of a connection that is closed.

ghost use Rattle.std.specs.Prelude.{◌≡◌, ℕ, [], ◌∷◌, ◌++◌, Some, false, true, is_some, IfErr};
ghost use Rattle.ssi_store.specs.Meaning.Courses.{Abort};
ghost use Rattle.ssi_line.specs.Meaning.Spelling.{command_text};
ghost use Rattle.ssi_durable.specs.Clauses.Journals.{is_full};
ghost use Rattle.ssi_durable.specs.Mirror.Servers.{has_failed};
ghost use Rattle.ssi_cli.specs.Clauses.Leaving.{HasUsed, HasForgotten};
ghost use Rattle.ssi_cli.specs.Mirror.{last_in};
ghost use Rattle.ssi_data.specs.Clauses.Calls.{Makes};
ghost use Rattle.ssi_data.specs.Clauses.Leaving.{HasAborted, HasTried};

use crate::turns::hand_on;
use sqlite_disk::Disk;
use ssi_cli::{Users, abort_line};
use ssi_durable::Server;
use ssi_line::ProtocolStore;
use ssi_log::LogFault;
use ssi_store::Session;
use std::alloc::Global;

/// Aborts the sessions whose last command the connection sent, where that is wanted. Returns whether all are aborted: some
/// are left if memory runs out. `Full` if there is no room in the log for the next abort, and the file can't grow: then some
/// are left, too. After any other fault the log has failed.
pub(crate) fn abort_all<T: ProtocolStore + Drop, D: Disk + Drop>(
    alloc: Global,
    token: u64,
    users: &mut Option<Users>,
    server: &mut Server<T, D>,
) -> Result<bool, LogFault>
    ensures aborts { HasAborted T.keeps T.is_at (HasUsed users.old token) server.old server.new }
    ensures forgets { HasForgotten users.old users.new }
    ensures table { is_some users.new ≡ is_some users.old }
    ensures fault { IfErr result (λ fault. is_full fault ≡ false → has_failed server.new ≡ true) }
{
    match users {
        Some(users) => abort_each(alloc, token, users, server),
        None => Ok(true),
    }
}

/// Aborts the sessions whose last command the connection sent, as [`abort_all`] does.
pub(crate) fn abort_each<T: ProtocolStore + Drop, D: Disk + Drop>(
    alloc: Global,
    token: u64,
    users: &mut Users,
    server: &mut Server<T, D>,
) -> Result<bool, LogFault>
    ensures aborts { HasAborted T.keeps T.is_at (λ s. last_in users.old s ≡ Some token) server.old server.new }
    ensures forgets { HasForgotten (Some users.old) (Some users.new) }
    ensures fault { IfErr result (λ fault. is_full fault ≡ false → has_failed server.new ≡ true) }
{
    for _ in 0..u64::MAX {
        let Some(session) = users.next_of(token) else {
            users.remove(token);
            return Ok(true);
        };
        if !abort(alloc, session, server)? {
            return Ok(false);
        }
        users.forget(token, &session);
    }
    Ok(false)
}

/// Carries out `abort` of the session, as the line of a connection of its own. Returns whether it did: it didn't if memory
/// runs out.
pub(crate) fn abort<T: ProtocolStore + Drop, D: Disk + Drop>(
    alloc: Global,
    session: Session,
    server: &mut Server<T, D>,
) -> Result<bool, LogFault>
    ensures aborted { Makes T.keeps T.is_at server.old server.new (λ calls made. HasTried session result calls made) }
    ensures fault { IfErr result (λ fault. is_full fault ≡ false → has_failed server.new ≡ true) }
{
    let Ok(line) = abort_line(alloc, &session) else {
        return Ok(false);
    };
    abort_by(alloc, session, &line, server)
}

/// Carries out this line, which is `abort` of the session, as [`abort`] does.
fn abort_by<T: ProtocolStore + Drop, D: Disk + Drop>(
    alloc: Global,
    session: Session,
    line: &[u8],
    server: &mut Server<T, D>,
) -> Result<bool, LogFault>
    requires { line.now ≡ command_text (Abort session) ++ (10 ∷ []) }
    ensures aborted { Makes T.keeps T.is_at server.old server.new (λ calls made. HasTried session result calls made) }
    ensures fault { IfErr result (λ fault. is_full fault ≡ false → has_failed server.new ≡ true) }
{
    let Ok(token) = server.opened(alloc) else {
        return Ok(false);
    };
    if hand_on(token, line, server).is_err() {
        return Ok(false);
    }
    let stepped = server.step(alloc, token);
    server.closed(token);
    match stepped {
        Ok(carried) => Ok(carried.is_some()),
        Err(fault) => Err(fault),
    }
}
