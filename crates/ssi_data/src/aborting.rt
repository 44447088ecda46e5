//! Aborts of the sessions that have a transaction.

ghost use Rattle.std.specs.Prelude.{◌≡◌, List, ℕ, None, true, false, IsTrue, IfOk, IfErr, OnOk};
ghost use Rattle.ssi_store.specs.Meaning.Courses.{Course, txn_in};
ghost use Rattle.ssi_durable.specs.Clauses.Journals.{is_full};
ghost use Rattle.ssi_durable.specs.Mirror.Servers.{has_failed, is_settled, store_of};
ghost use Rattle.ssi_data.specs.Clauses.Aborting.{HasAbortedOpen, HasCarriedOutAborts};

use crate::leaving::abort;
use sqlite_disk::Disk;
use ssi_durable::Server;
use ssi_line::ProtocolStore;
use ssi_log::LogFault;
use std::alloc::Global;

/// Aborts each session that has a transaction, by lines as if another connection had sent them, and waits until this is on the
/// disk. Returns whether no session has one then: some are left if memory runs out. `Full` if there is no room in the log for the
/// next abort, and the file can't grow. After any other fault the log has failed.
pub fn abort_open<T: ProtocolStore + Drop, D: Disk + Drop>(
    alloc: Global,
    server: &mut Server<T, D>,
) -> Result<bool, LogFault>
    ensures aborts { HasAbortedOpen T.keeps T.is_at server.old server.new }
    ensures all { IfOk result (λ all. IsTrue all → HasCarriedOutAborts T.keeps T.is_at server.old server.new) }
    ensures settled { OnOk result (is_settled server.new ≡ true) }
    ensures idle { IfOk result (λ all. IsTrue all → (c : Course) → T.is_at (store_of server.new) c
        → (s : List ℕ) → txn_in s c ≡ None) }
    ensures fault { IfErr result (λ fault. is_full fault ≡ false → has_failed server.new ≡ true) }
{
    let all = abort_each_open(alloc, server)?;
    server.settle()?;
    Ok(all && server.open_session().is_none())
}

/// Aborts each session that has a transaction. Returns whether each abort was carried out, until no session had one.
fn abort_each_open<T: ProtocolStore + Drop, D: Disk + Drop>(
    alloc: Global,
    server: &mut Server<T, D>,
) -> Result<bool, LogFault>
    ensures aborts { HasAbortedOpen T.keeps T.is_at server.old server.new }
    ensures all { IfOk result (λ all. IsTrue all → HasCarriedOutAborts T.keeps T.is_at server.old server.new) }
    ensures fault { IfErr result (λ fault. is_full fault ≡ false → has_failed server.new ≡ true) }
{
    for _ in 0..u64::MAX {
        let Some(session) = server.open_session() else {
            return Ok(true);
        };
        if !abort(alloc, session, server)? {
            return Ok(false);
        }
    }
    Ok(false)
}
