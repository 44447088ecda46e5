//! The open transactions of the sessions.

ghost use Rattle.std.specs.Prelude.{◌≡◌, ◌<◌, ◌≤◌, ◌+◌, List, [], ℕ, Some, None, true, cond, is_some, if◌then◌else◌, IfSome, IfNone, IfOk, IfErr};
ghost use Rattle.indexmap.specs.IndexMap.{index_map_len, spare};
ghost use Rattle.adya_keys.specs.Meaning.Keys.{key_eq};
ghost use Rattle.ssi_store.specs.Machinery.Opens.{open_at, AreCounted, IsReplaced};
ghost use Rattle.ssi_store.specs.declared.command.Refusal.TheVariants.{Idle};

use crate::open::Open;
use crate::{Refusal, Session};
use indexmap::IndexMap;

/// Returns the session's transaction. `Idle` if it has none.
pub(crate) fn open_of(
    sessions: &IndexMap<Session, Open>,
    session: Session,
) -> Result<&Open, Refusal>
    ensures open { IfOk result (λ o. open_at session sessions.now.entries ≡ Some o.now) }
    ensures idle { IfErr result (λ r. (r ≡ Idle) × (open_at session sessions.now.entries ≡ None)) }
{
    match sessions.get(&session) {
        Some(open) => Ok(open),
        None => Err(Refusal::Idle),
    }
}

/// Counts one more operation of the session's transaction.
pub(crate) fn count_at(sessions: &mut IndexMap<Session, Open>, session: Session)
    requires { IfSome (open_at session sessions.old.entries) (λ o. o.operations < 65535) }
    ensures counted { AreCounted session sessions.old.entries sessions.new.entries }
    ensures len { index_map_len sessions.new ≡ index_map_len sessions.old }
{
    let Some(open) = sessions.get_mut(&session) else {
        return;
    };
    open.count();
}

/// Opens the transaction for the session, in the room that was made. Takes no memory.
pub(crate) fn add(sessions: &mut IndexMap<Session, Open>, session: Session, opened: Open)
    requires { 0 < spare sessions.old }
    ensures added { IsReplaced session opened sessions.old.entries sessions.new.entries }
    ensures len { index_map_len sessions.new ≤ index_map_len sessions.old + 1 }
{
    let _added = sessions.insert(session, opened);
}

/// The session has no transaction any more. Returns whether it had one.
pub(crate) fn remove(sessions: &mut IndexMap<Session, Open>, session: Session) -> bool
    ensures there { result ≡ is_some (open_at session sessions.old.entries) }
    ensures gone { (q : List ℕ) → open_at q sessions.new.entries ≡ cond (key_eq session q) None (open_at q sessions.old.entries) }
    ensures len { index_map_len sessions.new + (if result then 1 else 0) ≡ index_map_len sessions.old }
{
    sessions.swap_remove(&session).is_some()
}

/// Returns a session that has a transaction. `None` if there is none.
pub(crate) fn first_of(sessions: &IndexMap<Session, Open>) -> Option<Session>
    ensures some { IfSome result (λ s. is_some (open_at s sessions.now.entries) ≡ true) }
    ensures none { IfNone result (sessions.now.entries ≡ []) }
{
    match sessions.get_index(0) {
        Some((session, _)) => Some(*session),
        None => None,
    }
}
