//! What becomes of the sessions of a connection that is closed.

ghost use Rattle.std.specs.Prelude.{true, ◌≡◌, ℕ, List, [], ◌∷◌, ◌++◌, Some, None, is_some, IfOk};
ghost use Rattle.ssi_store.specs.Meaning.Courses.{Abort};
ghost use Rattle.ssi_store.specs.Mirror.Stores.{IsAt};
ghost use Rattle.ssi_line.specs.Meaning.Spelling.{command_text};
ghost use Rattle.ssi_line.specs.Clauses.Ends.{WentOn};
ghost use Rattle.ssi_hub.specs.Clauses.Calls.{Call, all_steps};
ghost use Rattle.ssi_hub.specs.Mirror.{Stands, buffers_of};
ghost use Rattle.ssi_cli.specs.Clauses.Leaving.{IsAbort, HasAborted, HasUsed, HasForgotten};
ghost use Rattle.ssi_cli.specs.Mirror.{last_in};
ghost use Rattle.ssi_cli.specs.Machinery.HubRuns.{HasRun};

use crate::turns::hand_on;
use crate::users::Users;
use ssi_hub::Hub;
use ssi_reads::Marks;
use ssi_store::{Session, Store};
use ssi_versions::Chains;
use std::alloc::{AllocError, Global};

/// Aborts the sessions whose last command the connection sent, where that is wanted. Returns whether all are aborted: some
/// are left only if memory runs out.
#[tactic(auto, using(crate::proofs::Aborts::none_aborted))]
pub(crate) fn abort_all<C: Chains + Drop, M: Marks + Drop>(
    alloc: Global,
    token: u64,
    users: &mut Option<Users>,
    hub: &mut Hub,
    store: &mut Store<C, M>,
) -> bool
    ensures run { HasRun (IsAt C.held M.marked) hub.old store.old hub.new store.new }
    ensures aborts { HasAborted (IsAt C.held M.marked) (HasUsed users.old token) hub.old store.old hub.new store.new }
    ensures forgets { HasForgotten users.old users.new }
    ensures table { is_some users.new ≡ is_some users.old }
    ensures gone { (t : ℕ) → buffers_of hub.old t ≡ None → buffers_of hub.new t ≡ None }
{
    match users {
        Some(users) => abort_each(alloc, token, users, hub, store),
        None => true,
    }
}

fn abort_each<C: Chains + Drop, M: Marks + Drop>(
    alloc: Global,
    token: u64,
    users: &mut Users,
    hub: &mut Hub,
    store: &mut Store<C, M>,
) -> bool
    ensures run { HasRun (IsAt C.held M.marked) hub.old store.old hub.new store.new }
    ensures aborts { HasAborted (IsAt C.held M.marked) (λ s. last_in users.old s ≡ Some token)
        hub.old store.old hub.new store.new }
    ensures forgets { HasForgotten (Some users.old) (Some users.new) }
    ensures gone { (t : ℕ) → buffers_of hub.old t ≡ None → buffers_of hub.new t ≡ None }
{
    for _ in 0..u64::MAX {
        let Some(session) = users.next_of(token) else {
            users.remove(token);
            return true;
        };
        if !abort(alloc, session, hub, store) {
            return false;
        }
        users.forget(token, &session);
    }
    false
}

/// Carries out `abort` of the session, as the line of a connection of its own. Returns whether it did: it didn't if memory
/// runs out.
fn abort<C: Chains + Drop, M: Marks + Drop>(
    alloc: Global,
    session: Session,
    hub: &mut Hub,
    store: &mut Store<C, M>,
) -> bool
    ensures aborted { (calls : List Call) → Stands true hub.old calls → (made : List Call) × Stands true hub.new (made ++ calls)
        × WentOn (IsAt C.held M.marked) store.old (all_steps made) store.new × IsAbort session made calls }
    ensures gone { (t : ℕ) → buffers_of hub.old t ≡ None → buffers_of hub.new t ≡ None }
{
    let Ok(line) = abort_line(alloc, &session) else {
        return false;
    };
    abort_by(alloc, session, &line, hub, store)
}

/// Returns the line `abort` of the session, with its line feed. `AllocError` if memory runs out.
pub fn abort_line(alloc: Global, session: &Session) -> Result<Vec<u8>, AllocError>
    ensures { IfOk result (λ line. line.items ≡ command_text (Abort session.now) ++ (10 ∷ [])) }
{
    let mut line = Vec::new(alloc);
    line.extend_from_slice(b"abort ")?;
    line.extend_from_slice(session.bytes())?;
    line.extend_from_slice(b"\n")?;
    Ok(line)
}

/// Carries out this line, which is `abort` of the session, as [`abort`] does.
fn abort_by<C: Chains + Drop, M: Marks + Drop>(
    alloc: Global,
    session: Session,
    line: &[u8],
    hub: &mut Hub,
    store: &mut Store<C, M>,
) -> bool
    requires { line.now ≡ command_text (Abort session) ++ (10 ∷ []) }
    ensures aborted { (calls : List Call) → Stands true hub.old calls → (made : List Call) × Stands true hub.new (made ++ calls)
        × WentOn (IsAt C.held M.marked) store.old (all_steps made) store.new × IsAbort session made calls }
    ensures gone { (t : ℕ) → buffers_of hub.old t ≡ None → buffers_of hub.new t ≡ None }
{
    let Ok(token) = hub.opened(alloc) else {
        return false;
    };
    if hand_on(token, line, hub).is_err() {
        return false;
    }
    let _ = hub.run(alloc, token, store, 1);
    hub.closed(token);
    true
}
