//! The turn of one connection.

ghost use Rattle.std.specs.Prelude.{◌≡◌, ◌≢◌, ◌<◌, ◌⊎◌, ℕ, List, [], ◌∷◌, ◌++◌, length, true, false, is_some, Some, None, OnOk, IsErr, IfErr, MatchResult};
ghost use Rattle.std.specs.Io.KnownBytes.{IsAtEnd};
ghost use Rattle.ssi_hub.specs.Clauses.Calls.{Call, Received, Closed, with_call};
ghost use Rattle.ssi_hub.specs.Mirror.{Stands, buffers_of, is_stopped};
ghost use Rattle.ssi_cli.specs.Clauses.Peers.{HasRead};
ghost use Rattle.ssi_cli.specs.Clauses.Turns.{Makes, Exchanged, HasUnsent, NoneUnsent, HasAllSent, IsFinished, WantsMore, MayRun, IsIdle, Did, Carried, Turned};
ghost use Rattle.ssi_cli.specs.Mirror.{stream_of, input_of, may_read, is_due};
ghost use Rattle.ssi_store.specs.Mirror.Stores.{IsAt};
ghost use Rattle.ssi_cli.specs.Machinery.HubRuns.{WasCalled, HasRun};

use crate::closing::Closing;
use crate::leaving::abort_all;
use crate::peer::{Input, Peer, Sent};
use crate::stream::Stream;
use crate::users::Users;
use ssi_hub::Hub;
use ssi_reads::Marks;
use ssi_store::Store;
use ssi_versions::Chains;
use std::alloc::Global;

/// The most lines of a connection that are carried out before the others have their turn.
const MOST_LINES: usize = 256;

/// One turn of a connection that the hub has opened by this token: reads once, carries out lines, and writes what the client
/// takes. The connection is closed if it has ended and there is nothing more to do for it. If it is gone, then the sessions
/// are aborted whose last user it was, if there is a table of these; while memory runs out this is left for another turn.
///
/// What was read is what the hub was given, and what was written is what the hub was told. An error says why the connection
/// was closed: `Closing::Ended` if no more is read of it, all its replies are written, and all its whole lines are carried
/// out, unless the run was stopped; `Closing::Broken` if a write failed or took nothing while replies were unsent;
/// `Closing::Memory` if memory runs out for what it sent, or for a reply. What its commands did stands.
pub fn turn<S: Stream, C: Chains + Drop, M: Marks + Drop>(
    alloc: Global,
    token: u64,
    peer: &mut Peer<S>,
    users: &mut Option<Users>,
    hub: &mut Hub,
    store: &mut Store<C, M>,
    room: &mut [u8],
) -> Result<(), Closing>
    ensures run { HasRun (IsAt C.held M.marked) hub.old store.old hub.new store.new }
    // The bytes are those of the hub's calls, and each step is one of the connection's or the abort of a session whose last user
    // is gone.
    // A line is carried out if one may be, and if the stream never fails all replies are written.
    ensures turned { Turned S.remaining S.contents (IsAt C.held M.marked) token (S.is_steady (stream_of peer.old) ≡ true) result
        users.old hub.old (stream_of peer.old) store.old users.new hub.new (stream_of peer.new) store.new }
    ensures table { is_some users.new ≡ is_some users.old }
    // Something is read if more is to be read and the stream never fails, or it is at its end.
    ensures reads { S.is_steady (stream_of peer.old) ≡ true → may_read peer.old ≡ true
        → WantsMore (is_stopped hub.old) (buffers_of hub.old token)
        → HasRead S.remaining (stream_of peer.old) (stream_of peer.new) (input_of peer.new) }
    // It ends at the end of its stream, or after a read that failed.
    ensures ends { IfErr result (λ why. why ≡ Closing.Ended → input_of peer.new ≢ Input.Open) }
    ensures at_end { 0 < length room.new → input_of peer.new ≡ Input.Ended
        → (input_of peer.old ≡ Input.Ended) ⊎ IsAtEnd (S.remaining (stream_of peer.new)) }
    ensures failed { S.is_steady (stream_of peer.old) ≡ true → input_of peer.new ≡ Input.Failed
        → input_of peer.old ≡ Input.Failed }
    ensures broken { S.is_steady (stream_of peer.old) ≡ true → IfErr result (λ why. why ≢ Closing.Broken) }
    // It is due again while there is more to do at once, and closed if it has ended and there is nothing more to do.
    ensures due { OnOk result (is_due peer.new ≡ false
        → IsIdle (may_read peer.new) (is_stopped hub.new) (buffers_of hub.new token)) }
    ensures closed { OnOk result (is_due peer.new ≡ false → input_of peer.new ≢ Input.Open
        → NoneUnsent (buffers_of hub.new token) → buffers_of hub.new token ≡ None) }
{
    let served = serve(alloc, token, peer, users, hub, store, room);
    if !hub.is_open(token) {
        let done = abort_all(alloc, token, users, hub, store);
        peer.set_due(!done);
    }
    served
}

/// Reads once, carries out lines, and writes what the client takes. The connection is closed if it has ended and there is
/// nothing more to do for it.
fn serve<S: Stream, C: Chains + Drop, M: Marks + Drop>(
    alloc: Global,
    token: u64,
    peer: &mut Peer<S>,
    users: &mut Option<Users>,
    hub: &mut Hub,
    store: &mut Store<C, M>,
    room: &mut [u8],
) -> Result<(), Closing>
    ensures did { Did S.remaining S.contents (IsAt C.held M.marked) token (MayRun (is_stopped hub.old) (buffers_of hub.old token))
        (S.is_steady (stream_of peer.old) ≡ true) result users.old hub.old (stream_of peer.old) store.old
        users.new hub.new (stream_of peer.new) store.new }
    ensures table { is_some users.new ≡ is_some users.old }
    ensures reads { S.is_steady (stream_of peer.old) ≡ true → may_read peer.old ≡ true
        → WantsMore (is_stopped hub.old) (buffers_of hub.old token)
        → HasRead S.remaining (stream_of peer.old) (stream_of peer.new) (input_of peer.new) }
    ensures ends { IfErr result (λ why. why ≡ Closing.Ended → input_of peer.new ≢ Input.Open) }
    ensures at_end { 0 < length room.new → input_of peer.new ≡ Input.Ended
        → (input_of peer.old ≡ Input.Ended) ⊎ IsAtEnd (S.remaining (stream_of peer.new)) }
    ensures failed { S.is_steady (stream_of peer.old) ≡ true → input_of peer.new ≡ Input.Failed
        → input_of peer.old ≡ Input.Failed }
    ensures broken { S.is_steady (stream_of peer.old) ≡ true → IfErr result (λ why. why ≢ Closing.Broken) }
    ensures due { OnOk result (is_due peer.new ≡ false
        → IsIdle (may_read peer.new) (is_stopped hub.new) (buffers_of hub.new token)) }
    ensures closed { OnOk result (is_due peer.new ≡ false → input_of peer.new ≢ Input.Open
        → NoneUnsent (buffers_of hub.new token) → buffers_of hub.new token ≡ None) }
{
    receive(token, peer, hub, room)?;
    carry_out(alloc, token, users, hub, store)?;
    send(token, peer, hub)?;
    end_if_done(token, peer, hub)
}

/// Closes the connection if it has ended and there is nothing more to do for it: that is `Closing::Ended`. Otherwise notes
/// whether it has more to do at once.
fn end_if_done<S: Stream>(token: u64, peer: &mut Peer<S>, hub: &mut Hub) -> Result<(), Closing>
    ensures open { OnOk result (hub.new ≡ hub.old) }
    ensures finished { IfErr result (λ why. (why ≡ Closing.Ended) × (input_of peer.new ≢ Input.Open)
        × ((calls : List Call) → Stands true hub.old calls
        → IsFinished true token calls × Stands true hub.new (Closed token ∷ calls))) }
    ensures stream { stream_of peer.new ≡ stream_of peer.old }
    ensures input { input_of peer.new ≡ input_of peer.old }
    ensures due { OnOk result (is_due peer.new ≡ false
        → IsIdle (may_read peer.new) (is_stopped hub.new) (buffers_of hub.new token)) }
    ensures closed { OnOk result (is_due peer.new ≡ false → input_of peer.new ≢ Input.Open
        → NoneUnsent (buffers_of hub.new token) → buffers_of hub.new token ≡ None) }
{
    let due = has_more(token, peer, hub);
    peer.set_due(due);
    if due || !is_done(token, peer, hub) {
        return Ok(());
    }
    hub.closed(token);
    Err(Closing::Ended)
}

/// Returns whether there is more to do at once: whether a line may be carried out, or more is to be read that may be there.
fn has_more<S: Stream>(token: u64, peer: &Peer<S>, hub: &Hub) -> bool
    ensures { result ≡ false → IsIdle (may_read peer.now) (is_stopped hub.now) (buffers_of hub.now token) }
{
    hub.wants_run(token) || peer.is_readable() && hub.wants_read(token)
}

/// Returns whether the connection is open, has ended, and has got all its replies.
fn is_done<S: Stream>(token: u64, peer: &Peer<S>, hub: &Hub) -> bool
    ensures done { result ≡ true → (input_of peer.now ≢ Input.Open) × HasAllSent (buffers_of hub.now token) }
    ensures open { result ≡ false → input_of peer.now ≢ Input.Open → NoneUnsent (buffers_of hub.now token)
        → buffers_of hub.now token ≡ None }
{
    peer.has_ended() && hub.is_open(token) && !hub.wants_write(token)
}

/// Reads from the client, if more may be read, and hands on what came. `Closing::Memory` if memory can't hold it: then the
/// connection is closed, and what came is dropped.
fn receive<S: Stream>(
    token: u64,
    peer: &mut Peer<S>,
    hub: &mut Hub,
    room: &mut [u8],
) -> Result<(), Closing>
    ensures called { WasCalled hub.old hub.new }
    ensures idle { MayRun (is_stopped hub.old) (buffers_of hub.old token) → hub.new ≡ hub.old }
    ensures received { OnOk result (Makes hub.old hub.new (λ _ made. Exchanged S.remaining S.contents token
        (stream_of peer.old) (stream_of peer.new) made [])) }
    ensures dropped { IfErr result (λ why. (why ≡ Closing.Memory) × Makes hub.old hub.new (λ _ made. (made ≡ Closed token ∷ [])
        × ((dropped : List ℕ) × (0 < length dropped)
        × Exchanged S.remaining S.contents token (stream_of peer.old) (stream_of peer.new) [] dropped))) }
    ensures at_end { 0 < length room.new → input_of peer.new ≡ Input.Ended
        → (input_of peer.old ≡ Input.Ended) ⊎ IsAtEnd (S.remaining (stream_of peer.new)) }
    ensures reads { S.is_steady (stream_of peer.old) ≡ true → may_read peer.old ≡ true
        → WantsMore (is_stopped hub.old) (buffers_of hub.old token)
        → HasRead S.remaining (stream_of peer.old) (stream_of peer.new) (input_of peer.new) }
    ensures failed { S.is_steady (stream_of peer.old) ≡ true → input_of peer.new ≡ Input.Failed
        → input_of peer.old ≡ Input.Failed }
    ensures steady { S.is_steady (stream_of peer.old) ≡ true → S.is_steady (stream_of peer.new) ≡ true }
{
    if !peer.is_readable() || !hub.wants_read(token) {
        return Ok(());
    }
    let count = peer.read(room);
    if count == 0 {
        return Ok(());
    }
    hand_on(token, &room[..count], hub)
}

/// Hands on bytes of a connection. `Closing::Memory` if memory can't hold them: then it is closed.
pub(crate) fn hand_on(token: u64, bytes: &[u8], hub: &mut Hub) -> Result<(), Closing>
    ensures called { WasCalled hub.old hub.new }
    ensures stands { (calls : List Call) → Stands true hub.old calls
        → MatchResult result (λ _. Stands true hub.new (with_call (Received token bytes.now) calls))
        (λ _. Stands true hub.new (with_call (Closed token) calls)) }
    ensures memory { IfErr result (λ why. why ≡ Closing.Memory) }
    ensures others { (t : ℕ) → t ≢ token → buffers_of hub.new t ≡ buffers_of hub.old t }
    ensures lost { IsErr result → buffers_of hub.new token ≡ None }
{
    match hub.received(token, bytes) {
        Ok(()) => Ok(()),
        Err(_) => {
            hub.closed(token);
            Err(Closing::Memory)
        }
    }
}

/// Carries out the connection's lines that wait, as many as a turn has. `Closing::Memory` if memory runs out: then the
/// connection is closed.
fn carry_out<C: Chains + Drop, M: Marks + Drop>(
    alloc: Global,
    token: u64,
    users: &mut Option<Users>,
    hub: &mut Hub,
    store: &mut Store<C, M>,
) -> Result<(), Closing>
    ensures carried { Carried (IsAt C.held M.marked) token (MayRun (is_stopped hub.old) (buffers_of hub.old token)) result
        users.old hub.old store.old users.new hub.new store.new }
    ensures table { is_some users.new ≡ is_some users.old }
    ensures memory { IfErr result (λ why. why ≡ Closing.Memory) }
{
    match users {
        Some(users) => carry_out_noted(alloc, token, users, hub, store),
        None => carry_out_all(alloc, token, hub, store),
    }
}

fn carry_out_all<C: Chains + Drop, M: Marks + Drop>(
    alloc: Global,
    token: u64,
    hub: &mut Hub,
    store: &mut Store<C, M>,
) -> Result<(), Closing>
    ensures carried { Carried (IsAt C.held M.marked) token (MayRun (is_stopped hub.old) (buffers_of hub.old token)) result
        None hub.old store.old None hub.new store.new }
    ensures memory { IfErr result (λ why. why ≡ Closing.Memory) }
{
    let Some(_line) = hub.next_line(token) else {
        return Ok(());
    };
    if hub.run(alloc, token, store, MOST_LINES).is_err() {
        return Err(Closing::Memory);
    }
    Ok(())
}

/// Notes of each line that the connection sent it, and carries it out.
fn carry_out_noted<C: Chains + Drop, M: Marks + Drop>(
    alloc: Global,
    token: u64,
    users: &mut Users,
    hub: &mut Hub,
    store: &mut Store<C, M>,
) -> Result<(), Closing>
    ensures carried { Carried (IsAt C.held M.marked) token (MayRun (is_stopped hub.old) (buffers_of hub.old token)) result
        (Some users.old) hub.old store.old (Some users.new) hub.new store.new }
    ensures memory { IfErr result (λ why. why ≡ Closing.Memory) }
{
    for _count in 0..MOST_LINES {
        if !hub.wants_run(token) {
            return Ok(());
        }
        carry_out_line(alloc, token, users, hub, store)?;
    }
    Ok(())
}

/// Notes of the first line that waits that the connection sent it, and carries it out.
fn carry_out_line<C: Chains + Drop, M: Marks + Drop>(
    alloc: Global,
    token: u64,
    users: &mut Users,
    hub: &mut Hub,
    store: &mut Store<C, M>,
) -> Result<(), Closing>
    requires { MayRun (is_stopped hub.old) (buffers_of hub.old token) }
    ensures carried { Carried (IsAt C.held M.marked) token (MayRun (is_stopped hub.old) (buffers_of hub.old token)) result
        (Some users.old) hub.old store.old (Some users.new) hub.new store.new }
    ensures memory { IfErr result (λ why. why ≡ Closing.Memory) }
{
    let Some(line) = hub.next_line(token) else {
        return Ok(());
    };
    if users.note(alloc, token, line).is_err() {
        hub.closed(token);
        return Err(Closing::Memory);
    }
    if hub.run(alloc, token, store, 1).is_err() {
        return Err(Closing::Memory);
    }
    Ok(())
}

/// Writes to the client until all is written or there is no room. `Closing::Broken` if the client takes no more: then the
/// connection is closed.
pub(crate) fn send<S: Stream>(token: u64, peer: &mut Peer<S>, hub: &mut Hub) -> Result<(), Closing>
    ensures called { WasCalled hub.old hub.new }
    ensures written { OnOk result (Makes hub.old hub.new (λ _ made. Exchanged S.remaining S.contents token
        (stream_of peer.old) (stream_of peer.new) made [])) }
    ensures broken { IfErr result (λ why. (why ≡ Closing.Broken) × Makes hub.old hub.new (λ calls made. (earlier : List Call)
        × (made ≡ Closed token ∷ earlier) × HasUnsent true token (earlier ++ calls)
        × Exchanged S.remaining S.contents token (stream_of peer.old) (stream_of peer.new) earlier [])) }
    ensures steady { IsErr result → S.is_steady (stream_of peer.old) ≡ true → ⊥ }
    ensures all { OnOk result (S.is_steady (stream_of peer.old) ≡ true → NoneUnsent (buffers_of hub.new token)) }
    ensures taken { OnOk result (S.never_waits (stream_of peer.old) ≡ true → NoneUnsent (buffers_of hub.new token)) }
    ensures input { input_of peer.new ≡ input_of peer.old }
    ensures apart { S.remaining (stream_of peer.new) ≡ S.remaining (stream_of peer.old) }
{
    let mut left = hub.to_write(token).len();
    for _count in 0..u64::MAX {
        if left == 0 {
            return Ok(());
        }
        match peer.write(hub.to_write(token)) {
            Sent::Bytes(count) => {
                hub.written(token, count);
                left -= count;
            }
            Sent::Later => return Ok(()),
            Sent::Never => {
                hub.closed(token);
                return Err(Closing::Broken);
            }
        }
    }
    Ok(())
}
