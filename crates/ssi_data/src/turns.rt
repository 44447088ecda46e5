//! The turn of one connection: what comes is carried out before all lines are put on the disk, and the replies go out after, but for
//! those that don't wait for it.

ghost use Rattle.std.specs.Prelude.{◌≡◌, ◌≢◌, ◌<◌, ◌⊎◌, ℕ, List, [], ◌∷◌, ◌++◌, length, true, false, Some, None, is_some, OnOk, IfErr, IsErr, MatchResult};
ghost use Rattle.std.specs.Io.KnownBytes.{IsAtEnd};
ghost use Rattle.adya_keys.specs.Meaning.Keys.{Bytes};
ghost use Rattle.ssi_hub.specs.Clauses.Calls.{Call, Received, Closed, with_call, lines_of};
ghost use Rattle.ssi_hub.specs.Mirror.{buffers_of, is_stopped};
ghost use Rattle.ssi_durable.specs.Clauses.Journals.{is_full};
ghost use Rattle.ssi_durable.specs.Clauses.Serving.{Began};
ghost use Rattle.ssi_durable.specs.Mirror.Servers.{Serves, hub_of, is_settled, has_failed, to_give};
ghost use Rattle.ssi_cli.specs.Clauses.Peers.{HasRead};
ghost use Rattle.ssi_cli.specs.Clauses.Turns.{Exchanged, MayRun, WantsMore, HasUnsent, NoneUnsent, HasAllSent, IsFinished, IsIdle};
ghost use Rattle.ssi_cli.specs.Mirror.{stream_of, input_of, may_read, is_due};
ghost use Rattle.ssi_data.specs.Clauses.Calls.{Makes, MakesQuietly};
ghost use Rattle.ssi_data.specs.Clauses.Turns.{IsDropped, HasCarriedOut, HasReplied};
ghost use Rattle.ssi_data.specs.Clauses.Timing.{is_noting};
ghost use Rattle.ssi_data.specs.Mirror.{users_in};

use crate::tables::Tables;
use sqlite_disk::Disk;
use ssi_cli::{Closing, Input, Peer, Sent, Stream};
use ssi_durable::Server;
use ssi_line::ProtocolStore;
use ssi_log::LogFault;
use std::alloc::Global;

/// The most lines of a connection that are carried out before the others have their turn.
const MOST_LINES: usize = 256;

/// Reads from the client once, if more may be read, and hands on what came. `Closing::Memory` if memory can't hold it: then the
/// connection is closed, and what came is dropped.
pub fn receive<S: Stream, T: ProtocolStore + Drop, D: Disk + Drop>(
    token: u64,
    peer: &mut Peer<S>,
    server: &mut Server<T, D>,
    room: &mut [u8],
) -> Result<(), Closing>
    // What was read is what the server was given, or was dropped.
    ensures received { OnOk result (MakesQuietly T.keeps T.is_at server.old server.new (λ _ made.
        Exchanged S.remaining S.contents token (stream_of peer.old) (stream_of peer.new) made [])) }
    ensures dropped { IfErr result (λ why. (why ≡ Closing.Memory) × MakesQuietly T.keeps T.is_at server.old server.new
        (λ _ made. IsDropped S.remaining S.contents token (stream_of peer.old) (stream_of peer.new) made)) }
    // Something is read if more is to be read and the stream never fails, or it is at its end.
    ensures reads { S.is_steady (stream_of peer.old) ≡ true → may_read peer.old ≡ true
        → WantsMore (is_stopped (hub_of server.old)) (buffers_of (hub_of server.old) token)
        → HasRead S.remaining (stream_of peer.old) (stream_of peer.new) (input_of peer.new) }
    ensures at_end { 0 < length room.new → input_of peer.new ≡ Input.Ended
        → (input_of peer.old ≡ Input.Ended) ⊎ IsAtEnd (S.remaining (stream_of peer.new)) }
    ensures failed { S.is_steady (stream_of peer.old) ≡ true → input_of peer.new ≡ Input.Failed
        → input_of peer.old ≡ Input.Failed }
    ensures steady { S.is_steady (stream_of peer.old) ≡ true → S.is_steady (stream_of peer.new) ≡ true }
{
    if !peer.is_readable() || !server.wants_read(token) {
        return Ok(());
    }
    let count = peer.read(room);
    if count == 0 {
        return Ok(());
    }
    hand_on(token, &room[..count], server)
}

/// Hands on bytes of a connection. `Closing::Memory` if memory can't hold them: then it is closed.
pub(crate) fn hand_on<T: ProtocolStore + Drop, D: Disk + Drop>(
    token: u64,
    bytes: &[u8],
    server: &mut Server<T, D>,
) -> Result<(), Closing>
    ensures serves { (n : ℕ) (began : Began) (calls : List Call) → Serves T.keeps T.is_at n began server.old calls
        → MatchResult result
        (λ _. Serves T.keeps T.is_at n began server.new (with_call (Received token bytes.now) calls))
        (λ _. Serves T.keeps T.is_at n began server.new (with_call (Closed token) calls)) }
    ensures memory { IfErr result (λ why. why ≡ Closing.Memory) }
{
    match server.received(token, bytes) {
        Ok(()) => Ok(()),
        Err(_) => {
            server.closed(token);
            Err(Closing::Memory)
        }
    }
}

/// Carries out the connection's lines that wait, as many as a turn has. Notes of each which session it is a command of, as far
/// as there are tables of that. If memory runs out for a line or for its reply, the connection is closed.
///
/// `Full` if there is no room in the log for the next line, and the file can't grow: the line waits. After any other fault the
/// log has failed.
pub fn carry_out<T: ProtocolStore + Drop, D: Disk + Drop>(
    alloc: Global,
    token: u64,
    tables: &mut Tables,
    server: &mut Server<T, D>,
) -> Result<(), LogFault>
    ensures carried { Makes T.keeps T.is_at server.old server.new (λ calls made.
        HasCarriedOut T.keeps token tables.old tables.new calls made
        × (MayRun (is_stopped (hub_of server.old)) (buffers_of (hub_of server.old) token) → OnOk result (0 < length made))) }
    ensures table { is_some (users_in tables.new) ≡ is_some (users_in tables.old) }
    ensures fault { IfErr result (λ fault. is_full fault ≡ false → has_failed server.new ≡ true) }
{
    for _count in 0..MOST_LINES {
        if !server.wants_run(token) {
            return Ok(());
        }
        carry_out_line(alloc, token, tables, server)?;
    }
    Ok(())
}

/// Carries out the first line that waits, which may be carried out.
fn carry_out_line<T: ProtocolStore + Drop, D: Disk + Drop>(
    alloc: Global,
    token: u64,
    tables: &mut Tables,
    server: &mut Server<T, D>,
) -> Result<(), LogFault>
    requires { MayRun (is_stopped (hub_of server.old)) (buffers_of (hub_of server.old) token) }
    ensures carried { Makes T.keeps T.is_at server.old server.new (λ calls made.
        HasCarriedOut T.keeps token tables.old tables.new calls made × OnOk result (0 < length made)) }
    ensures table { is_some tables.new.users ≡ is_some tables.old.users }
    ensures fault { IfErr result (λ fault. is_full fault ≡ false → has_failed server.new ≡ true) }
{
    if !tables.is_noting() {
        return carry_out_plain(alloc, token, server);
    }
    carry_out_noted(alloc, token, tables, server)
}

fn carry_out_plain<T: ProtocolStore + Drop, D: Disk + Drop>(
    alloc: Global,
    token: u64,
    server: &mut Server<T, D>,
) -> Result<(), LogFault>
    requires { MayRun (is_stopped (hub_of server.old)) (buffers_of (hub_of server.old) token) }
    ensures carried { (tables : Tables) → is_noting tables ≡ false → Makes T.keeps T.is_at server.old server.new (λ calls made.
        HasCarriedOut T.keeps token tables tables calls made × OnOk result (0 < length made)) }
    ensures fault { IfErr result (λ fault. is_full fault ≡ false → has_failed server.new ≡ true) }
{
    match server.step(alloc, token) {
        Ok(_) => Ok(()),
        Err(fault) => Err(fault),
    }
}

/// Carries out the line as well, and notes that the connection sent it.
fn carry_out_noted<T: ProtocolStore + Drop, D: Disk + Drop>(
    alloc: Global,
    token: u64,
    tables: &mut Tables,
    server: &mut Server<T, D>,
) -> Result<(), LogFault>
    requires { MayRun (is_stopped (hub_of server.old)) (buffers_of (hub_of server.old) token) }
    ensures carried { Makes T.keeps T.is_at server.old server.new (λ calls made.
        HasCarriedOut T.keeps token tables.old tables.new calls made × OnOk result (0 < length made)) }
    ensures table { is_some tables.new.users ≡ is_some tables.old.users }
    ensures fault { IfErr result (λ fault. is_full fault ≡ false → has_failed server.new ≡ true) }
{
    let Some(line) = server.next_line(token) else {
        return Ok(());
    };
    let Ok(noting) = tables.prepare(alloc, token, line) else {
        server.closed(token);
        return Ok(());
    };
    match server.step(alloc, token) {
        Ok(Some(_)) => {
            tables.note(token, noting);
            Ok(())
        }
        Ok(None) => Ok(()),
        Err(fault) => Err(fault),
    }
}

/// Writes the replies to the client that don't wait for the disk, as far as it takes them. The connection is closed if it has ended and there is nothing more to do for it: that is `Closing::Ended`. `Closing::Broken` if the client
/// takes no more: then it is closed, too. If it is open, it is due again while there is more to do for it at once.
pub fn reply<S: Stream, T: ProtocolStore + Drop, D: Disk + Drop>(
    token: u64,
    peer: &mut Peer<S>,
    server: &mut Server<T, D>,
) -> Result<(), Closing>
    // What was written is what the server was told.
    ensures replied { MakesQuietly T.keeps T.is_at server.old server.new (λ calls made.
        HasReplied T.keeps S.remaining S.contents token (stream_of peer.old) (stream_of peer.new) result calls made) }
    // It ends at the end of its stream, or after a read that failed.
    ensures ends { IfErr result (λ why. why ≡ Closing.Ended → input_of peer.new ≢ Input.Open) }
    ensures broken { S.is_steady (stream_of peer.old) ≡ true → IfErr result (λ why. why ≢ Closing.Broken) }
    ensures all { OnOk result (S.is_steady (stream_of peer.old) ≡ true → to_give server.new token ≡ []) }
    ensures stopped { is_stopped (hub_of server.new) ≡ is_stopped (hub_of server.old) }
    ensures settled { is_settled server.new ≡ is_settled server.old }
    ensures input { input_of peer.new ≡ input_of peer.old }
    // It is due again while there is more to do at once, and closed if it has ended and there is nothing more to do.
    ensures due { OnOk result (is_due peer.new ≡ false
        → IsIdle (may_read peer.new) (is_stopped (hub_of server.new)) (buffers_of (hub_of server.new) token)) }
    ensures closed { OnOk result (is_due peer.new ≡ false → input_of peer.new ≢ Input.Open
        → NoneUnsent (buffers_of (hub_of server.new) token) → buffers_of (hub_of server.new) token ≡ None) }
{
    send(token, peer, server)?;
    end_if_done(token, peer, server)
}

/// Closes the connection if it has ended and there is nothing more to do for it: that is `Closing::Ended`. Otherwise notes
/// whether it has more to do at once.
fn end_if_done<S: Stream, T: ProtocolStore + Drop, D: Disk + Drop>(
    token: u64,
    peer: &mut Peer<S>,
    server: &mut Server<T, D>,
) -> Result<(), Closing>
    ensures open { OnOk result (server.new ≡ server.old) }
    ensures finished { IfErr result (λ why. (why ≡ Closing.Ended) × (input_of peer.new ≢ Input.Open)
        × MakesQuietly T.keeps T.is_at server.old server.new
        (λ calls made. (made ≡ Closed token ∷ []) × IsFinished T.keeps token calls)) }
    ensures stopped { is_stopped (hub_of server.new) ≡ is_stopped (hub_of server.old) }
    ensures settled { is_settled server.new ≡ is_settled server.old }
    ensures stream { stream_of peer.new ≡ stream_of peer.old }
    ensures input { input_of peer.new ≡ input_of peer.old }
    ensures due { OnOk result (is_due peer.new ≡ false
        → IsIdle (may_read peer.new) (is_stopped (hub_of server.new)) (buffers_of (hub_of server.new) token)) }
    ensures closed { OnOk result (is_due peer.new ≡ false → input_of peer.new ≢ Input.Open
        → NoneUnsent (buffers_of (hub_of server.new) token) → buffers_of (hub_of server.new) token ≡ None) }
{
    let due = has_more(token, peer, server);
    peer.set_due(due);
    if due || !is_done(token, peer, server) {
        return Ok(());
    }
    server.closed(token);
    Err(Closing::Ended)
}

/// Writes to the client until all is written that doesn't wait for the disk, or there is no room. `Closing::Broken` if the client takes no more: then the
/// connection is closed.
pub fn send<S: Stream, T: ProtocolStore + Drop, D: Disk + Drop>(
    token: u64,
    peer: &mut Peer<S>,
    server: &mut Server<T, D>,
) -> Result<(), Closing>
    ensures written { OnOk result (MakesQuietly T.keeps T.is_at server.old server.new (λ _ made.
        Exchanged S.remaining S.contents token (stream_of peer.old) (stream_of peer.new) made [])) }
    ensures broken { IfErr result (λ why. (why ≡ Closing.Broken) × MakesQuietly T.keeps T.is_at server.old server.new
        (λ calls made. (earlier : List Call) × (made ≡ Closed token ∷ earlier) × HasUnsent T.keeps token (earlier ++ calls)
        × Exchanged S.remaining S.contents token (stream_of peer.old) (stream_of peer.new) earlier [])) }
    ensures steady { IsErr result → S.is_steady (stream_of peer.old) ≡ true → ⊥ }
    ensures all { OnOk result (S.is_steady (stream_of peer.old) ≡ true → to_give server.new token ≡ []) }
    ensures stopped { is_stopped (hub_of server.new) ≡ is_stopped (hub_of server.old) }
    ensures settled { is_settled server.new ≡ is_settled server.old }
    ensures input { input_of peer.new ≡ input_of peer.old }
    ensures apart { S.remaining (stream_of peer.new) ≡ S.remaining (stream_of peer.old) }
{
    let mut left = server.to_write(token).len();
    for _count in 0..u64::MAX {
        if left == 0 {
            return Ok(());
        }
        match peer.write(server.to_write(token)) {
            Sent::Bytes(count) => {
                server.written(token, count);
                left -= count;
            }
            Sent::Later => return Ok(()),
            Sent::Never => {
                server.closed(token);
                return Err(Closing::Broken);
            }
        }
    }
    Ok(())
}

/// Returns whether there is more to do at once: whether a line may be carried out, or more is to be read that may be there.
fn has_more<S: Stream, T: ProtocolStore + Drop, D: Disk + Drop>(
    token: u64,
    peer: &Peer<S>,
    server: &Server<T, D>,
) -> bool
    ensures { result ≡ false
        → IsIdle (may_read peer.now) (is_stopped (hub_of server.now)) (buffers_of (hub_of server.now) token) }
{
    server.wants_run(token) || peer.is_readable() && server.wants_read(token)
}

/// Returns whether the connection is open, has ended, and has got all its replies.
fn is_done<S: Stream, T: ProtocolStore + Drop, D: Disk + Drop>(
    token: u64,
    peer: &Peer<S>,
    server: &Server<T, D>,
) -> bool
    ensures done { result ≡ true → (input_of peer.now ≢ Input.Open) × HasAllSent (buffers_of (hub_of server.now) token) }
    ensures open { result ≡ false → input_of peer.now ≢ Input.Open → NoneUnsent (buffers_of (hub_of server.now) token)
        → buffers_of (hub_of server.now) token ≡ None }
{
    peer.has_ended() && server.is_open(token) && !server.wants_write(token)
}
