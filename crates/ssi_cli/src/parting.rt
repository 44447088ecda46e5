//! The end of a connection when the run was stopped.

ghost use Rattle.std.specs.Prelude.{◌≡◌, ◌≢◌, true, is_some};
ghost use Rattle.ssi_hub.specs.Mirror.{buffers_of};
ghost use Rattle.ssi_cli.specs.Clauses.Parting.{HasParted};
ghost use Rattle.ssi_cli.specs.Clauses.Turns.{Makes};
ghost use Rattle.ssi_cli.specs.Machinery.HubRuns.{WasCalled};
ghost use Rattle.ssi_cli.specs.Mirror.{stream_of};

use crate::closing::Closing;
use crate::peer::Peer;
use crate::stream::Stream;
use crate::turns::send;
use ssi_hub::Hub;

/// Ends a connection that the hub has opened by this token, since the run was stopped: writes what the client takes at once,
/// and closes it. Its lines that wait are dropped.
///
/// Returns how it ends: `Closing::Ended` if all its replies are written; `Closing::Broken` if a write failed or took nothing
/// while replies were unsent; and `Closing::Stopped` if replies are unsent, and the client takes no more at once.
pub fn part<S: Stream>(token: u64, peer: &mut Peer<S>, hub: &mut Hub) -> Closing
    ensures called { WasCalled hub.old hub.new }
    ensures parted { is_some (buffers_of hub.old token) ≡ true → Makes hub.old hub.new
        (HasParted S.remaining S.contents token (stream_of peer.old) (stream_of peer.new) result) }
    ensures waits { S.never_waits (stream_of peer.old) ≡ true → result ≢ Closing.Stopped }
    ensures steady { S.is_steady (stream_of peer.old) ≡ true → result ≡ Closing.Ended }
{
    if let Err(why) = send(token, peer, hub) {
        return why;
    }
    let unsent = hub.wants_write(token);
    hub.closed(token);
    if unsent {
        return Closing::Stopped;
    }
    Closing::Ended
}
