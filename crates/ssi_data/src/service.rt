//! The service of all connections of a socket.

ghost use Rattle.ssi_data.specs.Clauses.Halts.{HasHalted};
ghost use Rattle.ssi_data.specs.Mirror.{GoOn, server_of};

use crate::clients::Clients;
use crate::halt::Halt;
use mio::net::UnixListener;
use mio::{Events, Poll};
use sqlite_disk::Disk;
use ssi_cli::ROOM;
use ssi_line::ProtocolStore;

/// Accepts connections and carries out the lines of all of them, one line at a time, in the order in which connections are
/// ready. In a round each connection that is ready carries out up to 256 lines; then all lines that count are put on the disk
/// by one sync; and only then the replies are written. So what a client reads rests on lines that are on the disk. With
/// [`Release::Early`](ssi_durable::Release::Early) the replies before the first `committed` to a connection are written before that, and
/// the sync is left out if none is there; it is put off, for 16 rounds at most, while more comes of the connections.
///
/// Goes on until `stop` is carried out, the log or the socket fails, the file of the log can't grow, or the log is so long that
/// the next segment is to be begun. After `Full` call it again: meanwhile nothing is lost, and no line is carried out but
/// `stop`. After `Rotate` call it again, too, once [`rotate`](crate::rotate) has returned. After the others it may not go on.
pub fn serve<T: ProtocolStore + Drop, D: Disk + Drop>(
    rt: &HostRuntime,
    poll: &mut Poll,
    listener: &UnixListener,
    events: &mut Events,
    clients: &mut Clients<T, D>,
) -> Halt
    ensures on { GoOn T.keeps T.is_at clients.old clients.new }
    ensures halted { HasHalted result (server_of clients.new) }
{
    let alloc = rt.alloc();
    let mut room = [0u8; ROOM];
    for _ in 0..u64::MAX {
        let Ok(()) = poll.poll(events, clients.longest_wait()) else {
            return Halt::SocketFault;
        };
        if let Err(fault) = clients.round(alloc, events, &mut room) {
            return Halt::Failed(fault);
        }
        if clients.is_stopped() {
            if let Err(fault) = clients.settle() {
                return Halt::Failed(fault);
            }
            clients.write_all();
            return Halt::Stopped;
        }
        if let Err(fault) = clients.end_all(alloc) {
            return Halt::Failed(fault);
        }
        if let Err(fault) = clients.end_idle(rt) {
            return Halt::Failed(fault);
        }
        if let Err(fault) = clients.tidy(alloc) {
            return Halt::Failed(fault);
        }
        clients.accept(alloc, listener, poll.registry());
        if let Some(why) = clients.news() {
            return Halt::Full(why);
        }
        if clients.is_due() {
            return Halt::Rotate;
        }
    }
    Halt::SocketFault
}
