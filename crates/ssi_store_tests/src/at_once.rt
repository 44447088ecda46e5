//! A socket all of whose connections are served at once. What several clients do together, scripts/together.py tries.

use crate::answers::new_store;
use crate::scripts::peer_with;
use devices::Watched;
use mio::Poll;
use ssi_cli::{AtClose, Served, run_together, serve_together};
use std::io;
use std::io::Read;
use std::os::unix::net;

/// Returns the socket as one that doesn't wait.
fn without_waiting(listener: net::UnixListener) -> io::Result<mio::net::UnixListener> {
    listener.set_nonblocking(true)?;
    Ok(mio::net::UnixListener::from_std(listener))
}

/// Whether a store answers a peer that has written all its lines, one of them without an end.
pub(crate) fn are_peers_answered(rt: &HostRuntime) -> io::Result<bool> {
    let (listener, mut peer) = peer_with(rt, b"begin A\ncommit A\nstop\nbegin B\nbeg")?;
    if !is_stopped(rt, without_waiting(listener)?)? {
        return Ok(false);
    }
    let mut replies = Vec::new(rt.alloc());
    peer.read_to_end(&mut replies)?;
    Ok(replies.as_slice() == b"begun 1\ncommitted\nstopped\n".as_slice())
}

/// Whether a store serves the connections of the listener until one of them sends `stop`.
fn is_stopped(rt: &HostRuntime, mut listener: mio::net::UnixListener) -> io::Result<bool> {
    let mut poll = Poll::new(rt)?;
    let mut store = new_store(rt.alloc());
    let served = serve_together(
        rt.alloc(),
        &mut poll,
        &mut listener,
        AtClose::Keep,
        &mut store,
    );
    Ok(served == Served::Stopped)
}

/// Whether what a peer has asked for is in the texts at the end.
pub(crate) fn are_peers_recorded(rt: &HostRuntime) -> io::Result<bool> {
    let (listener, _peer) = peer_with(rt, b"begin A\nput A x 5\ncommit A\nstop\n")?;
    let mut listener = without_waiting(listener)?;
    let mut poll = Poll::new(rt)?;
    let mut history = Watched::new(Vec::new(rt.alloc()));
    let mut certificate = Watched::new(Vec::new(rt.alloc()));
    let (served, written) = run_together(
        rt.alloc(),
        &mut poll,
        &mut listener,
        AtClose::Abort,
        &mut history,
        &mut certificate,
    );
    Ok(
        served == Served::Stopped
            && written.is_ok()
            && history.into_inner().as_slice()
                == b"adya 1\nw1(x.1:1,5)\nc1\n[x:1]\n{x,5}\nend\n".as_slice()
            && certificate.into_inner().as_slice() == b"serial 1\n1\nend\n".as_slice(),
    )
}
