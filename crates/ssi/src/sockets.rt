//! The socket that a server listens at.

use mio::Poll;
use std::fs::Files;
use std::io::ErrorKind;
use std::net::Net;
use std::os::unix::fs::FileTypeExt;
use std::os::unix::net::{UnixListener, UnixStream};
use std::{fs, io};

/// Makes the socket, and listens at it.
pub fn bound<R: Files + Net>(rt: &R, path: &str) -> io::Result<UnixListener> {
    // The system would make a socket without a file of the empty path.
    if path.is_empty() {
        return Err(io::Error::from(io::ErrorKind::InvalidInput));
    }
    UnixListener::bind(rt, path)
}

/// Makes the socket, and listens at it. First removes one that was left there if its server is gone.
pub fn bound_anew<R: Files + Net>(rt: &R, path: &str) -> io::Result<UnixListener> {
    match bound(rt, path) {
        Err(e) if e.kind() == ErrorKind::AddrInUse && is_left(rt, path) => {
            fs::remove_file(rt, path)?;
            bound(rt, path)
        }
        made => made,
    }
}

/// Returns whether there is a socket whose server is gone.
fn is_left<R: Files + Net>(rt: &R, path: &str) -> bool {
    if !is_socket(rt, path) {
        return false;
    }
    match UnixStream::connect(rt, path) {
        Ok(_) => false,
        Err(e) => e.kind() == ErrorKind::ConnectionRefused,
    }
}

/// Returns whether the path is that of a socket.
pub fn is_socket<R: Files>(rt: &R, path: &str) -> bool {
    match fs::symlink_metadata(rt, path) {
        Ok(found) => found.file_type().is_socket(),
        Err(_) => false,
    }
}

/// Returns the listener beside what waits for it, which isn't told of it yet.
pub fn polled<R: Net + AllocGlobal>(
    rt: &R,
    listener: UnixListener,
) -> io::Result<(Poll, mio::net::UnixListener)> {
    listener.set_nonblocking(true)?;
    let poll = Poll::new(rt)?;
    Ok((poll, mio::net::UnixListener::from_std(listener)))
}
