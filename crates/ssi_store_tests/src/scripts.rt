//! Courses as lines of text: as a script, over two inputs, and over a socket.

ghost use Rattle.std.specs.Prelude.{◌<◌};

use crate::answers::{FastStore, answers_over_all, new_store};
use crate::runs::ended;
use crate::texts::are_accepted;
use adya_audit::Verdict;
use adya_testing::Pieces;
use devices::Watched;
use headline::{audited, certified_run};
use ssi_cli::{Served, run_script, run_socket, serve_socket};
use ssi_line::{End, serve};
use std::alloc::{AllocError, Global};
use std::io::{Read, Write};
use std::net::Shutdown;
use std::os::unix::net::{UnixListener, UnixStream};
use std::{fs, io};

/// What a script has made.
#[derive(PartialEq, Drop)]
pub(crate) struct Written {
    /// Whether `stop` ended it. Otherwise its input ended.
    pub(crate) is_stopped: bool,
    pub(crate) replies: Vec<u8>,
    pub(crate) history: Vec<u8>,
    pub(crate) certificate: Vec<u8>,
}

/// Returns what the script makes, which comes in pieces of at most `most` bytes; nothing if a device fails or memory
/// runs out.
fn in_pieces(alloc: Global, script: &[u8], most: usize) -> Option<Written>
    requires { 0 < most }
{
    let mut input = Watched::new(Pieces::new(script, most));
    let mut output = Watched::new(Vec::new(alloc));
    let mut history = Watched::new(Vec::new(alloc));
    let mut certificate = Watched::new(Vec::new(alloc));
    let ran = run_script(
        alloc,
        &mut input,
        &mut output,
        &mut history,
        &mut certificate,
    );
    Some(Written {
        is_stopped: is_stopped(ran.ok()?)?,
        replies: output.into_inner(),
        history: history.into_inner(),
        certificate: certificate.into_inner(),
    })
}

fn is_stopped(end: End) -> Option<bool> {
    match end {
        End::Stop => Some(true),
        End::Eof => Some(false),
        End::ReadFault | End::WriteFault => None,
    }
}

/// Returns what the script makes; nothing if it isn't the same in pieces of 1, of 7 and of all bytes, and over each pair of
/// representations, or if the auditor doesn't say yes to it.
pub(crate) fn of_script(alloc: Global, script: &[u8]) -> Option<Written> {
    let whole = in_all_pieces(alloc, script)?;
    if whole == over_all_pairs(alloc, script)? {
        Some(whole)
    } else {
        None
    }
}

/// Returns what the script makes; nothing if it isn't the same in pieces of 1, of 7 and of all bytes, or if the auditor
/// doesn't say yes to it.
pub(crate) fn in_all_pieces(alloc: Global, script: &[u8]) -> Option<Written> {
    let whole = in_pieces(alloc, script, usize::MAX)?;
    let are_same = whole == in_pieces(alloc, script, 1)?
        && whole == in_pieces(alloc, script, 7)?
        && gets_yes(alloc, script);
    if are_same { Some(whole) } else { None }
}

fn gets_yes(alloc: Global, script: &[u8]) -> bool {
    match certified_run(alloc, script) {
        Ok(left) => matches!(audited(alloc, &left), Ok(Verdict::Yes)),
        Err(_) => false,
    }
}

/// Returns what the script makes; nothing if it isn't the same over each pair of representations, or if the auditor doesn't
/// say yes to it.
pub(crate) fn over_all_pairs(alloc: Global, script: &[u8]) -> Option<Written> {
    let answers = answers_over_all(alloc, script)?;
    if !are_accepted(&answers.texts) {
        return None;
    }
    Some(Written {
        is_stopped: is_stopped(answers.end)?,
        replies: answers.replies,
        history: answers.texts.history,
        certificate: answers.texts.certificate,
    })
}

/// Whether the longest line is read, a longer one is passed over, and what follows the last line feed is no line.
pub(crate) fn are_lines_told_apart(alloc: Global) -> bool {
    let Ok(script) = long_lines(alloc) else {
        return false;
    };
    let Some(written) = of_script(alloc, &script) else {
        return false;
    };
    !written.is_stopped
        && written.replies.as_slice() == b"? syntax\n? long\nbegun 1\nbegun 2\ndone\n".as_slice()
        && written.history.as_slice() == b"adya 1\nw1(x.1:1,5)\na1\na2\nend\n".as_slice()
        && written.certificate.as_slice() == b"serial 1\nend\n".as_slice()
}

fn long_lines(alloc: Global) -> Result<Vec<u8>, AllocError> {
    let mut script = Vec::new(alloc);
    push_line(&mut script, 4096)?;
    push_line(&mut script, 4097)?;
    script.extend_from_slice(b"begin A\nbegin B\nput A x 5\ncom")?;
    Ok(script)
}

fn push_line(script: &mut Vec<u8>, length: u32) -> Result<(), AllocError> {
    for _ in 0..length {
        script.push(b'a')?;
    }
    script.push(b'\n')?;
    Ok(())
}

/// Whether a line that is too long and has no line feed, at the end of the input, has no reply.
pub(crate) fn is_long_rest_passed_over(alloc: Global) -> bool {
    let Ok(script) = long_rest(alloc) else {
        return false;
    };
    let Some(written) = of_script(alloc, &script) else {
        return false;
    };
    !written.is_stopped
        && written.replies.as_slice() == b"begun 1\n".as_slice()
        && written.history.as_slice() == b"adya 1\na1\nend\n".as_slice()
        && written.certificate.as_slice() == b"serial 1\nend\n".as_slice()
}

fn long_rest(alloc: Global) -> Result<Vec<u8>, AllocError> {
    let mut script = Vec::new(alloc);
    script.extend_from_slice(b"begin A\n")?;
    push_line(&mut script, 10_000)?;
    script.pop();
    Ok(script)
}

/// Whether a session outlives the input in which it began, and a command without its line feed isn't carried out.
pub(crate) fn are_sessions_the_stores(alloc: Global) -> bool {
    let mut store = new_store(alloc);
    let mut first = Watched::new(Pieces::new(b"begin A\nput A x 1\nput A x", 7));
    let mut second = Watched::new(Pieces::new(b"commit A\nstop\nbegin A\n", 7));
    let mut output = Watched::new(Vec::new(alloc));
    let ends = (
        serve(alloc, &mut first, &mut output, &mut store),
        serve(alloc, &mut second, &mut output, &mut store),
    );
    let replies = output.into_inner();
    has_session_texts(alloc, store)
        && ends == (End::Eof, End::Stop)
        && replies.as_slice() == b"begun 1\ndone\ncommitted\nstopped\n".as_slice()
}

/// Whether the store has carried out one session, which has put 1 at `x`.
fn has_session_texts(alloc: Global, store: FastStore) -> bool {
    let Some(texts) = ended(alloc, store) else {
        return false;
    };
    texts.history.as_slice() == b"adya 1\nw1(x.1:1,1)\nc1\n[x:1]\n{x,1}\nend\n".as_slice()
        && texts.certificate.as_slice() == b"serial 1\n1\nend\n".as_slice()
        && are_accepted(&texts)
}

/// Returns a socket, and a peer that has written these lines to it.
pub(crate) fn peer_with(rt: &HostRuntime, lines: &[u8]) -> io::Result<(UnixListener, UnixStream)> {
    let listener = UnixListener::bind(rt, "socket")?;
    let mut peer = UnixStream::connect(rt, "socket")?;
    fs::remove_file(rt, "socket")?;
    peer.write_all(lines)?;
    Ok((listener, peer))
}

/// Whether a store answers a peer that has written all its lines.
pub(crate) fn are_peers_answered(rt: &HostRuntime) -> io::Result<bool> {
    let (mut listener, mut peer) = peer_with(rt, b"begin A\ncommit A\nstop\n")?;
    if serve_new_store(rt.alloc(), &mut listener) != Served::Stopped {
        return Ok(false);
    }
    let mut replies = Vec::new(rt.alloc());
    peer.read_to_end(&mut replies)?;
    Ok(replies.as_slice() == b"begun 1\ncommitted\nstopped\n".as_slice())
}

fn serve_new_store(alloc: Global, listener: &mut UnixListener) -> Served {
    let mut store = new_store(alloc);
    serve_socket(alloc, listener, &mut store)
}

/// Whether what a peer has asked for is in the texts at the end.
pub(crate) fn are_peers_recorded(rt: &HostRuntime) -> io::Result<bool> {
    let (mut listener, _peer) = peer_with(rt, b"begin A\nput A x 5\ncommit A\nstop\n")?;
    Ok(is_recorded(rt, &mut listener, Served::Stopped))
}

/// Whether it is in the texts too if the socket fails when the peer has left: accepting another connection would wait,
/// and the socket is one that doesn't.
pub(crate) fn are_peers_recorded_at_a_fault(rt: &HostRuntime) -> io::Result<bool> {
    let (mut listener, mut peer) = peer_with(rt, b"begin A\nput A x 5\ncommit A\n")?;
    peer.shutdown(Shutdown::Write)?;
    listener.set_nonblocking(true)?;
    if !is_recorded(rt, &mut listener, Served::SocketFault) {
        return Ok(false);
    }
    let mut replies = Vec::new(rt.alloc());
    peer.read_to_end(&mut replies)?;
    Ok(replies.as_slice() == b"begun 1\ndone\ncommitted\n".as_slice())
}

/// Whether a run over the socket ends so, and writes the texts of a transaction that has put 5 at `x`.
fn is_recorded(rt: &HostRuntime, listener: &mut UnixListener, end: Served) -> bool {
    let mut history = Watched::new(Vec::new(rt.alloc()));
    let mut certificate = Watched::new(Vec::new(rt.alloc()));
    let (served, written) = run_socket(rt.alloc(), listener, &mut history, &mut certificate);
    served == end
        && written.is_ok()
        && history.into_inner().as_slice()
            == b"adya 1\nw1(x.1:1,5)\nc1\n[x:1]\n{x,5}\nend\n".as_slice()
        && certificate.into_inner().as_slice() == b"serial 1\n1\nend\n".as_slice()
}
