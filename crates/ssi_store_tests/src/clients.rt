//! Clients whose streams are in memory, and take and give what they are told to.

use ssi_cli::Stream;
use std::alloc::{AllocError, Global};
use std::io;
use std::io::{Cursor, Error, ErrorKind, Read, Write};

/// How a read or write goes.
#[derive(Clone, Copy)]
enum Way {
    /// So many bytes at most.
    Most(usize),
    /// It fails so.
    Fails(ErrorKind),
}

/// The stream of a client.
#[derive(Drop)]
pub(crate) struct Client {
    sends: Cursor<Vec<u8>>,
    got: Vec<u8>,
    // the ways of the next reads and writes, the last of them first; later ones go without a limit
    reads: Vec<Way>,
    writes: Vec<Way>,
}

impl Client {
    /// Makes one that sends these bytes, and whose reads and writes go as the two lists say: a number is the most bytes, `w`
    /// would wait, `i` is interrupted, `x` fails.
    pub(crate) fn new(
        alloc: Global,
        sends: Vec<u8>,
        reads: &str,
        writes: &str,
    ) -> Result<Client, AllocError> {
        Ok(Client {
            sends: Cursor::new(sends),
            got: Vec::new(alloc),
            reads: ways(alloc, reads)?,
            writes: ways(alloc, writes)?,
        })
    }

    /// Returns what it has got.
    pub(crate) fn got(&self) -> &[u8] {
        &self.got
    }

    /// Returns how many of its bytes were read.
    pub(crate) fn read_len(&self) -> u64 {
        self.sends.position()
    }
}

/// Returns the ways of a list, the last of them first.
fn ways(alloc: Global, text: &str) -> Result<Vec<Way>, AllocError> {
    let mut ways = Vec::new(alloc);
    for word in text.split(",") {
        ways.push(way_of(word))?;
    }
    ways.reverse();
    Ok(ways)
}

fn way_of(word: &str) -> Way {
    match word {
        "w" => Way::Fails(ErrorKind::WouldBlock),
        "i" => Way::Fails(ErrorKind::Interrupted),
        "x" => Way::Fails(ErrorKind::ConnectionReset),
        _ => Way::Most(word.parse::<usize>().unwrap_or(usize::MAX)),
    }
}

/// Returns the most bytes of the next call.
fn next(ways: &mut Vec<Way>) -> io::Result<usize> {
    match ways.pop() {
        Some(Way::Most(most)) => Ok(most),
        Some(Way::Fails(kind)) => Err(Error::from(kind)),
        None => Ok(usize::MAX),
    }
}

impl Read for Client {
    fn read(&mut self, buf: &mut [u8]) -> io::Result<usize> {
        let most = next(&mut self.reads)?;
        let n = buf.len().min(most);
        self.sends.read(&mut buf[..n])
    }
}

impl Write for Client {
    fn write(&mut self, buf: &[u8]) -> io::Result<usize> {
        let most = next(&mut self.writes)?;
        let n = buf.len().min(most);
        self.got.extend_from_slice(&buf[..n])?;
        Ok(n)
    }

    fn flush(&mut self) -> io::Result<()> {
        Ok(())
    }
}

impl Stream for Client {
    fn pull(&mut self, buf: &mut [u8]) -> io::Result<usize> {
        self.read(buf)
    }

    fn push(&mut self, buf: &[u8]) -> io::Result<usize> {
        self.write(buf)
    }
}
