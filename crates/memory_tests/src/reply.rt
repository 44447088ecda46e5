//! What a layer replies, as the words of a line.

use crate::words::Fault;
use adya_line::write_version;
use adya_values::{Content, Txn, Version};
use devices::{Watched, put, put_number};
use std::io;
use std::io::{ErrorKind, Write};

/// A writer that takes the words that are wanted, and fails at any other. It takes no memory.
pub(crate) type Reply<'a> = Watched<WantedWords<'a>>;

/// The wanted bytes. A line feed is written as a space, and none at the end.
#[derive(Drop)]
pub(crate) struct WantedWords<'a> {
    rest: &'a [u8],
}

impl Write for WantedWords<'_> {
    fn write(&mut self, buf: &[u8]) -> io::Result<usize> {
        for byte in buf {
            let Some(rest) = after(self.rest, *byte) else {
                return Err(ErrorKind::InvalidData.into());
            };
            self.rest = rest;
        }
        Ok(buf.len())
    }

    fn flush(&mut self) -> io::Result<()> {
        Ok(())
    }
}

/// Returns what is wanted after the byte; nothing if another byte is wanted.
fn after(wanted: &[u8], byte: u8) -> Option<&[u8]> {
    let byte = if byte == b'\n' { b' ' } else { byte };
    match wanted {
        [first, rest @ ..] if *first == byte => Some(rest),
        [] if byte == b' ' => Some(wanted),
        _ => None,
    }
}

/// Returns a writer that takes this reply.
pub(crate) fn replying(text: &str) -> Reply<'_> {
    Watched::new(WantedWords {
        rest: text.as_bytes(),
    })
}

/// Whether all of the reply was written.
pub(crate) fn is_replied(reply: Reply<'_>) -> bool {
    !reply.failed() && reply.into_inner().rest.is_empty()
}

/// Writes a space before each word of a list but the first one.
pub(crate) fn part(place: usize, reply: &mut Reply) -> io::Result<()> {
    if place == 0 { Ok(()) } else { put(b" ", reply) }
}

/// Writes `nothing` for an empty list.
pub(crate) fn put_empty(length: usize, reply: &mut Reply) -> io::Result<()> {
    if length == 0 {
        put(b"nothing", reply)
    } else {
        Ok(())
    }
}

/// Writes the version and what it holds: `x.1:2=5`, or `x.1:2-` if it is dead.
pub(crate) fn put_entry(version: &Version, content: &Content, reply: &mut Reply) -> io::Result<()> {
    write_version(version, reply)?;
    match content {
        Content::Live(value) => {
            put(b"=", reply)?;
            put(value.bytes(), reply)
        }
        Content::Dead => put(b"-", reply),
    }
}

/// Writes two numbers.
pub(crate) fn put_pair(one: u64, other: u64, reply: &mut Reply) -> Result<(), Fault> {
    put_number(one, reply)?;
    put(b" ", reply)?;
    Ok(put_number(other, reply)?)
}

/// Writes the numbers of the transactions.
pub(crate) fn put_txns(txns: &[Txn], reply: &mut Reply) -> Result<(), Fault> {
    put_empty(txns.len(), reply)?;
    for (place, txn) in txns.iter().enumerate() {
        part(place, reply)?;
        put_number(u64::from(txn.get()), reply)?;
    }
    Ok(())
}
