//! A client that sends its next line only once it has the reply to the one before.

use crate::answers::new_store;
use adya_testing::Narrow;
use devices::Watched;
use ssi_line::{End, serve};
use std::alloc::Global;
use std::cell::Cell;
use std::io;
use std::io::{Error, ErrorKind, Read, Write};

/// The lines of the client, each with its reply.
const COURSE: [(&str, &str); 6] = [
    ("begin A\n", "begun 1\n"),
    ("put A x 5\n", "done\n"),
    ("puts\n", "? syntax\n"),
    ("commit A\n", "committed\n"),
    (
        "dump\n",
        "adya 2\nw1(x.1:1,5)\nc1\n[x:1]\n{x,5}\nend\nserial 1\n1\nend\n",
    ),
    ("stop\n", "stopped\n"),
];

/// The lines, one a read. A read fails that comes before all of the replies to the lines so far.
#[derive(Drop)]
struct Lines<'a> {
    given: usize,
    // how many bytes all replies to these have
    due: usize,
    answered: &'a Cell<usize>,
}

impl Read for Lines<'_> {
    fn read(&mut self, buf: &mut [u8]) -> io::Result<usize> {
        if self.answered.get() != self.due {
            return Err(Error::from(ErrorKind::WouldBlock));
        }
        let Some((line, reply)) = COURSE.get(self.given) else {
            return Ok(0);
        };
        self.given = self.given.saturating_add(1);
        self.due = self.due.saturating_add(reply.len());
        let mut bytes = line.as_bytes();
        bytes.read(buf)
    }
}

/// What the client has got: a byte a call.
#[derive(Drop)]
struct Replies<'a> {
    narrow: Narrow,
    answered: &'a Cell<usize>,
}

impl Write for Replies<'_> {
    fn write(&mut self, buf: &[u8]) -> io::Result<usize> {
        let count = self.narrow.write(buf)?;
        self.answered.set(self.narrow.bytes.len());
        Ok(count)
    }

    fn flush(&mut self) -> io::Result<()> {
        Ok(())
    }
}

/// Whether a store answers each line before it reads further: the client gets all replies.
pub(crate) fn are_lines_answered(alloc: Global) -> bool {
    let answered = Cell::new(0);
    let mut input = Watched::new(Lines {
        given: 0,
        due: 0,
        answered: &answered,
    });
    let mut output = Watched::new(Replies {
        narrow: Narrow {
            bytes: Vec::new(alloc),
            most: 1,
        },
        answered: &answered,
    });
    let end = serve(alloc, &mut input, &mut output, &mut new_store(alloc));
    let replies = output.into_inner().narrow.bytes;
    end == End::Stop && is_all(&replies)
}

/// Whether the bytes are all replies, in order.
fn is_all(bytes: &[u8]) -> bool {
    let mut rest = bytes;
    for (_, reply) in COURSE {
        let Some(after) = rest.strip_prefix(reply.as_bytes()) else {
            return false;
        };
        rest = after;
    }
    rest.is_empty()
}
