//! Readers and writers that fail, and the parts of a text that a fault leaves.

ghost use Rattle.std.specs.Prelude.{◌<◌};

use adya_testing::{FailsAt, Narrow, Pieces};
use devices::Watched;
use std::alloc::Global;
use std::io;
use std::io::{ErrorKind, Write};

/// How failing devices fail. An interrupted call is a failed one.
pub(crate) const KINDS: [ErrorKind; 2] = [ErrorKind::Interrupted, ErrorKind::TimedOut];

/// How a device fails.
#[derive(Clone, Copy)]
pub(crate) enum Fault {
    /// It doesn't.
    None,
    /// This call of it fails, counted from 1.
    At(u64, ErrorKind),
    /// A writer takes nothing.
    Full,
    /// A writer takes everything, and holds it back.
    HeldBack,
}

impl Fault {
    /// Returns the call that fails, 0 if none does.
    fn call(self) -> u64 {
        if let Fault::At(call, _) = self {
            call
        } else {
            0
        }
    }

    fn kind(self) -> ErrorKind {
        if let Fault::At(_, kind) = self {
            kind
        } else {
            ErrorKind::Other
        }
    }
}

/// A writer that takes a byte a call or none, and that may hold back what it has taken.
#[derive(Drop)]
pub(crate) struct Writer {
    narrow: Narrow,
    is_held_back: bool,
}

impl Writer {
    /// Returns what was written.
    pub(crate) fn bytes(&self) -> &[u8] {
        &self.narrow.bytes
    }
}

impl Write for Writer {
    fn write(&mut self, buf: &[u8]) -> io::Result<usize> {
        self.narrow.write(buf)
    }

    fn flush(&mut self) -> io::Result<()> {
        if self.is_held_back {
            return Err(io::Error::from(ErrorKind::TimedOut));
        }
        Ok(())
    }
}

/// Makes a reader of the text in pieces of at most `most` bytes that fails so.
pub(crate) fn watched_reader(text: &[u8], most: usize, fault: Fault) -> Watched<FailsAt<Pieces<'_>>>
    requires { 0 < most }
{
    Watched::new(FailsAt::new(Pieces::new(text, most), fault.call(), fault.kind()))
}

/// Makes a writer that takes a byte a call and fails so.
pub(crate) fn watched_writer(alloc: Global, fault: Fault) -> Watched<FailsAt<Writer>> {
    let most = if let Fault::Full = fault { 0 } else { 1 };
    let is_held_back = matches!(&fault, Fault::HeldBack);
    let narrow = Narrow {
        bytes: Vec::new(alloc),
        most,
    };
    let writer = Writer {
        narrow,
        is_held_back,
    };
    Watched::new(FailsAt::new(writer, fault.call(), fault.kind()))
}

/// Returns how many lines are whole in the text.
pub(crate) fn whole_lines(text: &[u8]) -> usize {
    text.iter().filter(|b| **b == b'\n').count()
}

/// Returns the text in two parts: its first lines, as many as are asked for, and the rest.
pub(crate) fn split_after(text: &[u8], lines: usize) -> (&[u8], &[u8]) {
    let mut rest = text;
    for _ in 0..lines {
        let Some(at) = rest.iter().position(|b| *b == b'\n') else {
            break;
        };
        rest = rest.get(at.saturating_add(1)..).unwrap_or(rest);
    }
    text.split_at(text.len().saturating_sub(rest.len()))
}
