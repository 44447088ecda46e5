//! A writer that takes only what is wanted.

use adya_text::{write_history, write_serial};
use adya_values::{History, Serial};
use devices::Watched;
use std::io;
use std::io::{ErrorKind, Write};

/// A writer that takes the wanted bytes and fails at any other. It takes no memory.
#[derive(Drop)]
pub(crate) struct Wanted<'a> {
    rest: &'a [u8],
}

impl Write for Wanted<'_> {
    fn write(&mut self, buf: &[u8]) -> io::Result<usize> {
        if !self.rest.starts_with(buf) {
            return Err(ErrorKind::InvalidData.into());
        }
        self.rest = &self.rest[buf.len()..];
        Ok(buf.len())
    }

    fn flush(&mut self) -> io::Result<()> {
        Ok(())
    }
}

/// Returns a writer that takes this text.
pub(crate) fn wanting(text: &[u8]) -> Watched<Wanted<'_>> {
    Watched::new(Wanted { rest: text })
}

/// Whether all of the text was written, and nothing else.
pub(crate) fn is_met(out: Watched<Wanted<'_>>) -> bool {
    !out.failed() && out.into_inner().rest.is_empty()
}

/// Whether the text is that of the history.
pub(crate) fn is_history(history: &History, text: &[u8]) -> bool {
    let mut out = wanting(text);
    write_history(history, &mut out).is_ok() && is_met(out)
}

/// Whether the text is that of the certificate.
pub(crate) fn is_serial(serial: &Serial, text: &[u8]) -> bool {
    let mut out = wanting(text);
    write_serial(serial, &mut out).is_ok() && is_met(out)
}
