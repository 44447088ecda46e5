//! What a writer was given first.

use std::io;
use std::io::Write;

/// How many bytes are noted: more than a verdict of kind 1 has.
const MOST: usize = 48;

/// A writer whose first bytes are noted.
#[derive(Drop)]
pub struct Noted<W> {
    device: W,
    bytes: [u8; 48],
    count: usize,
}

impl<W> Noted<W> {
    /// A writer that was given nothing.
    pub fn new(device: W) -> Noted<W> {
        Noted {
            device,
            bytes: [0; 48],
            count: 0,
        }
    }

    /// Returns the first bytes that were written, up to 48.
    pub fn first(&self) -> &[u8] {
        self.bytes.get(..self.count).unwrap_or(&[])
    }

    fn note(&mut self, given: &[u8]) {
        for byte in given {
            if self.count >= MOST {
                return;
            }
            if let Some(place) = self.bytes.get_mut(self.count) {
                *place = *byte;
            }
            self.count = self.count.saturating_add(1);
        }
    }
}

impl<W: Write> Write for Noted<W> {
    fn write(&mut self, buf: &[u8]) -> io::Result<usize> {
        let n = self.device.write(buf)?;
        if let Some(written) = buf.get(..n) {
            self.note(written);
        }
        Ok(n)
    }

    fn flush(&mut self) -> io::Result<()> {
        self.device.flush()
    }
}
