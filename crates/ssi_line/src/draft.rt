//! Bytes on their way to a device.

ghost use Rattle.std.specs.Prelude.{◌≡◌, ◌≤◌, ◌<◌, ◌-◌, [], length, decimal};
ghost use Rattle.ssi_line.specs.Machinery.Drafts.{Added};

use devices::Watched;
use itoa::Buffer;
use std::io::Write;
use std::marker::Model;

/// The most bytes that go out together.
const ROOM: usize = 4096;

/// Bytes that are gathered before they are written: the device gets up to 4096 of them by one call. A device that fails
/// remembers it, and takes no more, so the calls don't say it.
#[derive(Drop)]
pub(crate) struct Draft {
    bytes: [u8; ROOM],
    len: usize,
}

impl Model for Draft {
    ghost use Rattle.std.specs.Prelude.{List, ℕ, ◌≤◌, take};

    ghost Value = { List ℕ };

    ghost view = { λ d. take d.len d.bytes };

    ghost invariant = { λ d. d.len ≤ 4096 };
}

impl Draft {
    /// Makes an empty draft.
    pub(crate) fn new() -> Draft
        ensures { result ≡ [] }
    {
        Draft {
            bytes: [0; ROOM],
            len: 0,
        }
    }

    /// Adds the bytes. If they don't fit, it first writes what it has.
    pub(crate) fn put<W: Write>(&mut self, bytes: &[u8], out: &mut Watched<W>)
        ensures { Added W.contents out.old self.old out.new self.new bytes.now }
    {
        self.make_room(bytes.len(), out);
        if bytes.len() > ROOM - self.len {
            let _ = out.write_all(bytes);
            return;
        }
        let end = self.len + bytes.len();
        self.bytes[self.len..end].copy_from_slice(bytes);
        self.len = end;
    }

    /// Writes what was gathered if so many bytes don't fit beside it.
    fn make_room<W: Write>(&mut self, count: usize, out: &mut Watched<W>)
        ensures added { Added W.contents out.old self.old out.new self.new [] }
        ensures room { 4096 - length self.new < count → self.new ≡ [] }
    {
        if count > ROOM - self.len {
            self.send(out);
        }
    }

    /// Adds the number in decimal digits.
    pub(crate) fn put_number<W: Write>(&mut self, number: u64, out: &mut Watched<W>)
        ensures { Added W.contents out.old self.old out.new self.new (decimal number) }
    {
        self.put(Buffer::new().format(number).as_bytes(), out);
    }

    /// Writes what was gathered, all at once.
    pub(crate) fn send<W: Write>(&mut self, out: &mut Watched<W>)
        ensures added { Added W.contents out.old self.old out.new self.new [] }
        ensures empty { self.new ≡ [] }
    {
        let _ = out.write_all(&self.bytes[..self.len]);
        self.len = 0;
    }
}
