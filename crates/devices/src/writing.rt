//! Writing bytes, numbers and lines.

ghost use Rattle.std.specs.Prelude.{◌++◌, ◌∷◌, [], decimal, OnErr};
ghost use Rattle.devices.specs.Clauses.Writing.{Wrote, Broke};

use crate::Watched;
use itoa::Buffer;
use std::io;
use std::io::Write;

/// Writes the bytes. Returns an error only if the device has failed; it then took a front of them, but not all.
pub fn put<W: Write>(bytes: &[u8], out: &mut Watched<W>) -> io::Result<()>
    ensures wrote { Wrote W.contents out.old out.new bytes.now result }
    ensures broke { OnErr result (Broke W.contents out.old out.new bytes.now) }
{
    out.write_all(bytes)
}

/// Writes the number in decimal digits. Returns an error only if the device has failed; how much it took is then not
/// said.
pub fn put_number<W: Write>(number: u64, out: &mut Watched<W>) -> io::Result<()>
    ensures { Wrote W.contents out.old out.new (decimal number) result }
{
    put(Buffer::new().format(number).as_bytes(), out)
}

/// Writes the bytes and a line feed. Returns an error only if the device has failed; how much it took is then not
/// said.
pub fn put_line<W: Write>(bytes: &[u8], out: &mut Watched<W>) -> io::Result<()>
    ensures { Wrote W.contents out.old out.new (bytes.now ++ 10 ∷ []) result }
{
    put(bytes, out)?;
    put(b"\n", out)
}
