//! The lines of a text.

ghost use Rattle.std.specs.Prelude.{◌≡◌, ◌↔◌, ◌∷◌, ◌++◌, IfSome, IfNone, IsTrue};
ghost use Rattle.adya_line.specs.Meaning.Lines.{IsPlain};
ghost use Rattle.ssi_durable.specs.Meaning.Lines.{HasHeader, ends_loads, header, is_comment, whole_lines};

use itoa::Buffer;
use memchr::memchr;

/// What stands before the number in the first line of a segment.
const HEADER: &[u8] = b"# ssi log 1 segment ";

/// Returns the bytes before the first line feed, and what follows it. `None` if there is none.
pub fn first_line(bytes: &[u8]) -> Option<(&[u8], &[u8])>
    ensures some { IfSome result (λ r. IsPlain r.0.now × (bytes.now ≡ r.0.now ++ (10 ∷ r.1.now))) }
    ensures none { IfNone result (IsPlain bytes.now) }
{
    let at = memchr(b'\n', bytes)?;
    Some((&bytes[..at], &bytes[at + 1..]))
}

/// Returns whether the line makes no step.
pub(crate) fn is_comment(line: &[u8]) -> bool
    ensures { result ≡ is_comment line.now }
{
    matches!(line, [b'#', ..])
}

/// Returns whether the line ends the loads of a segment.
pub(crate) fn ends_loads(line: &[u8]) -> bool
    ensures { result ≡ ends_loads line.now }
{
    line == b"# loaded".as_slice()
}

/// Returns whether the first line of the text is that of this segment.
pub(crate) fn has_header(text: &[u8], number: u32) -> bool
    ensures { IsTrue result ↔ HasHeader number (whole_lines text.now) }
{
    match first_line(text) {
        Some((line, _)) => is_header(line, number),
        None => false,
    }
}

/// Returns whether the line is the first one of this segment.
fn is_header(line: &[u8], number: u32) -> bool
    ensures { IsTrue result ↔ (line.now ≡ header number) }
{
    match line.strip_prefix(HEADER) {
        Some(rest) => rest == Buffer::new().format(number).as_bytes(),
        None => false,
    }
}
