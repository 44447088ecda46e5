//! The texts of logs, and the files that have them.

ghost use Rattle.std.specs.Prelude.{◌≤◌, length};

use disk_testing::Mixing;
use memchr::{memchr, memrchr};
use std::alloc::{AllocError, Global};

/// How much room a log needs at least, so that a line is carried out without making its file longer.
pub const LEAST_ROOM: usize = 65_536;

/// The first two lines of a first segment.
pub const HEAD: &[u8; 31] = b"# ssi log 1 segment 1\n# loaded\n";

/// A file with this text and zeros after it, all of them on the disk. There is room for so many bytes more than a log needs.
pub fn file(alloc: Global, seed: u64, text: &[u8], more: usize) -> Result<Mixing, AllocError> {
    let len = text
        .len()
        .saturating_add(LEAST_ROOM + 1)
        .saturating_add(more);
    let mut bytes = Vec::from_slice(alloc, text)?;
    bytes.resize(len, 0)?;
    Mixing::with_bytes(alloc, seed, &bytes)
}

/// The text of a file: what it has before its first zero.
pub fn text_of(file: &Mixing) -> &[u8] {
    let bytes = file.bytes();
    match memchr(0, bytes) {
        Some(end) => &bytes[..end],
        None => bytes,
    }
}

/// The text up to its last line feed.
pub fn whole_lines(text: &[u8]) -> &[u8]
    ensures { length result.now ≤ length text.now }
{
    match memrchr(b'\n', text) {
        Some(at) => &text[..=at],
        None => &text[..0],
    }
}

/// How many lines the text has.
pub fn count_lines(text: &[u8]) -> usize {
    text.iter().filter(|b| **b == b'\n').count()
}
