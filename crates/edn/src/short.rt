//! Short texts.

ghost use Rattle.std.specs.Prelude.{◌≡◌, ◌≤◌, ℕ, length, take, IfSome};

/// The most bytes of a short text.
const ROOM: usize = 16;

/// A text of at most 16 bytes, which takes no memory of its own.
#[derive(Clone, Copy, Drop)]
pub struct Short {
    /// The text, followed by whatever.
    bytes: [u8; ROOM],
    len: usize,
    ghost within: { len ≤ 16 },
}

impl Short {
    /// The empty text.
    pub(crate) fn empty() -> Short {
        Short {
            bytes: [0; ROOM],
            len: 0,
        }
    }

    /// Returns the first bytes of the text, so many of them, unless they are too many.
    #[inline(always)]
    pub(crate) fn front(text: &[u8], len: usize) -> Option<Short>
        requires { len ≤ length text.now }
        ensures { IfSome result (λ s. take s.len s.bytes ≡ take len text.now) }
    {
        if len > ROOM {
            return None;
        }
        let bytes = filled(text);
        Some(Short { bytes, len })
    }

    /// Returns the bytes of the text.
    pub fn as_slice(&self) -> &[u8]
        ensures { result.now ≡ take self.now.len self.now.bytes }
    {
        &self.bytes[..self.len]
    }
}

/// Returns the first bytes of the text, as many as there is room for, followed by zeros if there are fewer.
fn filled(text: &[u8]) -> [u8; ROOM]
    ensures { (n : ℕ) → n ≤ 16 → n ≤ length text.now → take n result ≡ take n text.now }
{
    let mut bytes = [0; ROOM];
    if text.len() >= ROOM {
        // a copy of a constant size takes no call
        bytes.copy_from_slice(&text[..ROOM]);
    } else {
        bytes[..text.len()].copy_from_slice(text);
    }
    bytes
}
