//! Where a range stands: under a prefix of its keys.

ghost use Rattle.std.specs.Prelude.{◌≡◌, ◌≤◌, ℕ, List, length, take};
ghost use Rattle.adya_keys.specs.Meaning.Keys.{lies_in};
ghost use Rattle.ssi_reads.specs.Machinery.Prefixes.{prefix_of, shared, covers};

use crate::span::Span;
use adya_values::Key;

/// A range under a prefix. It covers a key if the key begins with the prefix and lies in the range.
#[derive(Clone, Copy, PartialEq, Eq, PartialOrd, Ord)]
pub(crate) struct Place {
    /// `None` is the empty prefix.
    pub(crate) prefix: Option<Key>,
    pub(crate) span: Span,
}

impl Place {
    /// Puts the range under the longest prefix that its two ends share. All keys between them have it, too.
    pub(crate) fn new(low: Key, high: Key) -> Place
        ensures { (k : List ℕ) → covers result k ≡ lies_in low high k }
    {
        let len = shared_len(low.bytes(), high.bytes());
        Place {
            prefix: prefix(low, len),
            span: Span { low, high },
        }
    }
}

/// Returns the first bytes of the key, as many as `len` says; nothing if that is none.
pub(crate) fn prefix(key: Key, len: usize) -> Option<Key>
    requires within { len ≤ length key }
    ensures { result ≡ prefix_of (take len key) }
{
    Key::new(&key.bytes()[..len]).ok()
}

/// Returns how many bytes the longest prefix of both has.
fn shared_len(low: &[u8], high: &[u8]) -> usize
    ensures { result ≡ length (shared low.now high.now) }
{
    let most = low.len().min(high.len());
    for len in 0..most {
        if low[len] != high[len] {
            return len;
        }
    }
    most
}
