//! Texts at the front of arrays of fixed size.

ghost use Rattle.std.specs.Prelude.{◌≡◌, ◌≤◌, length};
ghost use Rattle.adya_keys.specs.Machinery.Padded.{padded};

/// Returns the text, followed by zeros.
#[inline(always)]
pub(crate) fn padded<const N: usize>(text: &[u8]) -> [u8; N]
    requires { length text.now ≤ N }
    ensures { result ≡ padded N text.now }
{
    let mut bytes = [0; N];
    bytes[..text.len()].copy_from_slice(text);
    bytes
}
