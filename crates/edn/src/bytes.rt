//! Kinds of bytes.

ghost use Rattle.std.specs.Prelude.{◌≡◌, ◌≤◌, length};
ghost use Rattle.std.specs.List.{prefix_len};
ghost use Rattle.std.specs.Char.{is_ascii_digit, is_ascii_hexdigit};
ghost use Rattle.edn.specs.Meaning.Bytes.{is_space, is_end, is_word_byte, is_symbol_byte};

/// Returns whether the byte is white space, as a comma is. So are, to Clojure, the separators of ASCII.
#[tactic(auto, unfolding(crate::specs::Meaning::Bytes::is_space))]
pub(crate) fn is_space(byte: u8) -> bool
    ensures { result ≡ is_space byte }
{
    matches!(byte, b'\t'..=b'\r' | 28..=b' ' | b',')
}

/// Returns whether the byte ends a number, a keyword or a symbol.
#[tactic(auto, unfolding(crate::specs::Meaning::Bytes::is_end))]
pub(crate) fn is_end(byte: u8) -> bool
    ensures { result ≡ is_end byte }
{
    is_space(byte) || matches!(byte, b'"' | b'(' | b')' | b';' | b'['..=b'^' | b'{' | b'}')
}

fn is_word_byte(byte: u8) -> bool
    ensures { result ≡ is_word_byte byte }
{
    !is_end(byte)
}

/// Returns whether the byte may stand in a symbol, beside the `/` between its parts. The standard has letters, digits and
/// `.*+!-_?$%&=<>:#`; Clojure's reader takes all that end no word, other than `@`, `` ` `` and `~`, and so does this one.
#[tactic(auto, unfolding(crate::specs::Meaning::Bytes::is_symbol_byte, crate::specs::Meaning::Bytes::is_end, crate::specs::Meaning::Bytes::is_space))]
pub(crate) fn is_symbol_byte(byte: u8) -> bool
    ensures { result ≡ is_symbol_byte byte }
{
    // most bytes of words are such letters
    if byte.is_ascii_lowercase() {
        return true;
    }
    is_word_byte(byte) && !matches!(byte, b'/' | b'@' | b'`' | b'~')
}

/// Returns the number of bytes at the front that may belong to one number, keyword or symbol.
pub(crate) fn word_len(bytes: &[u8]) -> usize
    ensures value { result ≡ prefix_len is_word_byte bytes.now }
    ensures within { result ≤ length bytes.now }
{
    bytes.iter().take_while(|byte| is_word_byte(**byte)).count()
}

/// Returns the number of bytes at the front that may stand in a symbol, beside the `/` between its parts.
pub(crate) fn symbol_len(bytes: &[u8]) -> usize
    ensures value { result ≡ prefix_len is_symbol_byte bytes.now }
    ensures within { result ≤ length bytes.now }
{
    bytes
        .iter()
        .take_while(|byte| is_symbol_byte(**byte))
        .count()
}

/// Returns the number of hexadecimal digits at the front.
pub(crate) fn hexdigits_len(bytes: &[u8]) -> usize
    ensures value { result ≡ prefix_len is_ascii_hexdigit bytes.now }
    ensures within { result ≤ length bytes.now }
{
    bytes
        .iter()
        .take_while(|byte| byte.is_ascii_hexdigit())
        .count()
}

/// Returns the number of digits at the front.
pub(crate) fn digits_len(bytes: &[u8]) -> usize
    ensures value { result ≡ prefix_len is_ascii_digit bytes.now }
    ensures within { result ≤ length bytes.now }
{
    bytes
        .iter()
        .take_while(|byte| byte.is_ascii_digit())
        .count()
}
