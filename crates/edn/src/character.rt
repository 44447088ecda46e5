//! The names of characters.

ghost use Rattle.std.specs.Prelude.{◌≡◌, nat_eq};
ghost use Rattle.std.specs.List.{list_all};
ghost use Rattle.std.specs.Char.{is_ascii_hexdigit};
ghost use Rattle.std.specs.Cmp.Lexicographic.{pointwise};
ghost use Rattle.edn.specs.Meaning.Characters as Spec;
ghost use Rattle.edn.specs.Meaning.Strings.{is_octal};

use crate::string::{is_octal, octal_char};

/// Returns whether a character is written so after its backslash: `newline`, `return`, `space`, `tab`, and `backspace` and
/// `formfeed`, which Clojure writes; `u` and four hexadecimal digits; `o` and an octal number up to 377, as in Clojure; or the
/// one character.
#[tactic(auto, unfolding(crate::specs::Meaning::Characters::is_character))]
pub(crate) fn is_character(name: &[u8]) -> bool
    ensures { result ≡ Spec.is_character name.now }
{
    is_named(name) || is_coded(name) || is_octal_coded(name) || is_single(name)
}

/// Returns whether the texts are the same.
pub(crate) fn is_text(some: &[u8], other: &[u8]) -> bool
    ensures { result ≡ pointwise nat_eq some.now other.now }
{
    some == other
}

fn is_named(name: &[u8]) -> bool
    ensures { result ≡ Spec.is_named name.now }
{
    is_text(name, b"newline")
        || is_text(name, b"return")
        || is_text(name, b"space")
        || is_text(name, b"tab")
        || is_text(name, b"backspace")
        || is_text(name, b"formfeed")
}

fn is_coded(name: &[u8]) -> bool
    ensures { result ≡ Spec.is_coded name.now }
{
    match name {
        [mark, digits @ ..] => *mark == b'u' && digits.len() == 4 && all_hexdigits(digits),
        [] => false,
    }
}

fn all_hexdigits(digits: &[u8]) -> bool
    ensures { result ≡ list_all is_ascii_hexdigit digits.now }
{
    digits.iter().all(|digit| digit.is_ascii_hexdigit())
}

fn is_octal_coded(name: &[u8]) -> bool
    ensures { result ≡ Spec.is_octal_coded name.now }
{
    match name {
        [mark, digits @ ..] => {
            *mark == b'o' && !digits.is_empty() && all_octal(digits) && octal_char(digits).is_some()
        }
        [] => false,
    }
}

fn all_octal(digits: &[u8]) -> bool
    ensures { result ≡ list_all is_octal digits.now }
{
    digits.iter().all(|digit| is_octal(*digit))
}

fn is_single(name: &[u8]) -> bool
    ensures { result ≡ Spec.is_single name.now }
{
    match name {
        [first, rest @ ..] => rest.len() == bytes_after(*first) && all_inner(rest),
        [] => false,
    }
}

/// Returns how many bytes of UTF-8 follow the first one of a character.
fn bytes_after(first: u8) -> usize
    ensures { result ≡ Spec.bytes_after first }
{
    if first < 0xc0 {
        0
    } else if first < 0xe0 {
        1
    } else if first < 0xf0 {
        2
    } else {
        3
    }
}

/// Returns whether the byte is one of UTF-8 after the first of a character.
fn is_inner(byte: u8) -> bool
    ensures { result ≡ Spec.is_inner byte }
{
    byte >= 0x80 && byte < 0xc0
}

fn all_inner(bytes: &[u8]) -> bool
    ensures { result ≡ list_all Spec.is_inner bytes.now }
{
    bytes.iter().all(|byte| is_inner(*byte))
}
