//! Words that are read in one pass: most integers, most keywords, and `nil`.

ghost use Rattle.std.specs.Prelude.{◌≡◌, ◌<◌, length, IfSome, option_map};
ghost use Rattle.edn.specs.declared.token.Beyond.{Beyond};
ghost use Rattle.edn.specs.Meaning.Forms.{integer, keyword, nil};
ghost use Rattle.edn.specs.Meaning.Shorts.{short_text};
ghost use Rattle.edn.specs.Meaning.Tokens.{leaf};
ghost use Rattle.edn.specs.Computing.Tokens as Spec;
ghost use Rattle.edn.specs.Computing.Plain.{begins_plain, after_byte, begins_with_end};

use crate::bytes::{is_end, symbol_len};
use crate::names::begins_keyword;
use crate::number::{leading_digits, positive};
use crate::short::Short;

/// Returns the integer that is the word at the front, and what follows it, if that is a byte which ends it. It has
/// neither a sign nor a suffix, and doesn't begin with `0`.
#[inline(always)]
pub(crate) fn plain_integer(text: &[u8]) -> Option<(i64, &[u8])>
    ensures exact { IfSome result (λ p. (beyond : Beyond)
        → Spec.token_at beyond text.now ≡ Spec.token (leaf (integer p.0)) p.1.now) }
    ensures within { IfSome result (λ p. length p.1.now < length text.now) }
{
    if !begins_plain(text) {
        return None;
    }
    let (magnitude, rest) = leading_digits(text)?;
    if !begins_with_end(rest) {
        return None;
    }
    Some((positive(magnitude)?, rest))
}

/// Returns the name of the keyword that is the word at the front, and what follows it, if that is a byte which ends it.
/// The name is short, and has no `/`.
#[inline(always)]
pub(crate) fn plain_keyword(text: &[u8]) -> Option<(Short, &[u8])>
    ensures exact { IfSome result (λ p. (beyond : Beyond)
        → Spec.word_token beyond text.now ≡ Spec.token (leaf (keyword (short_text p.0))) p.1.now) }
    ensures within { IfSome result (λ p. length p.1.now < length text.now) }
{
    let after = after_byte(b':', text)?;
    let len = symbol_len(after);
    let (name, rest) = after.split_at(len);
    if !begins_keyword(name) || !begins_with_end(rest) {
        return None;
    }
    let short = Short::front(after, len)?;
    Some((short, rest))
}

/// Returns what follows the word `nil` at the front, if that is a byte which ends it.
#[inline(always)]
pub(crate) fn plain_nil(text: &[u8]) -> Option<&[u8]>
    ensures exact { IfSome result (λ rest. (beyond : Beyond)
        → Spec.word_token beyond text.now ≡ Spec.token (leaf nil) rest.now) }
    ensures within { IfSome result (λ rest. length rest.now < length text.now) }
{
    let after_n = after_byte(b'n', text)?;
    let after_ni = after_byte(b'i', after_n)?;
    let rest = after_byte(b'l', after_ni)?;
    if !begins_with_end(rest) {
        return None;
    }
    Some(rest)
}

/// Returns whether the text begins with a byte that ends a word.
fn begins_with_end(text: &[u8]) -> bool
    ensures { result ≡ begins_with_end text.now }
{
    match text {
        [] => false,
        [first, ..] => is_end(*first),
    }
}

/// Returns whether the text begins with a digit other than `0`.
fn begins_plain(text: &[u8]) -> bool
    ensures { result ≡ begins_plain text.now }
{
    match text {
        [] => false,
        [first, ..] => first.is_ascii_digit() && *first != b'0',
    }
}

/// Returns what follows this byte at the front, if it is there.
fn after_byte(byte: u8, text: &[u8]) -> Option<&[u8]>
    ensures value { option_map (λ rest. rest.now) result ≡ after_byte byte text.now }
    ensures within { IfSome result (λ rest. length rest.now < length text.now) }
{
    match text {
        [first, rest @ ..] if *first == byte => Some(rest),
        _ => None,
    }
}
