//! The names of symbols, keywords and tags.

ghost use Rattle.std.specs.Prelude.{◌≡◌, ◌≤◌, length};
ghost use Rattle.std.specs.List.{prefix_len, list_all};
ghost use Rattle.edn.specs.Meaning.Bytes.{is_symbol_byte};
ghost use Rattle.edn.specs.Meaning.Names.{is_no_slash, is_some_symbol_bytes, begins_symbol, begins_keyword, begins_tag, is_rest_byte, is_rest};
ghost use Rattle.edn.specs.Meaning.Names.{are_empty, are_names, are_keyword_names, is_name, is_keyword_name, is_symbol, is_keyword, is_tag};

use crate::bytes::is_symbol_byte;

fn all_symbol_bytes(text: &[u8]) -> bool
    ensures { result ≡ list_all is_symbol_byte text.now }
{
    text.iter().all(|byte| is_symbol_byte(*byte))
}

/// Returns whether these are bytes of a symbol, at least one.
fn is_some_symbol_bytes(text: &[u8]) -> bool
    ensures { result ≡ is_some_symbol_bytes text.now }
{
    !text.is_empty() && all_symbol_bytes(text)
}

/// Returns whether a symbol may begin so: not with a digit, `:` or `#`.
fn begins_symbol(text: &[u8]) -> bool
    ensures { result ≡ begins_symbol text.now }
{
    match text {
        [] => false,
        [first, ..] => !(first.is_ascii_digit() || *first == b':' || *first == b'#'),
    }
}

/// Returns whether a keyword may begin so, after its colon: not with another one.
pub(crate) fn begins_keyword(text: &[u8]) -> bool
    ensures { result ≡ begins_keyword text.now }
{
    match text {
        [first, ..] => *first != b':',
        [] => false,
    }
}

/// Returns whether a tag may begin so: with a letter.
fn begins_tag(text: &[u8]) -> bool
    ensures { result ≡ begins_tag text.now }
{
    match text {
        [first, ..] => first.is_ascii_alphabetic() || *first >= 128,
        [] => false,
    }
}

/// Returns whether this is a part of a symbol before or after its slash, or a namespace.
pub(crate) fn is_name(text: &[u8]) -> bool
    ensures { result ≡ is_name text.now }
{
    begins_symbol(text) && is_some_symbol_bytes(text)
}

fn is_keyword_name(text: &[u8]) -> bool
    ensures { result ≡ is_keyword_name text.now }
{
    begins_keyword(text) && is_some_symbol_bytes(text)
}

/// Returns how many bytes stand before the first `/`, or all if there is none.
fn before_slash(text: &[u8]) -> usize
    ensures value { result ≡ prefix_len is_no_slash text.now }
    ensures within { result ≤ length text.now }
{
    text.iter().take_while(|byte| **byte != b'/').count()
}

/// Returns whether these are the bytes of a symbol: a name, a prefix and a name with `/` between them, or `/` alone. As in
/// Clojure the name after the prefix may have slashes.
pub(crate) fn is_symbol(text: &[u8]) -> bool
    ensures { result ≡ is_symbol text.now }
{
    let (prefix, rest) = text.split_at(before_slash(text));
    match rest {
        [] => is_name(prefix),
        [_, name @ ..] => are_empty(prefix, name) || are_names(prefix, name),
    }
}

fn are_empty(prefix: &[u8], name: &[u8]) -> bool
    ensures { result ≡ are_empty prefix.now name.now }
{
    prefix.is_empty() && name.is_empty()
}

/// Returns whether these are the prefix and the name of a symbol.
fn are_names(prefix: &[u8], name: &[u8]) -> bool
    ensures { result ≡ are_names prefix.now name.now }
{
    is_name(prefix) && is_rest(name)
}

/// Returns whether these are the prefix and the name of a keyword.
fn are_keyword_names(prefix: &[u8], name: &[u8]) -> bool
    ensures { result ≡ are_keyword_names prefix.now name.now }
{
    is_keyword_name(prefix) && is_rest(name)
}

/// Returns whether these are bytes of a symbol and slashes, at least one.
fn is_rest(text: &[u8]) -> bool
    ensures { result ≡ is_rest text.now }
{
    !text.is_empty() && all_rest_bytes(text)
}

fn all_rest_bytes(text: &[u8]) -> bool
    ensures { result ≡ list_all is_rest_byte text.now }
{
    text.iter().all(|byte| is_rest_byte(*byte))
}

fn is_rest_byte(byte: u8) -> bool
    ensures { result ≡ is_rest_byte byte }
{
    is_symbol_byte(byte) || byte == b'/'
}

/// Returns whether these are the bytes of a keyword after its colon. They are those of a symbol, but may begin with a
/// digit or a sign, since it is the colon that comes first.
pub(crate) fn is_keyword(text: &[u8]) -> bool
    ensures { result ≡ is_keyword text.now }
{
    let (prefix, rest) = text.split_at(before_slash(text));
    match rest {
        [] => is_keyword_name(prefix),
        [_, name @ ..] => are_empty(prefix, name) || are_keyword_names(prefix, name),
    }
}

/// Returns whether these are the bytes of a tag after its `#`: a symbol that begins with a letter.
pub(crate) fn is_tag(text: &[u8]) -> bool
    ensures { result ≡ is_tag text.now }
{
    begins_tag(text) && is_symbol(text)
}
