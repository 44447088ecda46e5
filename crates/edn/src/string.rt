//! Strings.

ghost use Rattle.std.specs.Prelude.{◌≡◌, ◌≤◌, ◌<◌, ◌++◌, [], ◌∷◌, length, take, encode_utf8, IfOk, OnOk};
ghost use Rattle.std.specs.List.{prefix_len};
ghost use Rattle.std.specs.Char.Utf16.{is_high_surrogate, is_low_surrogate, lone_unit_char};
ghost use Rattle.edn.specs.Meaning.Strings as Spec;
ghost use Rattle.edn.specs.Computing.Strings.{escaped_at, escaped_of, quoted_at, quoted_of, IsNoLonger, IsShorter};

use crate::number::{is_digit, value_of};
use std::alloc::AllocError;

/// What was read of a string after its opening quote.
#[derive(Clone, Copy)]
pub(crate) enum Quoted<'a> {
    /// What follows the closing quote.
    Closed(&'a [u8]),
    /// The text ends before the closing quote.
    Open,
    /// A backslash stands before a byte that makes no escape.
    Bad,
}

/// What was read of an escape.
#[derive(Clone, Copy)]
enum Escaped<'a> {
    /// The character that it stands for, and what follows it.
    For(char, &'a [u8]),
    /// The text ends before it does.
    Open,
    /// There is none such.
    Bad,
}

/// Reads the string at the front of the text, which begins after the opening quote. Adds its bytes to `bytes`, with
/// escapes resolved.
pub(crate) fn string<'a>(text: &'a [u8], bytes: &mut Vec<u8>) -> Result<Quoted<'a>, AllocError>
    requires { bytes.old.items ≡ [] }
    ensures exact { IfOk result (λ q. quoted_of q bytes.new.items ≡ quoted_at 0 text.now) }
    ensures within { IfOk result (IsShorter text.now) }
{
    let mut rest = text;
    while let [byte, after @ ..] = rest {
        match *byte {
            b'"' => return Ok(Quoted::Closed(after)),
            b'\\' => match escape(after) {
                Escaped::For(character, after) => {
                    push(bytes, character)?;
                    rest = after;
                }
                Escaped::Open => return Ok(Quoted::Open),
                Escaped::Bad => return Ok(Quoted::Bad),
            },
            _ => {
                bytes.push(*byte)?;
                rest = after;
            }
        }
    }
    Ok(Quoted::Open)
}

/// Reads the escape at the front of the text, which begins after its backslash.
fn escape(text: &[u8]) -> Escaped<'_>
    ensures exact { escaped_at text.now (quoted_at (Spec.escape_len text.now) text.now) ≡ escaped_of result }
    ensures within { IsNoLonger text.now result }
{
    let (escape, rest) = text.split_at(escape_len(text));
    if rest.is_empty() {
        return Escaped::Open;
    }
    match character_of(escape) {
        Some(character) => Escaped::For(character, rest),
        None => Escaped::Bad,
    }
}

/// Adds the character in UTF-8.
fn push(bytes: &mut Vec<u8>, character: char) -> Result<(), AllocError>
    ensures { OnOk result (bytes.new.items ≡ bytes.old.items ++ encode_utf8 character) }
{
    let mut room = [0; 4];
    bytes.extend_from_slice(character.encode_utf8(&mut room).as_bytes())
}

/// Returns how many bytes after a backslash belong to its escape.
fn escape_len(text: &[u8]) -> usize
    ensures value { result ≡ Spec.escape_len text.now }
    ensures within { result ≤ length text.now }
{
    match text {
        [] => 0,
        [first, others @ ..] => {
            if *first == b'u' {
                return 1 + units_len(others);
            }
            if is_octal(*first) {
                return 1 + octal_len(others);
            }
            1
        }
    }
}

/// Returns how many bytes belong to a unit of UTF-16 after its `u`, with a second unit if it is the first of two.
fn units_len(text: &[u8]) -> usize
    ensures value { result ≡ Spec.units_len text.now }
    ensures within { result ≤ length text.now }
{
    match text {
        [a, b, c, d, others @ ..] => {
            if begins_pair(*a, *b, *c, *d) {
                return 4 + second_len(others);
            }
            hex_len(text)
        }
        _ => hex_len(text),
    }
}

/// Returns whether these are four digits that write the first of two units.
fn begins_pair(a: u8, b: u8, c: u8, d: u8) -> bool
    ensures { result ≡ Spec.begins_pair a b c d }
{
    a.is_ascii_hexdigit()
        && b.is_ascii_hexdigit()
        && c.is_ascii_hexdigit()
        && d.is_ascii_hexdigit()
        && is_high(unit(a, b, c, d))
}

/// Returns how many bytes belong to a second unit.
fn second_len(text: &[u8]) -> usize
    ensures value { result ≡ Spec.second_len text.now }
    ensures within { result ≤ length text.now }
{
    match text {
        [b'\\', others @ ..] => 1 + unit_len(others),
        _ => 0,
    }
}

fn unit_len(text: &[u8]) -> usize
    ensures value { result ≡ Spec.unit_len text.now }
    ensures within { result ≤ length text.now }
{
    match text {
        [b'u', others @ ..] => 1 + hex_len(others),
        _ => 0,
    }
}

/// Returns how many of the first four bytes are hexadecimal digits, up to one that is none.
fn hex_len(text: &[u8]) -> usize
    ensures value { result ≡ Spec.hex_len text.now }
    ensures within { result ≤ length text.now }
{
    text.iter()
        .take(4)
        .take_while(|byte| byte.is_ascii_hexdigit())
        .count()
}

/// Returns how many of the first two bytes are octal digits, up to one that is none.
fn octal_len(text: &[u8]) -> usize
    ensures value { result ≡ prefix_len Spec.is_octal (take 2 text.now) }
    ensures within { result ≤ length text.now }
{
    text.iter()
        .take(2)
        .take_while(|byte| is_octal(**byte))
        .count()
}

pub(crate) fn is_octal(byte: u8) -> bool
    ensures { result ≡ Spec.is_octal byte }
{
    is_digit(8, byte)
}

/// Returns the character that an escape of these bytes stands for: `\t`, `\r`, `\n`, `\\`, `\"`, and, which Clojure also
/// reads, `\b` and `\f`, `\u` with four hexadecimal digits, or two of them for the two units of a character beyond them, and
/// an octal number up to 377.
fn character_of(escape: &[u8]) -> Option<char>
    ensures { result ≡ Spec.character_of escape.now }
{
    match escape {
        [] => None,
        [first, others @ ..] => {
            if *first == b'u' {
                return units_char(others);
            }
            if is_octal(*first) {
                return octal_char(escape);
            }
            letter_char(*first, others)
        }
    }
}

fn letter_char(first: u8, others: &[u8]) -> Option<char>
    ensures { result ≡ Spec.letter_char first others.now }
{
    match others {
        [] => unescaped(first),
        _ => None,
    }
}

/// Returns the character of a unit of UTF-16 with these digits, or of two.
fn units_char(digits: &[u8]) -> Option<char>
    ensures { result ≡ Spec.units_char digits.now }
{
    match digits {
        [a, b, c, d, rest @ ..] => unit_char(unit(*a, *b, *c, *d), rest),
        _ => None,
    }
}

/// Returns the character of a unit and what follows its digits.
fn unit_char(first: u32, rest: &[u8]) -> Option<char>
    requires { first < 1114112 }
    ensures { result ≡ Spec.unit_char first rest.now }
{
    match rest {
        [] => lone_char(first),
        [_, _, a, b, c, d] => pair_char(first, unit(*a, *b, *c, *d)),
        _ => None,
    }
}

/// Returns the character of a unit, if it is none of two.
fn lone_char(unit: u32) -> Option<char>
    requires { unit < 1114112 }
    ensures { result ≡ lone_unit_char unit }
{
    char::from_u32(unit)
}

/// Returns the character of two units, if they are the first and the second of one.
fn pair_char(first: u32, second: u32) -> Option<char>
    ensures { result ≡ Spec.pair_char first second }
{
    if !is_high(first) || !is_low(second) {
        return None;
    }
    char::from_u32(0x1_0000 + (first - 0xd800) * 0x400 + (second - 0xdc00))
}

fn is_high(unit: u32) -> bool
    ensures { result ≡ is_high_surrogate unit }
{
    0xd800 <= unit && unit < 0xdc00
}

fn is_low(unit: u32) -> bool
    ensures { result ≡ is_low_surrogate unit }
{
    0xdc00 <= unit && unit < 0xe000
}

/// Returns the unit that four hexadecimal digits write.
fn unit(a: u8, b: u8, c: u8, d: u8) -> u32
    ensures code { result ≡ Spec.unit a b c d }
    ensures within { result < 1114112 }
{
    let front = (u32::from(value_of(a)) * 16 + u32::from(value_of(b))) * 16;
    (front + u32::from(value_of(c))) * 16 + u32::from(value_of(d))
}

/// Returns the character of an octal number up to 377.
pub(crate) fn octal_char(digits: &[u8]) -> Option<char>
    ensures { result ≡ Spec.octal_char digits.now }
{
    let code = match digits {
        [] => 0,
        [a] => u32::from(value_of(*a)),
        [a, b] => u32::from(value_of(*a)) * 8 + u32::from(value_of(*b)),
        [a, b, c] => {
            (u32::from(value_of(*a)) * 8 + u32::from(value_of(*b))) * 8 + u32::from(value_of(*c))
        }
        _ => return None,
    };
    if code > 0xff {
        return None;
    }
    char::from_u32(code)
}

/// Returns what a letter or a sign stands for after a backslash.
#[tactic(auto, unfolding(crate::specs::Meaning::Strings::unescaped))]
fn unescaped(byte: u8) -> Option<char>
    ensures { result ≡ Spec.unescaped byte }
{
    match byte {
        b't' => Some('\t'),
        b'r' => Some('\r'),
        b'n' => Some('\n'),
        b'\\' => Some('\\'),
        b'"' => Some('"'),
        b'b' => Some('\u{8}'),
        b'f' => Some('\u{c}'),
        _ => None,
    }
}
