//! Numbers.

ghost use Rattle.std.specs.Prelude.{◌≡◌, ◌≤◌, ◌<◌, ◌^◌, length, take, drop, true, Some, IfOk, IfSome, IfNone, option_map};
ghost use Rattle.std.specs.List.{prefix_len, list_all};
ghost use Rattle.std.specs.Char.{digit_value, is_ascii_digit, is_digit};
ghost use Rattle.edn.specs.Meaning.Forms.{atom_of};
ghost use Rattle.edn.specs.Meaning.Numbers as Spec;

use crate::atom::Atom;
use crate::bytes::{digits_len, hexdigits_len};
use crate::character::is_text;
use std::alloc::{AllocError, Global};

/// The largest number of 63 bits.
const MOST: u64 = 9_223_372_036_854_775_807;

/// Whether a number is below 0.
#[derive(Clone, Copy)]
enum Sign {
    Plus,
    Minus,
}

fn is_sign(byte: u8) -> bool
    ensures { result ≡ Spec.is_sign byte }
{
    byte == b'+' || byte == b'-'
}

/// Returns whether the text begins as a number does: with a digit, or with a digit after a sign.
pub(crate) fn begins_number(text: &[u8]) -> bool
    ensures { result ≡ Spec.begins_number text.now }
{
    match text {
        [] => false,
        [first] => first.is_ascii_digit(),
        [first, second, ..] => {
            first.is_ascii_digit() || (is_sign(*first) && second.is_ascii_digit())
        }
    }
}

/// Reads a number that is all of the text. An integer of 64 bits is one, in whichever radix it is written; every other
/// number is kept as it is written. Returns `None` if the text is that of no number.
#[tactic(auto, unfolding(crate::specs::Meaning::Numbers::number_of))]
pub(crate) fn number(alloc: Global, text: &[u8]) -> Result<Option<Atom>, AllocError>
    ensures { IfOk result (λ o. option_map atom_of o ≡ Spec.number_of text.now) }
{
    let digits = after_sign(text);
    let (whole, rest) = digits.split_at(digits_len(digits));
    number_parts(alloc, text, whole, rest)
}

/// Reads the number with these digits after its sign, and what follows them.
fn number_parts(
    alloc: Global,
    text: &[u8],
    whole: &[u8],
    rest: &[u8],
) -> Result<Option<Atom>, AllocError>
    ensures { IfOk result (λ o. option_map atom_of o ≡ Spec.number_parts text.now whole.now rest.now) }
{
    if is_integer_end(rest) {
        return integer_form(alloc, text, radix_of(whole), whole);
    }
    other_form(alloc, text, whole, rest)
}

/// Reads the number with these digits, and with more behind them than `N`: a hexadecimal integer, one that names its
/// radix, or a number that isn't written as an integer.
fn other_form(
    alloc: Global,
    text: &[u8],
    whole: &[u8],
    rest: &[u8],
) -> Result<Option<Atom>, AllocError>
    ensures { IfOk result (λ o. option_map atom_of o ≡ Spec.other_form text.now whole.now rest.now) }
{
    if whole.is_empty() {
        return Ok(None);
    }
    let [mark, others @ ..] = rest else {
        return Ok(None);
    };
    if is_hex_mark(whole, *mark) {
        return hex_form(alloc, text, others);
    }
    if is_radix_mark(whole, *mark) {
        return integer_form(alloc, text, radix_named(whole), others);
    }
    if !is_number_end(rest) {
        return Ok(None);
    }
    Ok(Some(Atom::Number(text.to_vec(alloc)?)))
}

/// Reads the hexadecimal integer of the text, of which this follows `0x`.
fn hex_form(alloc: Global, text: &[u8], others: &[u8]) -> Result<Option<Atom>, AllocError>
    ensures { IfOk result (λ o. option_map atom_of o ≡ Spec.hex_form text.now others.now) }
{
    let (digits, rest) = others.split_at(hexdigits_len(others));
    if !is_integer_end(rest) {
        return Ok(None);
    }
    integer_form(alloc, text, 16, digits)
}

/// Reads the integer of the text with these digits, if they are some of this radix.
fn integer_form(
    alloc: Global,
    text: &[u8],
    radix: u64,
    digits: &[u8],
) -> Result<Option<Atom>, AllocError>
    ensures { IfOk result (λ o. option_map atom_of o ≡ Spec.integer_form text.now radix digits.now) }
{
    if !are_digits(radix, digits) {
        return Ok(None);
    }
    match integer(radix, sign_of(text), digits) {
        Some(value) => Ok(Some(Atom::Integer(value))),
        None => Ok(Some(Atom::Number(text.to_vec(alloc)?))),
    }
}

/// Returns the radix of an integer whose text begins with these digits: a `0` before others makes them octal.
fn radix_of(digits: &[u8]) -> u64
    ensures { result ≡ Spec.radix_of digits.now }
{
    match digits {
        [b'0', _, ..] => 8,
        _ => 10,
    }
}

/// Returns the radix that these digits name before `r`, or 0 if they name none.
fn radix_named(digits: &[u8]) -> u64
    ensures { result ≡ Spec.radix_named digits.now }
{
    match digits {
        [one] => u64::from(one.saturating_sub(b'0')),
        [first, second] if *first != b'0' => {
            u64::from(first.saturating_sub(b'0')) * 10 + u64::from(second.saturating_sub(b'0'))
        }
        _ => 0,
    }
}

fn is_radix_mark(whole: &[u8], mark: u8) -> bool
    ensures { result ≡ Spec.is_radix_mark whole.now mark }
{
    let radix = radix_named(whole);
    (mark == b'r' || mark == b'R') && (2 <= radix && radix <= 36)
}

fn is_hex_mark(whole: &[u8], mark: u8) -> bool
    ensures { result ≡ Spec.is_hex_mark whole.now mark }
{
    (mark == b'x' || mark == b'X') && is_zero(whole)
}

fn is_zero(digits: &[u8]) -> bool
    ensures { result ≡ Spec.is_zero digits.now }
{
    match digits {
        [digit] => *digit == b'0',
        _ => false,
    }
}

/// Returns whether there is a digit, and each is one of this radix.
fn are_digits(radix: u64, digits: &[u8]) -> bool
    ensures { result ≡ Spec.are_digits radix digits.now }
{
    !digits.is_empty() && all_digits(radix, digits)
}

fn all_digits(radix: u64, digits: &[u8]) -> bool
    ensures { result ≡ list_all (λ b. is_digit b radix) digits.now }
{
    digits.iter().all(|digit| is_digit(radix, *digit))
}

pub(crate) fn is_digit(radix: u64, digit: u8) -> bool
    ensures { result ≡ is_digit digit radix }
{
    u64::from(value_of(digit)) < radix
}

/// Returns the value of a digit: that of a letter, of either case, from 10 on; 36 if it is none.
#[inline(always)]
pub(crate) fn value_of(digit: u8) -> u8
    ensures value { result ≡ digit_value digit }
    ensures within { result ≤ 36 }
{
    match digit {
        b'0'..=b'9' => digit - b'0',
        b'A'..=b'Z' => digit - b'A' + 10,
        b'a'..=b'z' => digit - b'a' + 10,
        _ => 36,
    }
}

/// Returns whether this stands after the `##` of an infinity, or of what is no number.
pub(crate) fn is_symbolic(name: &[u8]) -> bool
    ensures { result ≡ Spec.is_symbolic name.now }
{
    is_text(name, b"Inf") || is_text(name, b"-Inf") || is_text(name, b"NaN")
}

fn sign_of(text: &[u8]) -> Sign
    ensures { result ≡ Spec.sign_of text.now }
{
    match text {
        [b'-', ..] => Sign::Minus,
        _ => Sign::Plus,
    }
}

/// Returns what follows the sign at the front, if there is one.
fn after_sign(text: &[u8]) -> &[u8]
    ensures { result.now ≡ Spec.after_sign text.now }
{
    match text {
        [first, rest @ ..] if is_sign(*first) => rest,
        _ => text,
    }
}

/// Returns whether this may follow the digits of an integer: nothing, or `N`.
fn is_integer_end(rest: &[u8]) -> bool
    ensures { result ≡ Spec.is_integer_end rest.now }
{
    match rest {
        [] => true,
        [mark] => *mark == b'N',
        _ => false,
    }
}

/// Returns whether this may follow the exponent of a number: nothing, or `M`.
fn is_decimal_end(rest: &[u8]) -> bool
    ensures { result ≡ Spec.is_decimal_end rest.now }
{
    match rest {
        [] => true,
        [mark] => *mark == b'M',
        _ => false,
    }
}

/// Returns whether this may follow the digits of a number that isn't written as an integer.
fn is_number_end(rest: &[u8]) -> bool
    ensures { result ≡ Spec.is_number_end rest.now }
{
    is_denominator(rest) || is_decimal_end(after_exponent(after_fraction(rest)))
}

/// Returns whether this is `/` and the digits of a denominator.
fn is_denominator(rest: &[u8]) -> bool
    ensures { result ≡ Spec.is_denominator rest.now }
{
    match rest {
        [] => false,
        [mark, digits @ ..] => *mark == b'/' && are_digits(10, digits),
    }
}

/// Returns what follows the digits at the front.
fn after_digits(text: &[u8]) -> &[u8]
    ensures { result.now ≡ Spec.after_digits text.now }
{
    &text[digits_len(text)..]
}

/// Returns what follows the fraction at the front, if there is one.
fn after_fraction(text: &[u8]) -> &[u8]
    ensures { result.now ≡ Spec.after_fraction text.now }
{
    match text {
        [b'.', rest @ ..] => after_digits(rest),
        _ => text,
    }
}

fn is_exponent_mark(byte: u8) -> bool
    ensures { result ≡ Spec.is_exponent_mark byte }
{
    byte == b'e' || byte == b'E'
}

/// Returns what follows the exponent at the front, if there is one.
fn after_exponent(text: &[u8]) -> &[u8]
    ensures { result.now ≡ Spec.after_exponent text.now }
{
    match text {
        [first, rest @ ..] if is_exponent_mark(*first) => after_exponent_digits(
            text,
            after_sign(rest),
        ),
        _ => text,
    }
}

/// Returns what follows the digits, or the text if there is none.
fn after_exponent_digits<'a>(text: &'a [u8], digits: &'a [u8]) -> &'a [u8]
    ensures { result.now ≡ Spec.after_exponent_digits text.now digits.now }
{
    let len = digits_len(digits);
    if len == 0 { text } else { &digits[len..] }
}

/// Returns the integer with this sign and these digits, if it has 64 bits.
fn integer(radix: u64, sign: Sign, digits: &[u8]) -> Option<i64>
    ensures { result ≡ Spec.integer_of radix sign digits.now }
{
    with_sign(sign, magnitude(radix, digits)?)
}

fn with_sign(sign: Sign, magnitude: u64) -> Option<i64>
    ensures { result ≡ Spec.with_sign sign magnitude }
{
    match sign {
        Sign::Plus => positive(magnitude),
        Sign::Minus => negative(magnitude),
    }
}

/// Returns the number of this size, if it has 64 bits.
pub(crate) fn positive(magnitude: u64) -> Option<i64>
    ensures { result ≡ Spec.positive magnitude }
{
    if magnitude > MOST {
        return None;
    }
    Some(magnitude as i64)
}

/// Returns the number of this size below 0, if it has 64 bits.
fn negative(magnitude: u64) -> Option<i64>
    ensures { result ≡ Spec.negative magnitude }
{
    if magnitude == 0 {
        return Some(0);
    }
    if magnitude - 1 > MOST {
        return None;
    }
    Some(-1 - (magnitude - 1) as i64)
}

/// Returns the number of these digits in this radix, if it has 64 bits.
pub(crate) fn magnitude(radix: u64, digits: &[u8]) -> Option<u64>
    ensures { result ≡ Spec.magnitude radix digits.now }
{
    let mut value = 0u64;
    for digit in digits {
        value = next_value(radix, value, *digit)?;
    }
    Some(value)
}

/// Returns the number of the digits at the front, if it has 64 bits, and what follows them.
pub(crate) fn leading_digits(text: &[u8]) -> Option<(u64, &[u8])>
    ensures value { IfSome result (λ p. Spec.magnitude 10 (take (prefix_len is_ascii_digit text.now) text.now) ≡ Some p.0) }
    ensures rest { IfSome result (λ p. p.1.now ≡ Spec.after_digits text.now) }
    ensures within { IfSome result (λ p. length p.1.now ≤ length text.now) }
{
    let mut value = 0u64;
    let mut rest = text;
    while let [digit, others @ ..] = rest {
        if !digit.is_ascii_digit() {
            break;
        }
        value = next_value(10, value, *digit)?;
        rest = others;
    }
    Some((value, rest))
}

/// Returns the number with one digit more, if it has 64 bits.
#[tactic(auto, unfolding(crate::specs::Meaning::Numbers::next_value))]
#[inline(always)]
fn next_value(radix: u64, value: u64, digit: u8) -> Option<u64>
    ensures { result ≡ Spec.next_value radix value digit }
{
    let front = value.checked_mul(radix)?;
    front.checked_add(u64::from(value_of(digit)))
}
