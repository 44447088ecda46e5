//! The parts of a line.

ghost use Rattle.std.specs.Prelude.{◌≡◌, ◌<◌, ◌≤◌, length, true, IfSome};
ghost use Rattle.std.specs.List.{prefix_len};
ghost use Rattle.adya_keys.specs.Meaning.Keys.{is_key, is_value, is_key_byte, is_value_byte, IsTxn, IsMod};
ghost use Rattle.adya_line.specs.Computing.Reading.{Gives, after, text_at, txn_at, mod_at, version_at, key_between};
ghost use Rattle.adya_line.specs.Machinery.Numbers.{digit_at, number_from};
ghost use Rattle.adya_values.specs.Mirror.Refs.{view_version};

use adya_values::{MAX_KEY_LEN, MAX_VALUE_LEN, VersionRef, is_key_byte, is_value_byte};

/// Returns what follows the byte, if it stands at the front.
#[tactic(auto, unfolding(crate::specs::Computing::Reading::after))]
pub(crate) fn after(byte: u8, bytes: &[u8]) -> Option<&[u8]>
    ensures { Gives (λ x. x.now) result (after byte bytes.now) }
{
    match bytes {
        [first, rest @ ..] if *first == byte => Some(rest),
        _ => None,
    }
}

fn key_len(bytes: &[u8]) -> usize
    ensures value { result ≡ prefix_len is_key_byte bytes.now }
    ensures within { result ≤ length bytes.now }
{
    bytes.iter().take_while(|b| is_key_byte(**b)).count()
}

fn value_len(bytes: &[u8]) -> usize
    ensures value { result ≡ prefix_len is_value_byte bytes.now }
    ensures within { result ≤ length bytes.now }
{
    bytes.iter().take_while(|b| is_value_byte(**b)).count()
}

/// Reads the key at the front; returns it and what follows.
#[tactic(auto, unfolding(crate::specs::Computing::Reading::text_at))]
pub(crate) fn key_at(bytes: &[u8]) -> Option<(&[u8], &[u8])>
    ensures exact { Gives (λ x. (x.0.now, x.1.now)) result (text_at 32 is_key_byte bytes.now) }
    ensures good { IfSome result (λ x. is_key x.0.now ≡ true) }
{
    let len = key_len(bytes);
    if len == 0 || len > MAX_KEY_LEN {
        return None;
    }
    Some(bytes.split_at(len))
}

/// Reads the value at the front; returns it and what follows.
#[tactic(auto, unfolding(crate::specs::Computing::Reading::text_at))]
pub(crate) fn value_at(bytes: &[u8]) -> Option<(&[u8], &[u8])>
    ensures exact { Gives (λ x. (x.0.now, x.1.now)) result (text_at 64 is_value_byte bytes.now) }
    ensures good { IfSome result (λ x. is_value x.0.now ≡ true) }
{
    let len = value_len(bytes);
    if len == 0 || len > MAX_VALUE_LEN {
        return None;
    }
    Some(bytes.split_at(len))
}

/// Reads the number at the front, which is not 0 and has no leading zero; returns it and what follows.
#[tactic(auto, unfolding(crate::specs::Computing::Reading::txn_at))]
pub(crate) fn txn_at(bytes: &[u8]) -> Option<(u32, &[u8])>
    ensures exact { Gives (λ x. (x.0, x.1.now)) result (txn_at bytes.now) }
    ensures good { IfSome result (λ x. IsTxn x.0) }
{
    let (first, rest) = digit_at(bytes)?;
    let leads_with_zero = first == 0;
    if leads_with_zero {
        return None;
    }
    number_from(u32::from(first), rest)
}

/// Reads the digit at the front; returns its value and what follows.
#[tactic(auto, unfolding(crate::specs::Machinery::Numbers::digit_at))]
fn digit_at(bytes: &[u8]) -> Option<(u8, &[u8])>
    ensures exact { Gives (λ x. (x.0, x.1.now)) result (digit_at bytes.now) }
    ensures small { IfSome result (λ x. x.0 < 10) }
{
    match bytes {
        [digit, rest @ ..] if digit.is_ascii_digit() => Some((*digit - b'0', rest)),
        _ => None,
    }
}

/// Reads the digits at the front after those of `start`; returns the number of both, if it fits, and what follows.
fn number_from(start: u32, bytes: &[u8]) -> Option<(u32, &[u8])>
    ensures { Gives (λ x. (x.0, x.1.now)) result (number_from start bytes.now) }
{
    let mut number = start;
    let mut rest = bytes;
    'digits: while let Some((digit, left)) = digit_at(rest) {
        let longer = u64::from(number) * 10 + u64::from(digit);
        if longer > 4_294_967_295 {
            return None;
        }
        number = longer as u32;
        rest = left;
    }
    Some((number, rest))
}

/// Reads the number of a modification at the front; returns it and what follows.
#[tactic(auto, unfolding(crate::specs::Computing::Reading::mod_at))]
pub(crate) fn mod_at(bytes: &[u8]) -> Option<(u16, &[u8])>
    ensures exact { Gives (λ x. (x.0, x.1.now)) result (mod_at bytes.now) }
    ensures good { IfSome result (λ x. IsMod x.0) }
{
    let (number, rest) = txn_at(bytes)?;
    Some((u16::try_from(number).ok()?, rest))
}

/// Reads the version at the front; returns it and what follows.
#[tactic(auto, unfolding(crate::specs::Computing::Reading::version_at))]
pub(crate) fn version_at(bytes: &[u8]) -> Option<(VersionRef<'_>, &[u8])>
    ensures { Gives (λ x. (view_version x.0, x.1.now)) result (version_at bytes.now) }
{
    let (key, rest) = key_at(bytes)?;
    let rest = after(b'.', rest)?;
    let (txn, rest) = txn_at(rest)?;
    let rest = after(b':', rest)?;
    let (m, rest) = mod_at(rest)?;
    Some((VersionRef { key, txn, m }, rest))
}

/// Reads the key between the two bytes, the first of which is at the front; returns it and what follows.
#[tactic(auto, unfolding(crate::specs::Computing::Reading::key_between))]
pub(crate) fn key_between(opening: u8, closing: u8, bytes: &[u8]) -> Option<(&[u8], &[u8])>
    ensures exact { Gives (λ x. (x.0.now, x.1.now)) result (key_between opening closing bytes.now) }
    ensures good { IfSome result (λ x. is_key x.0.now ≡ true) }
{
    let rest = after(opening, bytes)?;
    let (key, rest) = key_at(rest)?;
    Some((key, after(closing, rest)?))
}
