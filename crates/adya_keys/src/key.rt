//! Keys.

ghost use Rattle.std.specs.Prelude.{◌≡◌, ◌+◌, ◌*◌, ◌<◌, ◌≤◌, ◌↔◌, List, ℕ, length, IsOk, IfOk, IsTrue, nat_eq, refl, Some, true};
ghost use Rattle.std.specs.Ordering.{nat_cmp};
ghost use Rattle.std.specs.Cmp.{partial_equiv_from_equiv};
ghost use Rattle.std.specs.Cmp.Lexicographic.{pointwise, slice_cmp, nat_list_eq_equiv, nat_list_cmp_total, texts_po, texts_ties};
ghost use Rattle.std.specs.Cmp.Rules.{hashing};
ghost use Rattle.std.specs.Hash as fed;
ghost use Rattle.std.proofs.Common.{rules};
ghost use Rattle.std.specs.List.{list_all};
ghost use Rattle.adya_keys.specs.Meaning.Keys.{is_key, is_key_byte, key_lt};
ghost use Rattle.adya_keys.specs.Machinery.Words.{first_word};

use crate::padded::padded;
use std::cmp::Ordering;
use std::fmt;
use std::hash::{Hash, Hasher};
use std::marker::Model;
use thiserror::Error;

/// The most bytes of a key.
pub const MAX_KEY_LEN: usize = 32;

/// The bytes don't form a key: there are none, more than [`MAX_KEY_LEN`], or one outside `a-z 0-9 _`.
#[derive(Clone, Copy, Debug, PartialEq, Eq, Error, Drop)]
#[error("1 bad key")]
pub struct BadKey;

/// The name of an object: 1 to 32 bytes of `a-z`, `0-9` and `_`, ordered by bytes, a prefix first.
#[derive(Clone, Copy)]
pub struct Key {
    bytes: [u8; 32],
    len: u8,
}

impl Model for Key {
    ghost use Rattle.std.specs.Prelude.{◌≡◌, ◌++◌, ◌-◌, ℕ, List, length, take, replicate};
    ghost use Rattle.adya_keys.specs.Machinery.Padded.{IsText, padded, padded_back};
    ghost use Rattle.adya_keys.specs.Meaning.Keys.{is_key};

    ghost Value = { List ℕ };

    ghost view = { λ k. take k.len k.bytes };

    ghost invariant = { λ k. IsText 32 is_key k.bytes k.len };

    ghost inverse = { λ xs. record { bytes = padded 32 xs; len = length xs } };

    ghost inverse_ok = { λ k h i. record {
      bytes = (padded_back 32 k.bytes k.len h.full h.room h.rest).0 i;
      len = (padded_back 32 k.bytes k.len h.full h.room h.rest).1 i;
    } };
}

impl Key {
    /// Makes a key of these bytes; `BadKey` if and only if they don't form one.
    pub fn new(text: &[u8]) -> Result<Key, BadKey>
        ensures limits { IsOk result ↔ (is_key text.now ≡ true) }
        ensures same { IfOk result (λ k. k ≡ text.now) }
    {
        if !is_key(text) {
            return Err(BadKey);
        }
        Ok(Key::from_valid(text))
    }

    /// Makes a key of these bytes, which form one, without a second look at them.
    #[inline(always)]
    pub fn from_valid(text: &[u8]) -> Key
        requires { is_key text.now ≡ true }
        ensures { result ≡ text.now }
    {
        Key {
            bytes: padded(text),
            len: text.len() as u8,
        }
    }

    /// Returns the bytes of the key.
    pub fn bytes(&self) -> &[u8]
        ensures same { result.now ≡ self.now }
        ensures limits { is_key self.now ≡ true }
    {
        &self.bytes[..self.len as usize]
    }
}

/// Returns whether a key may contain this byte.
#[tactic(auto, unfolding(crate::specs::Meaning::Keys::is_key_byte))]
pub fn is_key_byte(b: u8) -> bool
    ensures { result ≡ is_key_byte b }
{
    matches!(b, b'a'..=b'z' | b'0'..=b'9' | b'_')
}

fn is_key(text: &[u8]) -> bool
    ensures { result ≡ is_key text.now }
{
    !text.is_empty() && text.len() <= MAX_KEY_LEN && all_key_bytes(text)
}

fn all_key_bytes(text: &[u8]) -> bool
    ensures { result ≡ list_all is_key_byte text.now }
{
    text.iter().all(|b| is_key_byte(*b))
}

/// Returns whether the bytes of the one key come before those of the other.
#[inline(always)]
pub(crate) fn is_below(low: &[u8], high: &[u8]) -> bool
    ensures { result ≡ key_lt low.now high.now }
{
    low.cmp(high).is_lt()
}

impl fmt::Display for Key {
    fn fmt<W: fmt::Write>(&self, f: &mut fmt::Formatter<W>) -> fmt::Result {
        for b in self.bytes() {
            f.write_char(char::from(*b))?;
        }
        Ok(())
    }
}

impl fmt::Debug for Key {
    fn fmt<W: fmt::Write>(&self, f: &mut fmt::Formatter<W>) -> fmt::Result {
        fmt::Display::fmt(self, f)
    }
}

impl PartialEq for Key {
    ghost eq = { pointwise nat_eq };

    ghost laws = { partial_equiv_from_equiv nat_list_eq_equiv };

    fn eq(&self, other: &Self) -> bool {
        self.bytes() == other.bytes()
    }
}

impl Eq for Key {
    ghost laws = { nat_list_eq_equiv };
}

impl PartialOrd for Key {
    ghost partial_cmp = { λ s t. Some (slice_cmp nat_cmp s t) };

    ghost laws = { texts_po };

    fn partial_cmp(&self, other: &Self) -> Option<Ordering> {
        Some(self.cmp(other))
    }
}

impl Ord for Key {
    ghost cmp = { slice_cmp nat_cmp };

    ghost total = { nat_list_cmp_total };

    ghost matches_partial_cmp = { λ s t. refl };

    ghost matches_eq = { texts_ties };

    // Most keys that differ do so in their first bytes, and two numbers are compared at once.
    fn cmp(&self, other: &Self) -> Ordering {
        let first = first_word(&self.bytes);
        let others = first_word(&other.bytes);
        if first < others {
            return Ordering::Less;
        }
        if others < first {
            return Ordering::Greater;
        }
        self.bytes().cmp(&other.bytes())
    }
}

/// Returns the number that the first eight bytes form, the first of them its highest.
fn first_word(bytes: &[u8; 32]) -> u64
    ensures { result ≡ first_word bytes.now }
{
    let high = half_word(bytes[0], bytes[1], bytes[2], bytes[3]);
    let low = half_word(bytes[4], bytes[5], bytes[6], bytes[7]);
    high * 4_294_967_296 + low
}

fn half_word(a: u8, b: u8, c: u8, d: u8) -> u64
    ensures value { result ≡ ((a * 256 + b) * 256 + c) * 256 + d }
    ensures limit { result < 4294967296 }
{
    ((u64::from(a) * 256 + u64::from(b)) * 256 + u64::from(c)) * 256 + u64::from(d)
}

impl Hash for Key {
    ghost hash_input = { fed.slice fed.u8 };

    ghost respects_eq = { Prim.search (hashing, rules) };

    fn hash<H: Hasher>(&self, state: &mut H) {
        self.bytes().hash(state);
    }
}
