//! Values.

ghost use Rattle.std.specs.Prelude.{◌≡◌, ◌<◌, ◌≤◌, ◌↔◌, ℕ, List, take, length, IsOk, IfOk, true, nat_eq};
ghost use Rattle.std.specs.List.{list_all};
ghost use Rattle.std.specs.Cmp.Lexicographic.{pointwise};
ghost use Rattle.adya_keys.specs.Meaning.Keys.{is_value, is_value_byte};

use crate::padded::padded;
use thiserror::Error;

/// The most bytes of a value.
pub const MAX_VALUE_LEN: usize = 64;

/// The bytes don't form a value: there are none, more than [`MAX_VALUE_LEN`], or one outside `A-Z a-z 0-9 _ . + -`.
#[derive(Clone, Copy, Debug, PartialEq, Eq, Error, Drop)]
#[error("2 bad value")]
pub struct BadValue;

/// What a key holds: 1 to 64 bytes of `A-Z`, `a-z`, `0-9`, `_`, `.`, `+` and `-`.
#[derive(Clone, Copy)]
pub struct Value {
    bytes: [u8; 64],
    len: u8,
    pub ghost room: { len ≤ 64 },
    pub ghost good: { is_value (take len bytes) ≡ true },
}

impl Value {
    ghost use Rattle.adya_keys.specs.Mirror.{value_of};

    /// Makes a value of these bytes; `BadValue` if and only if they don't form one.
    pub fn new(text: &[u8]) -> Result<Value, BadValue>
        ensures limits { IsOk result ↔ (is_value text.now ≡ true) }
        ensures same { IfOk result (λ v. value_of v ≡ text.now) }
    {
        if !is_value(text) {
            return Err(BadValue);
        }
        Ok(Value::from_valid(text))
    }

    /// Makes a value of these bytes, which form one, without a second look at them.
    #[inline(always)]
    pub fn from_valid(text: &[u8]) -> Value
        requires { is_value text.now ≡ true }
        ensures { value_of result ≡ text.now }
    {
        Value {
            bytes: padded(text),
            len: text.len() as u8,
        }
    }

    /// Returns the bytes of the value.
    pub fn bytes(&self) -> &[u8]
        ensures same { result.now ≡ value_of self.now }
        ensures limits { is_value result.now ≡ true }
    {
        &self.bytes[..self.len as usize]
    }

    /// Returns whether both are the same bytes.
    pub fn same(&self, other: &Value) -> bool
        ensures { result ≡ pointwise nat_eq (value_of self.now) (value_of other.now) }
    {
        self.bytes() == other.bytes()
    }
}

/// Returns whether a value may contain this byte.
#[tactic(auto, unfolding(crate::specs::Meaning::Keys::is_value_byte))]
pub fn is_value_byte(b: u8) -> bool
    ensures { result ≡ is_value_byte b }
{
    matches!(b, b'a'..=b'z' | b'A'..=b'Z' | b'0'..=b'9' | b'_' | b'.' | b'+' | b'-')
}

fn is_value(text: &[u8]) -> bool
    ensures { result ≡ is_value text.now }
{
    !text.is_empty() && text.len() <= MAX_VALUE_LEN && all_value_bytes(text)
}

fn all_value_bytes(text: &[u8]) -> bool
    ensures { result ≡ list_all is_value_byte text.now }
{
    text.iter().all(|b| is_value_byte(*b))
}
