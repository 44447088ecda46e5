//! The final values of a history.

ghost use Rattle.std.specs.Prelude.{◌≡◌, ◌<◌, ◌≤◌, ◌++◌, ◌∷◌, ◌^◌, [], true, Some, length, map, option_map, slice_get, OnOk, OnErr};
ghost use Rattle.std.specs.List.{list_all};
ghost use Rattle.adya_keys.specs.Meaning.Keys.{is_value, keys_rise};
ghost use Rattle.adya_keys.specs.Machinery.Lines.{lines_of};

use crate::{FinalPair, Key, Value};
use adya_keys::Lines;
use std::alloc::{AllocError, Global};

/// Final values, packed: lines of a key and its value's bytes.
#[derive(Drop)]
pub struct Finals {
    pub(crate) lines: Lines<u8>,
    ghost values: { list_all (λ l. is_value l.1) (lines_of lines) ≡ true },
}

impl Finals {
    ghost use Rattle.adya_values.specs.Mirror.Events.{final_of};
    ghost use Rattle.adya_values.specs.Mirror.Lines.{finals_of};
    ghost use Rattle.adya_keys.specs.Mirror.{IsBelow};

    /// Makes a list of no final values. It takes no memory.
    pub fn new(alloc: Global) -> Finals
        ensures { finals_of result ≡ [] }
    {
        Finals {
            lines: Lines::new(alloc),
        }
    }

    /// Adds a final value at the end. If memory is refused, the list has the same final values as before.
    pub fn push(&mut self, pair: &FinalPair) -> Result<(), AllocError>
        ensures ok { OnOk result (finals_of self.new ≡ finals_of self.old ++ final_of pair.now ∷ []) }
        ensures err { OnErr result (finals_of self.new ≡ finals_of self.old) }
    {
        self.lines.push(pair.key, pair.value.bytes())
    }

    /// Returns how many final values there are.
    #[inline(always)]
    pub fn len(&self) -> usize
        ensures length { result ≡ length (finals_of self.now) }
        ensures near { result < 2 ^ 60 }
    {
        self.lines.len()
    }

    /// Returns the key of the final value at the index, counted from 0, which is below the length.
    #[inline(always)]
    pub fn key(&self, i: usize) -> Key
        requires { i < length (finals_of self.now) }
        ensures { option_map (λ f. f.key) (slice_get (finals_of self.now) i) ≡ Some result }
    {
        self.lines.key(i)
    }

    /// Returns the final value at the index, counted from 0, which is below the length.
    #[inline(always)]
    pub fn at(&self, i: usize) -> FinalPair
        requires { i < length (finals_of self.now) }
        ensures { slice_get (finals_of self.now) i ≡ Some (final_of result) }
    {
        FinalPair {
            key: self.lines.key(i),
            value: Value::from_valid(self.lines.items(i)),
        }
    }

    /// Returns how many final values are of keys below this one, if the keys of the final values rise.
    pub fn below(&self, key: Key) -> usize
        ensures within { result ≤ length (finals_of self.now) }
        ensures below { keys_rise (map (λ f. f.key) (finals_of self.now)) ≡ true → IsBelow (map (λ f. f.key) (finals_of self.now)) key result }
    {
        self.lines.below(key)
    }

    /// Returns whether the keys strictly rise.
    pub(crate) fn keys_rise(&self) -> bool
        ensures { result ≡ keys_rise (map (λ f. f.key) (finals_of self.now)) }
    {
        self.lines.keys_rise()
    }
}
