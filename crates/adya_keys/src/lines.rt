//! Lines of a key and items each, packed.

ghost use Rattle.std.specs.Prelude.{◌≡◌, ◌<◌, ◌≤◌, ◌++◌, ◌∷◌, ◌^◌, ℕ, [], true, false, Some, length, map, option_map, slice_get, IfOk, OnOk, OnErr};
ghost use Rattle.std.specs.List.{list_all};
ghost use Rattle.adya_keys.specs.Meaning.Keys.{is_key, keys_rise};
ghost use Rattle.adya_keys.specs.Machinery.Parts.{parts_of};

use crate::Key;
use crate::key::is_below;
use crate::parts::Parts;
use std::alloc::{AllocError, Global};

/// Lines of a key and items each: the bytes of all keys in one list, and all items in another.
#[derive(Drop)]
pub struct Lines<T> {
    keys: Parts<u8>,
    items: Parts<T>,
    pub ghost valid: { list_all is_key (parts_of keys) ≡ true },
    pub ghost paired: { length (parts_of items) ≡ length (parts_of keys) },
}

impl<T: Copy> Lines<T> {
    ghost use Rattle.adya_keys.specs.Machinery.Lines.{lines_of};
    ghost use Rattle.adya_keys.specs.Mirror.{IsBelow};

    /// Makes those of no lines. It takes no memory.
    pub fn new(alloc: Global) -> Lines<T>
        ensures { lines_of result ≡ [] }
    {
        Lines {
            keys: Parts::new(alloc),
            items: Parts::new(alloc),
        }
    }

    /// Adds a line at the end. If memory is refused, the lines stay as they were.
    pub fn push(&mut self, key: Key, items: &[T]) -> Result<(), AllocError>
        ensures ok { OnOk result (lines_of self.new ≡ lines_of self.old ++ (key, items.now) ∷ []) }
        ensures err { OnErr result (lines_of self.new ≡ lines_of self.old) }
    {
        self.items.reserve(1, items.len())?;
        self.keys.push(key.bytes())?;
        self.items.push(items)
    }

    /// Returns how many lines there are.
    #[inline(always)]
    pub fn len(&self) -> usize
        ensures length { result ≡ length (lines_of self.now) }
        ensures near { result < 2 ^ 60 }
    {
        self.keys.len()
    }

    /// Returns the bytes of the key of the line at the index, counted from 0.
    #[inline(always)]
    fn text(&self, i: usize) -> &[u8]
        requires { i < length (lines_of self.now) }
        ensures same { option_map (λ l. l.0) (slice_get (lines_of self.now) i) ≡ Some result.now }
        ensures limits { is_key result.now ≡ true }
    {
        self.keys.at(i)
    }

    /// Returns the key of the line at the index, counted from 0.
    #[inline(always)]
    pub fn key(&self, i: usize) -> Key
        requires { i < length (lines_of self.now) }
        ensures { option_map (λ l. l.0) (slice_get (lines_of self.now) i) ≡ Some result }
    {
        Key::from_valid(self.text(i))
    }

    /// Returns the items of the line at the index, counted from 0.
    #[inline(always)]
    pub fn items(&self, i: usize) -> &[T]
        requires { i < length (lines_of self.now) }
        ensures { option_map (λ l. l.1) (slice_get (lines_of self.now) i) ≡ Some result.now }
    {
        self.items.at(i)
    }

    /// Returns how many lines have keys below this one, if the keys rise.
    pub fn below(&self, key: Key) -> usize
        ensures within { result ≤ length (lines_of self.now) }
        ensures below { keys_rise (map (λ l. l.0) (lines_of self.now)) ≡ true → IsBelow (map (λ l. l.0) (lines_of self.now)) key result }
    {
        let mut low = 0usize;
        let mut high = self.len();
        while low < high {
            let middle = low + (high - low) / 2;
            if is_below(self.text(middle), key.bytes()) {
                low = middle + 1;
            } else {
                high = middle;
            }
        }
        low
    }

    /// Returns whether the keys strictly rise.
    pub fn keys_rise(&self) -> bool
        ensures { result ≡ keys_rise (map (λ l. l.0) (lines_of self.now)) }
    {
        for i in 1..self.len() {
            if !is_below(self.text(i - 1), self.text(i)) {
                return false;
            }
        }
        true
    }

    /// Returns where the lines take their memory.
    pub fn allocator(&self) -> Global {
        self.keys.allocator()
    }
}
