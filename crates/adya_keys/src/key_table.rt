//! Keys by numbers, each once.

ghost use Rattle.std.specs.Prelude.{◌≡◌, ◌<◌, ◌≤◌, ◌+◌, ◌++◌, ◌∷◌, ℕ, [], true, suc, Some, length, set, slice_get, slice_index, vec_len, vec_capacity, IfNone, IfOk, IfSome, IsOk, OnErr, OnOk};
ghost use Rattle.std.specs.List.{list_all};
ghost use Rattle.std.proofs.Props.{props};
ghost use Rattle.adya_keys.specs.Meaning.Keys.{is_key, key_eq, key_lt};
ghost use Rattle.adya_keys.specs.Machinery.Within.{key_at, IsFront};
ghost use Rattle.adya_keys.specs.Machinery.Buckets.{AreChained, AreOthers, IsTable};
ghost use Rattle.adya_keys.specs.Machinery.Parts.{parts_of};

use crate::key::is_below;
use crate::key_hash::bucket_of;
use crate::parts::Parts;
use crate::{Key, MAX_KEY_LEN};
use std::alloc::{AllocError, Global};

/// So many keys have numbers.
pub const MOST_KEYS: usize = 4_294_967_295;

/// How many buckets a table begins with.
const FIRST_BUCKETS: usize = 16;

/// Keys, each of which has its index for a number. Their bytes lie one after the other, and a key takes some 16 bytes beside its
/// own: keys in a set by themselves would take 61.
#[derive(Drop)]
pub struct KeyTable {
    texts: Parts<u8>,
    /// For each key the number, counted from 1, of the last one before it that is in the same bucket; 0 if there is none.
    next: Vec<u32>,
    /// For each bucket the number, counted from 1, of its last key; 0 if it has none.
    heads: Vec<u32>,
    pub ghost table: { IsTable (parts_of texts) heads.items next.items } by { Prim.hlevel props },
}

impl KeyTable {
    ghost use Rattle.adya_keys.specs.Machinery.KeyTables.{buckets_in, keys_in, CanTake};
    ghost use Rattle.adya_keys.specs.Mirror.{number_in};

    /// Makes a table of no keys. It takes no memory.
    pub fn new(alloc: Global) -> KeyTable
        ensures { keys_in result ≡ [] }
    {
        KeyTable {
            texts: Parts::new(alloc),
            next: Vec::new(alloc),
            heads: Vec::new(alloc),
        }
    }

    /// Returns a table of the same keys.
    pub fn copy(&self, alloc: Global) -> Result<KeyTable, AllocError>
        ensures { IfOk result (λ t. keys_in t ≡ keys_in self.now) }
    {
        Ok(KeyTable {
            texts: self.texts.copy(alloc)?,
            next: Vec::from_slice(alloc, &self.next)?,
            heads: Vec::from_slice(alloc, &self.heads)?,
        })
    }

    /// Returns how many keys there are.
    #[inline(always)]
    pub fn len(&self) -> usize
        ensures { result ≡ length (keys_in self.now) }
    {
        self.texts.len()
    }

    /// Returns the key with the number.
    #[inline(always)]
    pub fn key(&self, number: u32) -> Key
        requires { number < length (keys_in self.now) }
        ensures { result ≡ key_at (keys_in self.now) number }
    {
        Key::from_valid(self.text(number))
    }

    /// Returns the bytes of the key with the number.
    #[inline(always)]
    pub fn text(&self, number: u32) -> &[u8]
        requires { number < length (keys_in self.now) }
        ensures same { result.now ≡ key_at (keys_in self.now) number }
        ensures limits { is_key result.now ≡ true }
    {
        self.texts.at(number as usize)
    }

    /// Returns whether the one key is below the other, by their numbers.
    #[inline(always)]
    pub fn is_below(&self, low: u32, high: u32) -> bool
        requires low { low < length (keys_in self.now) }
        requires high { high < length (keys_in self.now) }
        ensures { result ≡ key_lt (key_at (keys_in self.now) low) (key_at (keys_in self.now) high) }
    {
        is_below(self.text(low), self.text(high))
    }

    /// Returns whether the key has the number.
    #[inline(always)]
    fn is_at(&self, key: &[u8], number: u32) -> bool
        requires { number < length (keys_in self.now) }
        ensures { result ≡ key_eq key.now (key_at (keys_in self.now) number) }
    {
        key == self.text(number)
    }

    /// Returns the number of the key.
    pub fn number_of(&self, key: &[u8]) -> Option<u32>
        ensures number { result ≡ number_in (keys_in self.now) key.now }
        ensures there { IfSome result (λ n. n < length (keys_in self.now)) }
        ensures same { IfSome result (λ n. slice_get (keys_in self.now) n ≡ Some key.now) }
        ensures none { IfNone result (AreOthers (keys_in self.now) key.now 0) }
    {
        if self.heads.is_empty() {
            return None;
        }
        let mut link = self.heads[bucket_of(key, self.heads.len())];
        while link != 0 {
            let number = link - 1;
            if self.is_at(key, number) {
                return Some(number);
            }
            link = self.next[number as usize];
        }
        None
    }

    /// Returns the number of the key, which it gets if it has none. If memory is refused, or if there are 4,294,967,295 keys, the
    /// keys stay as they were. No memory is taken if [`reserve`](KeyTable::reserve) has made room.
    pub fn number(&mut self, key: &[u8]) -> Result<u32, AllocError>
        requires { is_key key.now ≡ true }
        ensures number { IfOk result (λ n. slice_get (keys_in self.new) n ≡ Some key.now) }
        ensures known { IfSome (number_in (keys_in self.old) key.now) (λ _. keys_in self.new ≡ keys_in self.old) }
        ensures added { IfNone (number_in (keys_in self.old) key.now) (OnOk result (keys_in self.new ≡ keys_in self.old ++ key.now ∷ [])) }
        ensures front { IsFront (keys_in self.old) (keys_in self.new) }
        ensures err { OnErr result (keys_in self.new ≡ keys_in self.old) }
        ensures count { length (keys_in self.new) ≤ length (keys_in self.old) + 1 }
        ensures succeeds { CanTake self.old 1 → IsOk result }
        ensures buckets { CanTake self.old 1 → buckets_in self.new ≡ buckets_in self.old }
        ensures room { (n : ℕ) → CanTake self.old (n + 1) → CanTake self.new n }
    {
        if let Some(number) = self.number_of(key) {
            return Ok(number);
        }
        self.reserve(1)?;
        Ok(self.add(key))
    }

    /// Adds a key that has no number, and for which there is room, and returns its number.
    fn add(&mut self, key: &[u8]) -> u32
        requires limits { is_key key.now ≡ true }
        requires fresh { AreOthers (keys_in self.old) key.now 0 }
        requires room { CanTake self.old 1 }
        ensures number { slice_get (keys_in self.new) result ≡ Some key.now }
        ensures keys { keys_in self.new ≡ keys_in self.old ++ key.now ∷ [] }
        ensures buckets { buckets_in self.new ≡ buckets_in self.old }
        ensures room { (n : ℕ) → CanTake self.old (n + 1) → CanTake self.new n }
    {
        let count = self.len();
        let Ok(()) = self.texts.push(key) else {
            unreachable!()
        };
        self.next.push_reserved(0);
        let bucket = bucket_of(key, self.heads.len());
        chain(&mut self.heads, &mut self.next, bucket, count as u32);
        count as u32
    }

    /// Makes room for so many more keys. The keys stay, also if memory is refused, or if there would be more than 4,294,967,295.
    pub fn reserve(&mut self, keys: usize) -> Result<(), AllocError>
        ensures room { OnOk result (CanTake self.new keys) }
        ensures same { keys_in self.new ≡ keys_in self.old }
        ensures succeeds { CanTake self.old keys → IsOk result }
        ensures buckets { CanTake self.old keys → buckets_in self.new ≡ buckets_in self.old }
        ensures keeps { (n : ℕ) → keys ≤ n → CanTake self.old n → CanTake self.new n }
    {
        if keys > MOST_KEYS - self.len() {
            return Err(AllocError);
        }
        self.widen(self.len() + keys)?;
        self.next.reserve(keys)?;
        self.texts.reserve(keys, keys * MAX_KEY_LEN)
    }

    /// Makes so many buckets if there are fewer. If memory is refused, those that are there stay.
    fn widen(&mut self, count: usize) -> Result<(), AllocError>
        requires { count < 4294967296 }
        ensures enough { OnOk result (count ≤ buckets_in self.new) }
        ensures succeeds { count ≤ buckets_in self.old → IsOk result }
        ensures same { count ≤ buckets_in self.old → buckets_in self.new ≡ buckets_in self.old }
        ensures kept { buckets_in self.old ≤ buckets_in self.new }
        ensures texts { self.new.texts ≡ self.old.texts }
        ensures next { vec_len self.new.next ≡ vec_len self.old.next }
        ensures capacity { vec_capacity self.new.next ≡ vec_capacity self.old.next }
    {
        let buckets = self.heads.len();
        if count <= buckets {
            return Ok(());
        }
        let alloc = *self.next.allocator();
        let heads = heads_of(alloc, &self.texts, &mut self.next, wider(buckets, count))?;
        self.heads = heads;
        Ok(())
    }
}

/// Returns how many buckets a table gets that has so many and needs this many: twice as many as it has, if that is enough.
fn wider(buckets: usize, needed: usize) -> usize
    requires { needed < 4294967296 }
    ensures enough { needed ≤ result }
    ensures some { 0 < result }
    ensures few { result < 4294967296 }
{
    if needed <= FIRST_BUCKETS {
        return FIRST_BUCKETS;
    }
    if buckets > MOST_KEYS / 2 {
        return MOST_KEYS;
    }
    needed.max(buckets * 2)
}

/// Chains the keys anew, by so many buckets, and returns these. If memory is refused, nothing changes.
fn heads_of(
    alloc: Global,
    texts: &Parts<u8>,
    next: &mut Vec<u32>,
    buckets: usize,
) -> Result<Vec<u32>, AllocError>
    requires valid { list_all is_key (parts_of texts.now) ≡ true }
    requires few_keys { length (parts_of texts.now) < 4294967296 }
    requires count { length next.old.items ≡ length (parts_of texts.now) }
    requires some { 0 < buckets }
    requires few { buckets < 4294967296 }
    ensures chained { let ks = parts_of texts.now in IfOk result (λ heads. AreChained ks heads.items next.new.items (length ks)) }
    ensures buckets { IfOk result (λ heads. length heads.items ≡ buckets) }
    ensures count { length next.new.items ≡ length next.old.items }
    ensures len { vec_len next.new ≡ vec_len next.old }
    ensures capacity { vec_capacity next.new ≡ vec_capacity next.old }
    ensures err { OnErr result (next.new ≡ next.old) }
{
    let mut heads = vec![in alloc; 0; buckets]?;
    for number in 0..texts.len() {
        let bucket = bucket_of(texts.at(number), buckets);
        chain(&mut heads, next, bucket, number as u32);
    }
    Ok(heads)
}

/// Puts the key with the number into the bucket.
#[inline(always)]
fn chain(heads: &mut Vec<u32>, next: &mut Vec<u32>, bucket: usize, number: u32)
    requires bucket { bucket < length heads.old.items }
    requires number { number < length next.old.items }
    requires room { number + 1 < 4294967296 }
    ensures heads { heads.new.items ≡ set heads.old.items bucket (suc number) }
    ensures next { next.new.items ≡ set next.old.items number (slice_index heads.old.items bucket) }
    ensures len { vec_len next.new ≡ vec_len next.old }
    ensures capacity { vec_capacity next.new ≡ vec_capacity next.old }
{
    next[number as usize] = heads[bucket];
    heads[bucket] = number + 1;
}
