//! What a store of versions promises, however it keeps them.

ghost use Rattle.std.specs.Prelude.{◌≡◌, ◌++◌, ℕ, List, None, if◌then◌else◌, true, length, map, filter, option_map, OnOk, OnErr, IfOk};
ghost use Rattle.adya_keys.specs.Meaning.Keys.{key_le, keys_rise, lies_in};
ghost use Rattle.adya_values.specs.Meaning.Events.{listed};
ghost use Rattle.ssi_versions.specs.Meaning.Changes.{Held as HeldVersion, listing, stamped};
ghost use Rattle.ssi_versions.specs.Clauses.ByStamp.{newest, newest_within, IsByStamp, is_wanted};
ghost use Rattle.ssi_versions.specs.Clauses.Conditions.{AreApart};
ghost use Rattle.ssi_versions.specs.Mirror.{held_of, write_of, chain_of, key_total, found_in, key_in, IsAbove};

use crate::Held;
use adya_values::{Content, Key, Version};
use std::alloc::AllocError;

/// A store of versions. Each version has the stamp of the commit that installed it.
///
/// The promises speak of the list of the held versions, key by key: the held versions of one key stand by stamp, and
/// the order of versions of different keys is left open.
pub trait Chains {
    /// The held versions.
    ghost held: { Self → List HeldVersion };

    /// Installs these writes with the stamp. The stamp has to be above the stamps of all held versions, and no two of
    /// the writes may be of one key. There may be no writes at all.
    ///
    /// Returns an error if memory runs out, or if there would be 2^64 versions. What is held stays as it was then.
    fn install(&mut self, stamp: u64, writes: &[(Version, Content)]) -> Result<(), AllocError>
        requires above { IsAbove stamp (held self.old) }
        requires apart { AreApart (map write_of writes.now) }
        ensures added { OnOk result ((key : List ℕ) → chain_of key (held self.new)
            ≡ chain_of key (held self.old) ++ listing (stamped stamp (listed key (map write_of writes.now)))) }
        ensures err { OnErr result (held self.new ≡ held self.old) };

    /// Returns what a snapshot at this stamp sees of the key: of its held versions whose stamp isn't above the snapshot's
    /// the newest one. Returns none if there is no such version. Takes no memory.
    fn at(&self, key: Key, stamp: u64) -> Option<Held>
        ensures { option_map held_of result ≡ newest_within stamp (chain_of key (held self.now)) };

    /// Returns by rising key what a snapshot at this stamp sees of each key from `low` to `high`, both included. A key of
    /// which it sees no version is left out. `low` may not be above `high`.
    ///
    /// Returns an error if memory runs out.
    fn range_at(&self, low: Key, high: Key, stamp: u64) -> Result<Vec<Held>, AllocError>
        requires { key_le low high ≡ true }
        ensures rising { IfOk result (λ v. keys_rise (map key_in (map held_of v.items)) ≡ true) }
        ensures found { IfOk result (λ v. (key : List ℕ) → found_in key (map held_of v.items)
            ≡ if lies_in low high key then newest_within stamp (chain_of key (held self.now)) else None) };

    /// Returns by rising key what a snapshot at this stamp sees of each key. A key of which it sees no version is left out.
    ///
    /// Returns an error if memory runs out.
    fn all_at(&self, stamp: u64) -> Result<Vec<Held>, AllocError>
        ensures rising { IfOk result (λ v. keys_rise (map key_in (map held_of v.items)) ≡ true) }
        ensures found { IfOk result (λ v. (key : List ℕ) → found_in key (map held_of v.items)
            ≡ newest_within stamp (chain_of key (held self.now))) };

    /// Returns the newest held version of the key, or none if no version of it is held. Takes no memory.
    fn last(&self, key: Key) -> Option<Held>
        ensures { option_map held_of result ≡ newest (chain_of key (held self.now)) };

    /// Keeps the newest version of each key, and of each key what these snapshots see. The other versions are no longer
    /// held. The snapshots may stand in any order and repeat, and there may be none.
    ///
    /// Returns how many versions are held afterwards. Takes no memory.
    fn collect(&mut self, snapshots: &[u64]) -> u64
        ensures kept { (key : List ℕ) → chain_of key (held self.new)
            ≡ filter (is_wanted snapshots.now (chain_of key (held self.old))) (chain_of key (held self.old)) }
        ensures count { result ≡ length (held self.new) };

    /// Returns how many versions are held. Takes no memory.
    fn held(&self) -> u64
        ensures { result ≡ length (held self.now) };

    /// Returns how many keys have a held version. Takes no memory.
    fn keys(&self) -> u64
        ensures { result ≡ key_total (held self.now) };

    /// The held versions of a key stand by stamp.
    ghost by_stamp: { (chains : Self) (key : List ℕ) → IsByStamp (chain_of key (held chains)) };
}
