//! Which replies wait for the disk if others don't.

ghost use Rattle.std.specs.Prelude.{◌≡◌, ◌≢◌, ◌-◌, ℕ, None, true, false};
ghost use Rattle.std.specs.Option.{option_map};
ghost use Rattle.ssi_durable.specs.Mirror.Holds.{HasHeld, all_wait, free_in, front_by, held_len};

use indexmap::IndexMap;
use std::alloc::Global;

/// Of each connection of which a reply waits, how many bytes of its replies come before that.
#[derive(Drop)]
pub(crate) struct Holds {
    free: IndexMap<u64, usize>,
    // memory couldn't hold one more, or a reply was lost: all replies wait
    all: bool,
}

impl Holds {
    /// No reply waits.
    pub(crate) fn new(alloc: Global) -> Holds
        ensures free { (t : ℕ) → free_in result t ≡ None }
        ensures all { all_wait result ≡ false }
    {
        Holds {
            free: IndexMap::new(alloc),
            all: false,
        }
    }

    /// From now on a reply of the connection waits that has `before` bytes before it, if none waits yet. If memory can't hold that
    /// then all replies wait.
    pub(crate) fn hold(&mut self, token: u64, before: usize)
        ensures { HasHeld token before true self.old self.new }
    {
        if self.free.get(&token).is_some() {
            return;
        }
        if self.free.insert(token, before).is_err() {
            self.all = true;
        }
    }

    /// All replies wait.
    pub(crate) fn hold_all(&mut self)
        ensures { all_wait self.new ≡ true }
    {
        self.all = true;
    }

    /// So many bytes were written to the connection, none of a reply that waits.
    pub(crate) fn written(&mut self, token: u64, count: usize)
        ensures all { all_wait self.new ≡ all_wait self.old }
        ensures own { free_in self.new token ≡ option_map (λ n. n - count) (free_in self.old token) }
        ensures others { (u : ℕ) → u ≢ token → free_in self.new u ≡ free_in self.old u }
    {
        if let Some(free) = self.free.get_mut(&token) {
            *free = free.saturating_sub(count);
        }
    }

    /// No reply waits any more.
    pub(crate) fn clear(&mut self)
        ensures free { (t : ℕ) → free_in self.new t ≡ None }
        ensures all { all_wait self.new ≡ false }
    {
        self.free.clear();
        self.all = false;
    }

    /// Returns whether no reply waits.
    pub(crate) fn is_empty(&self) -> bool
        ensures free { result ≡ true → (t : ℕ) → free_in self.now t ≡ None }
        ensures all { result ≡ true → all_wait self.now ≡ false }
    {
        !self.all && self.free.is_empty()
    }

    /// Returns of how many connections a reply waits, as far as memory could hold it.
    pub(crate) fn len(&self) -> usize
        ensures { result ≡ held_len self.now }
    {
        self.free.len()
    }

    /// Returns those of a connection's unsent bytes that don't wait.
    pub(crate) fn front<'a>(&self, token: u64, unsent: &'a [u8]) -> &'a [u8]
        ensures { result.now ≡ front_by (all_wait self.now) (free_in self.now token) unsent.now }
    {
        if self.all {
            return &[];
        }
        match self.free.get(&token) {
            Some(free) => &unsent[..unsent.len().min(*free)],
            None => unsent,
        }
    }
}
