//! The newest write of each key, which is what most events read.

ghost use Rattle.std.specs.Prelude.{◌≡◌, ◌++◌, [], ◌∷◌, ℕ, List, Some, true, suc, slice_get, IfOk, IfSome};
ghost use Rattle.std.specs.Bool.{OnTrue};
ghost use Rattle.std.specs.List.{filter_map, list_any};
ghost use Rattle.adya_values.specs.Meaning.Events.{written};
ghost use Rattle.adya_values.specs.Meaning.Histories.{Event as EventValue};
ghost use Rattle.adya_values.specs.Mirror.Events.{events_of};
ghost use Rattle.adya_values.specs.Mirror.Numbers.{has_seen, seen_entry};
ghost use Rattle.adya_values.specs.Computing.Faults.{entry_eq};
ghost use Rattle.adya_terms.specs.Machinery.NewestWrites.{Keeps};

use crate::{Events, Seen};
use std::alloc::{AllocError, Global};

/// Of each key the place of its newest write in the list of events, counted from 1, at the index of the key's number; 0 if it has
/// none, or if that place is too large for 32 bits. It says of most of what is read that it was written. It is much smaller than
/// the tables of all writes, so it answers faster.
#[derive(Drop)]
pub(crate) struct NewestWrites {
    places: Vec<u32>,
}

impl NewestWrites {
    /// Makes those of no events, which name so many keys.
    pub fn new(alloc: Global, keys: usize) -> Result<NewestWrites, AllocError>
        ensures { IfOk result (λ n. (all : List EventValue) → Keeps n all []) }
    {
        Ok(NewestWrites {
            places: vec![in alloc; 0; keys]?,
        })
    }

    /// Returns the place of the newest write of the key with the number.
    fn place(&self, number: u32) -> Option<usize>
        ensures { IfSome result (λ p. slice_get self.now.places.items number ≡ Some (suc p)) }
    {
        match self.places.get(number as usize) {
            None | Some(0) => None,
            Some(place) => Some(*place as usize - 1),
        }
    }

    /// Returns whether the newest write of the key is this one. Then it was written.
    pub fn has(&self, events: &Events, seen: &Seen) -> bool
        requires { has_seen events.now seen.now ≡ true }
        ensures { OnTrue result ((before : List EventValue)
            → Keeps self.now (events_of events.now) before
            → list_any (entry_eq (seen_entry events.now seen.now)) (filter_map written before) ≡ true) }
    {
        match self.place(seen.key) {
            None => false,
            Some(at) => events.wrote(at, seen),
        }
    }

    /// Records that the event at the place writes the key with the number.
    pub fn keep(&mut self, number: u32, at: usize)
        ensures { (all before : List EventValue) (e : EventValue)
            → Keeps self.old all before
            → slice_get all at ≡ Some e
            → Keeps self.new all (before ++ e ∷ []) }
    {
        if let Some(place) = self.places.get_mut(number as usize) {
            *place = counted(at);
        }
    }
}

/// Returns the place counted from 1; 0 if that is too large for 32 bits.
fn counted(at: usize) -> u32
    ensures { (p : ℕ) → result ≡ suc p → at ≡ p }
{
    if at < u32::MAX as usize {
        return at as u32 + 1;
    }
    0
}
