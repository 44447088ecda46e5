//! The transactions of an explanation, by the order in which it mentions them.

use std::alloc::{AllocError, Global};

/// The transactions that were mentioned: their places in the history.
#[derive(Drop)]
pub(crate) struct Cast {
    places: Vec<u32>,
}

impl Cast {
    /// Nobody was mentioned.
    pub fn new(alloc: Global) -> Cast {
        Cast {
            places: Vec::new(alloc),
        }
    }

    /// Returns the number of the transaction at this place, from 1.
    pub fn number(&mut self, place: u32) -> Result<u64, AllocError> {
        for i in 0..self.places.len() {
            if self.places[i] == place {
                return Ok((i as u64).saturating_add(1));
            }
        }
        self.places.push(place)?;
        Ok(self.places.len() as u64)
    }
}
