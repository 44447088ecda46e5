//! A past that isn't kept.

ghost use Rattle.std.specs.Prelude.{true, refl};

use crate::past::Past;
use adya_values::{Event, Txn};
use std::alloc::AllocError;

/// Nothing of the past.
#[derive(Drop)]
pub(crate) struct NoPast;

impl Past for NoPast {
    ghost recorded = { λ p es. Unit {0} };

    ghost started = { λ p ts. Unit {0} };

    ghost has_places = { λ p n. true };

    ghost can_begin = { λ p. Unit {0} };

    ghost has_room = { λ p n. Unit {0} };

    fn open(&mut self) -> Result<(), AllocError> {
        Ok(())
    }

    fn begin(&mut self, _: Txn, _: u64) {}

    fn room(&mut self, _: usize) -> Result<(), AllocError> {
        Ok(())
    }

    fn event(&mut self, _: Event) {}

    fn end(&mut self, _: Event) {}

    ghost fewer = { λ p m n less places. refl };
}
