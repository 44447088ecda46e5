//! The last writes of the writers that the order lines name, as far as they are found.

ghost use Rattle.std.specs.Prelude.{◌≡◌, ◌<◌, ◌^◌, ◌+◌, ◌==◌, suc, length, set, slice_get, slice_index, not, option_and_then, IfOk, OnOk};
ghost use Rattle.std.specs.List.{list_all};
ghost use Rattle.adya_values.specs.Mirror.Lines.{orders_of};
ghost use Rattle.adya_keys.specs.Machinery.Indices.{indices_in};
ghost use Rattle.adya_terms.specs.Machinery.LinePlaces.{blank, line_places, AreParts, AreStarts};

use crate::Orders;
use adya_values::Indices;
use std::alloc::{AllocError, Global};

/// For each writer that an order line names the index of its last write of the line's key, as far as it is found. One list for
/// all lines takes less memory than a list for each of them.
#[derive(Drop)]
pub(crate) struct LinePlaces {
    /// Line after line, and at each place of a line the index of the last write that was found for it and 1; 0 if none was.
    writes: Indices,
    /// Where the places of each line start, and at last the end of the list.
    starts: Indices,
    pub ghost ordered: { AreStarts (indices_in starts) (length (indices_in writes)) },
}

impl LinePlaces {
    ghost use Rattle.adya_terms.specs.Machinery.Places.{held, places_in};

    /// Makes the places of the writers of these lines, none of which is found.
    pub fn new(alloc: Global, orders: &Orders) -> Result<LinePlaces, AllocError>
        ensures { let os = orders_of orders.now in IfOk result (λ x. AreParts (blank os) (indices_in x.writes) (indices_in x.starts) (length os)) }
    {
        let mut writes = Indices::with_capacity(alloc, writer_count(orders))?;
        let mut starts = Indices::with_capacity(alloc, orders.len().saturating_add(1))?;
        starts.push(0)?;
        for i in 0..orders.len() {
            writes.add_zeros(orders.writers(i).len())?;
            starts.push(writes.len())?;
        }
        Ok(LinePlaces { writes, starts })
    }

    /// Records that the last write of the writer at the place of the line is at the index.
    pub fn fill(
        &mut self,
        alloc: Global,
        line: usize,
        place: usize,
        at: usize,
    ) -> Result<(), AllocError>
        requires { at < 2 ^ 60 }
        ensures starts { self.new.starts ≡ self.old.starts }
        ensures writes { let ws = indices_in self.old.writes in let ss = (indices_in self.old.starts) in
            OnOk result (suc line < length ss
            → place < length (line_places ws ss line)
            → indices_in self.new.writes ≡ set ws (slice_index ss line + place) (suc at)) }
    {
        let Some(start) = self.starts.get(line) else {
            return Ok(());
        };
        self.writes.set(alloc, start.saturating_add(place), at + 1)
    }

    /// Returns whether each place of the line is found.
    pub fn is_full(&self, line: usize) -> bool
        requires { suc line < length (indices_in self.now.starts) }
        ensures { result ≡ list_all (λ w. not (w == 0)) (places_in self.now line) }
    {
        self.writes
            .none_is_zero(self.starts.at(line), self.starts.at(line + 1))
    }

    /// Returns the index of the last write that was found for the place of the line.
    pub fn write_at(&self, line: usize, place: usize) -> Option<usize>
        requires { suc line < length (indices_in self.now.starts) }
        ensures { result ≡ option_and_then held (slice_get (places_in self.now line) place) }
    {
        let start = self.starts.at(line);
        if place >= self.starts.at(line + 1) - start {
            return None;
        }
        match self.writes.get(start + place) {
            None | Some(0) => None,
            Some(above) => Some(above - 1),
        }
    }
}

/// Returns how many writers the lines name, as far as that can be counted.
fn writer_count(orders: &Orders) -> usize {
    let mut count = 0usize;
    for i in 0..orders.len() {
        count = count.saturating_add(orders.writers(i).len());
    }
    count
}
