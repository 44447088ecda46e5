//! The calls of a file, as clauses see them.

ghost use Rattle.std.specs.Prelude.{◌≡◌, List, [], ◌∷◌};
ghost use Rattle.std.specs.Borrow.{ftrue};
ghost use Rattle.sqlite_disk.specs.Events.{Event};
ghost use Rattle.ssi_files.specs.Meaning.Calls.{event_of};

use std::marker::{Model, PhantomData};

/// A list of calls, the newest first, that no memory holds: only clauses read it.
#[derive(Drop)]
pub struct Record {
    marker: PhantomData<u8>,
    pub ghost events: { List Event },
}

impl Model for Record {
    ghost also_owns = { λ _. ftrue };
}

impl Record {
    pub(crate) fn new() -> Record
        ensures { result.events ≡ [] }
    {
        Record {
            marker: PhantomData,
        }
    }

    /// Adds a call: which one, two numbers, and 1 if it succeeded. A read that is tested has its key and its digest after
    /// them.
    pub(crate) fn note(&mut self, _numbers: &[u64], _bytes: &[u8])
        ensures { self.new.events ≡ event_of _numbers.now _bytes.now ∷ self.old.events }
    {}
}
