//! What a store holds.

ghost use Rattle.std.specs.Prelude.{◌≡◌, map, IfOk};
ghost use Rattle.adya_values.specs.Mirror.Events.{final_of};
ghost use Rattle.ssi_store.specs.Meaning.Contents.{contents_after};

use crate::below::laws_below;
use crate::engine::Engine;
use crate::past::Past;
use crate::rows::held_rows;
use adya_values::FinalPair;
use ssi_reads::Marks;
use ssi_versions::Chains;
use std::alloc::AllocError;

impl<C: Chains + Drop, M: Marks + Drop, P: Past + Drop> Engine<C, M, P> {
    ghost use Rattle.ssi_store.specs.Meaning.Courses.{Course};
    ghost use Rattle.ssi_store.specs.Mirror.Standing.{IsAt};

    /// Returns by rising key what a transaction would see that begins now.
    pub(crate) fn contents(&self) -> Result<Vec<FinalPair>, AllocError>
        ensures { IfOk result (λ v. (c : Course) → IsAt C.held M.marked P.recorded P.started self.now c → map final_of v.items ≡ contents_after c) }
    {
        laws_below();
        let held = self.chains.all_at(self.commits)?;
        let rows = held_rows(self.alloc, held.as_slice())?;
        Ok(rows)
    }
}
