//! Collect and stat, the commands of an operator.

use crate::below::laws_below;
use crate::engine::Engine;
use crate::past::Past;
use crate::{Refusal, Reply};
use ssi_reads::Marks;
use ssi_versions::Chains;

impl<C: Chains + Drop, M: Marks + Drop, P: Past + Drop> Engine<C, M, P> {
    ghost use Rattle.ssi_store.specs.Meaning.Courses.{Command as Do};
    ghost use Rattle.ssi_store.specs.Mirror.Commands.{answer_of};
    ghost use Rattle.ssi_store.specs.Mirror.Standing.{GoesOn};

    /// Drops the versions that are neither the last of their key nor seen by an open transaction. Takes no memory.
    pub(crate) fn collect(&mut self) -> Result<Reply, Refusal>
        ensures stands { GoesOn C.held M.marked P.recorded P.started self.old self.new Do.Collect (answer_of result) }
    {
        laws_below();
        let versions = self.chains.collect(self.roster.open_snapshots());
        Ok(Reply::Kept { versions })
    }

    /// Counts transactions, versions and keys. Takes no memory.
    pub(crate) fn stat(&self) -> Result<Reply, Refusal>
        ensures stands { GoesOn C.held M.marked P.recorded P.started self.now self.now Do.Stat (answer_of result) }
    {
        laws_below();
        Ok(Reply::Stat {
            open_txns: self.roster.open_count() as u64,
            kept: self.tracker.kept() as u64,
            versions: self.chains.held(),
            keys: self.chains.keys(),
        })
    }
}
