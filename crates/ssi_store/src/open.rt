//! The open transaction of a session.

ghost use Rattle.std.specs.Prelude.{◌≡◌, ◌≤◌, ◌<◌, [], suc, OnOk, OnErr, IfOk, IfErr};
ghost use Rattle.adya_values.specs.Mirror.Events.{content_of};
ghost use Rattle.ssi_snapshot.specs.Mirror.{count_of, txn_of, snapshot_of, written};
ghost use Rattle.ssi_snapshot.specs.Clauses.Writes.{next_mod, next_write, put_write};
ghost use Rattle.ssi_store.specs.declared.command.Refusal.TheVariants.{Long};

use crate::Refusal;
use adya_values::{Content, Key, Mod, Txn};
use ssi_snapshot::View;
use std::alloc::{AllocError, Global};

/// How many operations a transaction may carry out, so that each of its writes of a key has a number.
const MAX_OPERATIONS: u16 = 65_535;

/// What a transaction sees, and how many operations it has carried out.
#[derive(Drop)]
pub(crate) struct Open {
    pub view: View,
    pub operations: u16,
    pub ghost within: { count_of view ≤ operations },
}

impl Open {
    ghost use Rattle.ssi_store.specs.Machinery.Opens.{IsSameOpen, IsCounted};

    pub fn new(alloc: Global, txn: Txn, snapshot: u64) -> Open
        ensures txn { txn_of result.view ≡ txn }
        ensures snapshot { snapshot_of result.view ≡ snapshot }
        ensures written { written result.view ≡ [] }
        ensures count { result.operations ≡ 0 }
    {
        Open {
            view: View::new(alloc, txn, snapshot),
            operations: 0,
        }
    }

    /// Returns `Long` if the transaction has carried out all operations that it may.
    pub fn may_go_on(&self) -> Result<(), Refusal>
        ensures short { OnOk result (self.now.operations < 65535) }
        ensures long { IfErr result (λ r. (r ≡ Long) × (65535 ≤ self.now.operations)) }
    {
        if self.operations >= MAX_OPERATIONS {
            return Err(Refusal::Long);
        }
        Ok(())
    }

    /// Writes the key, and returns the number of the write. As before if memory runs out.
    pub fn write(&mut self, key: Key, content: Content) -> Result<Mod, AllocError>
        requires { self.old.operations < 65535 }
        ensures m { IfOk result (λ m. m ≡ next_mod key (written self.old.view)) }
        ensures written { OnOk result (written self.new.view
            ≡ put_write (next_write (txn_of self.old.view) key (content_of content) (written self.old.view)) (written self.old.view)) }
        ensures count { OnOk result (self.new.operations ≡ suc self.old.operations) }
        ensures same { (txn_of self.new.view ≡ txn_of self.old.view) × (snapshot_of self.new.view ≡ snapshot_of self.old.view) }
        ensures err { OnErr result (IsSameOpen self.old self.new) }
    {
        let m = self.view.put(key, content)?;
        self.operations += 1;
        Ok(m)
    }

    /// Counts one more operation.
    pub fn count(&mut self)
        requires { self.old.operations < 65535 }
        ensures { IsCounted self.old self.new }
    {
        self.operations += 1;
    }
}
