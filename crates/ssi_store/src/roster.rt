//! Which transactions are open.

ghost use Rattle.std.specs.Prelude.{◌≡◌, ℕ, true, [], ◌∷◌, ◌++◌, nat_eq, map, length, OnOk, IfOk};
ghost use Rattle.indexmap.specs.IndexMap.{insert_entry, shift_remove_entry};
ghost use Rattle.adya_values.specs.Computing.Shapes.{numbers_rise};
ghost use Rattle.ssi_store.specs.Machinery.Rosters.{txns_in, AreBelow};

use adya_values::Txn;
use indexmap::IndexMap;
use std::alloc::{AllocError, Global};

/// The open transactions with their snapshots, in the order in which they began.
#[derive(Drop)]
pub(crate) struct Roster {
    open_txns: IndexMap<Txn, u64>,
    ghost rising: { numbers_rise (txns_in open_txns.entries) ≡ true },
}

impl Roster {
    ghost use Rattle.ssi_store.specs.Mirror.Rosters.{open_in};
    ghost use Rattle.ssi_store.specs.Machinery.RosterRoom.{HasRoom};

    pub fn new(alloc: Global) -> Roster
        ensures opened { open_in result ≡ [] }
    {
        Roster {
            open_txns: IndexMap::new(alloc),
        }
    }

    /// Makes room for one more transaction. The transactions stay.
    pub fn room(&mut self) -> Result<(), AllocError>
        ensures opened { open_in self.new ≡ open_in self.old }
        ensures room { OnOk result (HasRoom self.new) }
    {
        self.open_txns.reserve(1)
    }

    /// Adds an open transaction in the room that was made. Takes no memory.
    pub fn begin(&mut self, txn: Txn, snapshot: u64)
        requires room { HasRoom self.old }
        requires above { AreBelow txn (open_in self.old) }
        ensures opened { open_in self.new ≡ insert_entry nat_eq (open_in self.old) txn snapshot }
    {
        let _added = self.open_txns.insert(txn, snapshot);
    }

    /// The transaction is no longer open.
    pub fn end(&mut self, txn: Txn)
        ensures opened { open_in self.new ≡ shift_remove_entry (nat_eq txn) (open_in self.old) }
    {
        self.open_txns.shift_remove(&txn);
    }

    /// Returns how many transactions are open.
    pub fn open_count(&self) -> usize
        ensures { result ≡ length (open_in self.now) }
    {
        self.open_txns.len()
    }

    /// Returns the open transactions, by rising number.
    pub fn open_txns(&self) -> &[Txn]
        ensures all { result.now ≡ txns_in (open_in self.now) }
        ensures rising { numbers_rise result.now ≡ true }
    {
        self.open_txns.keys().as_slice()
    }

    /// Returns the snapshots of the open transactions, in the order in which they began.
    pub fn open_snapshots(&self) -> &[u64]
        ensures { result.now ≡ map (λ (e : ℕ × ℕ). e.1) (open_in self.now) }
    {
        self.open_txns.values().as_slice()
    }
}
