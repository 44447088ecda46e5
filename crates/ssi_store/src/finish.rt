//! What remains of a store: its history, and the snapshots of its transactions.

ghost use Rattle.std.specs.Prelude.{◌≡◌};
ghost use Rattle.snapshot_histories.specs.Clauses.Snapshots.{IsSafe};
ghost use Rattle.adya_values.specs.Mirror.Histories.{history_of};
ghost use Rattle.ssi_store.specs.Clauses.Coverage.{snapshot_in};

use adya_values::{History, Txn};

/// The history of a store, and each of its transactions with its snapshot, by rising number. By these the history is a
/// checked snapshot history without a dangerous structure.
#[derive(Drop)]
pub struct Finished {
    pub(crate) history: History,
    pub(crate) snapshots: Vec<(Txn, u64)>,
    pub(crate) ghost safe: { ∥ IsSafe (history_of history) (snapshot_in snapshots.items) ∥₁ },
}

impl Finished {
    ghost use Rattle.ssi_store.specs.Mirror.Finished.{recorded_in, snapshots_in};

    /// Returns the history.
    pub fn history(&self) -> &History
        ensures same { history_of result.now ≡ recorded_in self.now }
        ensures safe { ∥ IsSafe (recorded_in self.now) (snapshot_in (snapshots_in self.now)) ∥₁ }
    {
        &self.history
    }

    /// Returns each transaction with its snapshot: the stamp of the last commit before it began.
    pub fn starts(&self) -> &[(Txn, u64)]
        ensures { result.now ≡ snapshots_in self.now }
    {
        self.snapshots.as_slice()
    }
}
