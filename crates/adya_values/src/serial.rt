//! Certificates.

ghost use Rattle.std.specs.Prelude.{◌≡◌};
ghost use Rattle.adya_values.specs.Mirror.Histories.{serial_txns};

use crate::Txn;

/// A certificate: an order in which the transactions of a history are said to have run, one at a time.
#[derive(Drop)]
pub struct Serial {
    txns: Vec<Txn>,
}

impl Serial {
    /// Makes the certificate of these transactions, first to last.
    pub fn new(txns: Vec<Txn>) -> Serial
        ensures { result.txns ≡ txns }
    {
        Serial { txns }
    }

    /// Returns the transactions, first to last.
    pub fn txns(&self) -> &[Txn]
        ensures { result.now ≡ serial_txns self.now }
    {
        &self.txns
    }
}
