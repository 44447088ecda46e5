//! Marks of keys and of ranges.

use crate::layers::Layer;
use crate::reply::{Reply, put_txns};
use crate::words::{Fault, Words};
use ssi_reads::Marks;

#[derive(Drop)]
pub(crate) struct Marked<M: Marks + Drop>(pub(crate) M);

impl<M: Marks + Drop> Marked<M> {
    fn key(&mut self, words: &mut Words) -> Result<(), Fault> {
        Ok(self.0.mark_key(words.txn()?, words.key()?)?)
    }

    fn range(&mut self, words: &mut Words) -> Result<(), Fault> {
        Ok(self.0.mark_range(words.txn()?, words.key()?, words.key()?)?)
    }
}

/// `key TXN KEY`, `range TXN LOW HIGH`, `readers KEY` and `forget TXN`.
impl<M: Marks + Drop> Layer for Marked<M> {
    fn call(&mut self, words: &mut Words, reply: &mut Reply) -> Result<(), Fault> {
        match words.word() {
            "key" => self.key(words),
            "range" => self.range(words),
            "readers" => put_txns(&self.0.readers_of(words.key()?)?, reply),
            "forget" => Ok(self.0.forget(words.txn()?)),
            _ => Err(Fault::Call),
        }
    }
}
