//! Packed orders and final values.

use crate::layers::Layer;
use crate::reply::{Reply, part, put_empty};
use crate::words::{Fault, Words};
use adya_line::{write_final, write_order};
use adya_values::{Content, FinalPair, Finals, Order, Orders};
use std::alloc::Global;

/// A list of orders, and one of final values.
#[derive(Drop)]
pub(crate) struct Packed {
    alloc: Global,
    orders: Orders,
    finals: Finals,
}

impl Packed {
    /// Makes both lists empty.
    pub(crate) fn new(alloc: Global) -> Packed {
        Packed {
            alloc,
            orders: Orders::new(alloc),
            finals: Finals::new(alloc),
        }
    }

    fn push_order(&mut self, words: &mut Words) -> Result<(), Fault> {
        let key = words.key()?;
        let writers = words.txns(self.alloc)?;
        self.orders.push(&Order { key, writers })?;
        Ok(())
    }

    fn push_final(&mut self, words: &mut Words) -> Result<(), Fault> {
        let key = words.key()?;
        let Content::Live(value) = words.content()? else {
            return Err(Fault::Word);
        };
        self.finals.push(&FinalPair { key, value })?;
        Ok(())
    }

    fn put_orders(&self, reply: &mut Reply) -> Result<(), Fault> {
        put_empty(self.orders.len(), reply)?;
        for i in 0..self.orders.len() {
            part(i, reply)?;
            write_order(self.orders.key(i), self.orders.writers(i), reply)?;
        }
        Ok(())
    }

    fn put_finals(&self, reply: &mut Reply) -> Result<(), Fault> {
        put_empty(self.finals.len(), reply)?;
        for i in 0..self.finals.len() {
            part(i, reply)?;
            let pair = self.finals.at(i);
            write_final(&pair, reply)?;
        }
        Ok(())
    }
}

/// `order KEY TXN..`, `final KEY VALUE`, and `orders` and `finals`, which reply with the lines.
impl Layer for Packed {
    fn call(&mut self, words: &mut Words, reply: &mut Reply) -> Result<(), Fault> {
        match words.word() {
            "order" => self.push_order(words),
            "final" => self.push_final(words),
            "orders" => self.put_orders(reply),
            "finals" => self.put_finals(reply),
            _ => Err(Fault::Call),
        }
    }
}
