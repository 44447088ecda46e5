//! The version orders of a history.

ghost use Rattle.std.specs.Prelude.{◌≡◌, ◌<◌, ◌≤◌, ◌++◌, ◌∷◌, ◌^◌, [], true, Some, length, map, option_map, slice_get, OnOk, OnErr};
ghost use Rattle.adya_keys.specs.Meaning.Keys.{keys_rise};

use crate::{Key, Order, Txn};
use adya_keys::Lines;
use std::alloc::{AllocError, Global};

/// Version orders, packed: lines of a key and its writers.
#[derive(Drop)]
pub struct Orders {
    pub(crate) lines: Lines<Txn>,
}

impl Orders {
    ghost use Rattle.adya_values.specs.Mirror.Events.{order_of};
    ghost use Rattle.adya_values.specs.Mirror.Lines.{orders_of};
    ghost use Rattle.adya_keys.specs.Mirror.{IsBelow};

    /// Makes a list of no orders. It takes no memory.
    pub fn new(alloc: Global) -> Orders
        ensures { orders_of result ≡ [] }
    {
        Orders {
            lines: Lines::new(alloc),
        }
    }

    /// Adds an order at the end. If memory is refused, the list has the same orders as before.
    pub fn push(&mut self, order: &Order) -> Result<(), AllocError>
        ensures ok { OnOk result (orders_of self.new ≡ orders_of self.old ++ order_of order.now ∷ []) }
        ensures err { OnErr result (orders_of self.new ≡ orders_of self.old) }
    {
        self.lines.push(order.key, &order.writers)
    }

    /// Returns how many orders there are.
    #[inline(always)]
    pub fn len(&self) -> usize
        ensures length { result ≡ length (orders_of self.now) }
        ensures near { result < 2 ^ 60 }
    {
        self.lines.len()
    }

    /// Returns the key of the order at the index, counted from 0, which is below the length.
    #[inline(always)]
    pub fn key(&self, i: usize) -> Key
        requires { i < length (orders_of self.now) }
        ensures { option_map (λ o. o.key) (slice_get (orders_of self.now) i) ≡ Some result }
    {
        self.lines.key(i)
    }

    /// Returns the writers of the order at the index, counted from 0, which is below the length.
    #[inline(always)]
    pub fn writers(&self, i: usize) -> &[Txn]
        requires { i < length (orders_of self.now) }
        ensures { option_map (λ o. o.writers) (slice_get (orders_of self.now) i) ≡ Some result.now }
    {
        self.lines.items(i)
    }

    /// Returns how many orders are of keys below this one, if the keys of the orders rise.
    pub fn below(&self, key: Key) -> usize
        ensures within { result ≤ length (orders_of self.now) }
        ensures below { keys_rise (map (λ o. o.key) (orders_of self.now)) ≡ true → IsBelow (map (λ o. o.key) (orders_of self.now)) key result }
    {
        self.lines.below(key)
    }

    /// Returns whether the keys strictly rise.
    pub(crate) fn keys_rise(&self) -> bool
        ensures { result ≡ keys_rise (map (λ o. o.key) (orders_of self.now)) }
    {
        self.lines.keys_rise()
    }

    pub(crate) fn allocator(&self) -> Global {
        self.lines.allocator()
    }
}
