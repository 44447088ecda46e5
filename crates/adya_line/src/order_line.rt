//! The lines of orders.

ghost use Rattle.std.specs.Prelude.{◌≡◌, List, [], ◌∷◌, length, IfOk};
ghost use Rattle.adya_values.specs.Mirror.Events.{order_of};
ghost use Rattle.adya_line.specs.Computing.Reading.{Gives, Steps, with_front, txn_at, writer_at, later_at, writers_at, order_at};

use crate::fields::{after, key_between, txn_at};
use adya_values::{Key, Order, Txn};
use std::alloc::{AllocError, Global};

/// What is left of a line.
#[derive(Clone, Copy)]
struct Cursor<'a> {
    rest: &'a [u8],
}

impl Cursor<'_> {
    /// Goes past a number.
    fn txn(&mut self) -> Option<Txn>
        ensures { Steps (λ x. x) result self.new.rest.now (txn_at self.old.rest.now) }
    {
        let (number, rest) = txn_at(self.rest)?;
        self.rest = rest;
        Txn::new(u64::from(number)).ok()
    }

    /// Goes past the second `<` of a mark and a number.
    #[tactic(auto, unfolding(crate::specs::Computing::Reading::writer_at))]
    fn writer(&mut self) -> Option<Txn>
        ensures { Steps (λ x. x) result self.new.rest.now (writer_at self.old.rest.now) }
    {
        self.rest = after(b'<', self.rest)?;
        self.txn()
    }

    /// Goes past `<<T<<..`, and returns `first` and the numbers after it.
    fn later(&mut self, alloc: Global, first: Txn) -> Result<Option<Vec<Txn>>, AllocError>
        ensures { IfOk result (λ r. Steps (λ w. w.items) r self.new.rest.now
            (with_front (first ∷ []) (later_at (length self.old.rest.now) self.old.rest.now))) }
    {
        let mut writers = Vec::new(alloc);
        writers.push(first)?;
        'later: while let Some(rest) = after(b'<', self.rest) {
            self.rest = rest;
            let Some(writer) = self.writer() else {
                return Ok(None);
            };
            writers.push(writer)?;
        }
        Ok(Some(writers))
    }

    /// Goes past `T<<T<<..`.
    #[tactic(auto, unfolding(crate::specs::Computing::Reading::writers_at))]
    fn writers(&mut self, alloc: Global) -> Result<Option<Vec<Txn>>, AllocError>
        ensures { IfOk result (λ r. Steps (λ w. w.items) r self.new.rest.now (writers_at self.old.rest.now)) }
    {
        let Some(first) = self.txn() else {
            return Ok(None);
        };
        self.later(alloc, first)
    }
}

/// Reads the line of an order, without its line feed: `[K:T<<T<<..]`, with at least one writer. Returns `None` for every
/// other text, and `AllocError` if there is no memory for the writers.
#[tactic(auto, unfolding(crate::specs::Computing::Reading::order_at))]
// Not inlined: a caller pays at its entry for all locals of what is inlined into it.
#[inline(never)]
pub fn order(alloc: Global, line: &[u8]) -> Result<Option<Order>, AllocError>
    ensures { IfOk result (λ r. Gives order_of r (order_at line.now)) }
{
    let Some((key, rest)) = key_between(b'[', b':', line) else {
        return Ok(None);
    };
    let key = Key::from_valid(key);
    let mut cursor = Cursor { rest };
    let Some(writers) = cursor.writers(alloc)? else {
        return Ok(None);
    };
    let Some(rest) = after(b']', cursor.rest) else {
        return Ok(None);
    };
    if !rest.is_empty() {
        return Ok(None);
    }
    Ok(Some(Order { key, writers }))
}
