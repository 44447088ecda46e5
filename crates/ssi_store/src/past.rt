//! What a store keeps of its past.

ghost use Rattle.std.specs.Prelude.{◌≡◌, ◌≤◌, ◌∷◌, ◌++◌, [], ℕ, suc, Bool, true, List, OnOk};
ghost use Rattle.adya_values.specs.Meaning.Histories.{Event as PlainEvent};
ghost use Rattle.adya_values.specs.Mirror.Events.{event_of};
ghost use Rattle.adya_values.specs.Machinery.Packed.{entry_count};
ghost use Rattle.ssi_recorder.specs.Meaning.Recorded.{is_end};

use adya_values::{Event, Txn};
use std::alloc::AllocError;

/// What a store keeps of its past: all of it, or nothing. It is told of each event, and of each transaction that begins.
pub(crate) trait Past {
    /// These may be the events that it was told of, in their order.
    ghost recorded: { Self → List PlainEvent → Type 0 };

    /// These may be the transactions that it was told of, each with its snapshot, in the order in which they began.
    ghost started: { Self → List (ℕ × ℕ) → Type 0 };

    /// It has a place for the ends of so many transactions.
    ghost has_places: { Self → ℕ → Bool };

    /// It has room for one more begin.
    ghost can_begin: { Self → Type 0 };

    /// Beside the kept places it has room for one more event, if that lists no more than so many entries.
    ghost has_room: { Self → ℕ → Type 0 };

    /// Makes room for one more begin, and keeps a place for the end of the transaction. What it was told stays.
    ///
    /// Returns an error if memory runs out.
    fn open(&mut self) -> Result<(), AllocError>
        ensures recorded { (es : List PlainEvent) → recorded self.old es → recorded self.new es }
        ensures started { (ts : List (ℕ × ℕ)) → started self.old ts → started self.new ts }
        ensures places { (n : ℕ) → has_places self.old n ≡ true → has_places self.new n ≡ true }
        ensures place { OnOk result ((n : ℕ) → has_places self.old n ≡ true → has_places self.new (suc n) ≡ true) }
        ensures room { OnOk result (can_begin self.new) };

    /// Is told that a transaction has begun. Takes no memory.
    fn begin(&mut self, txn: Txn, snapshot: u64)
        requires { can_begin self.old }
        ensures recorded { (es : List PlainEvent) → recorded self.old es → recorded self.new es }
        ensures started { (ts : List (ℕ × ℕ)) → started self.old ts → started self.new (ts ++ (txn, snapshot) ∷ []) }
        ensures places { (n : ℕ) → has_places self.old n ≡ true → has_places self.new n ≡ true };

    /// Makes room for one event that lists up to so many entries. What it was told stays.
    ///
    /// Returns an error if memory runs out.
    fn room(&mut self, entries: usize) -> Result<(), AllocError>
        ensures recorded { (es : List PlainEvent) → recorded self.old es → recorded self.new es }
        ensures started { (ts : List (ℕ × ℕ)) → started self.old ts → started self.new ts }
        ensures places { (n : ℕ) → has_places self.old n ≡ true → has_places self.new n ≡ true }
        ensures room { OnOk result (has_room self.new entries) };

    /// Is told of a write, a delete, a read or a scan. Takes no memory.
    fn event(&mut self, event: Event)
        requires { has_room self.old (entry_count (event_of event)) }
        ensures recorded { (es : List PlainEvent) → recorded self.old es → recorded self.new (es ++ event_of event ∷ []) }
        ensures started { (ts : List (ℕ × ℕ)) → started self.old ts → started self.new ts }
        ensures places { (n : ℕ) → has_places self.old n ≡ true → has_places self.new n ≡ true };

    /// Is told of a commit or an abort, which takes a kept place. Takes no memory.
    fn end(&mut self, end: Event)
        requires end { is_end (event_of end) ≡ true }
        requires place { has_places self.old 1 ≡ true }
        ensures recorded { (es : List PlainEvent) → recorded self.old es → recorded self.new (es ++ event_of end ∷ []) }
        ensures started { (ts : List (ℕ × ℕ)) → started self.old ts → started self.new ts }
        ensures places { (n : ℕ) → has_places self.old (suc n) ≡ true → has_places self.new n ≡ true };

    /// A place for each of some transactions is one for each of fewer.
    ghost fewer: { (past : Self) (m n : ℕ) → m ≤ n → has_places past n ≡ true → has_places past m ≡ true };
}
