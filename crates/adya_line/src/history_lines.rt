//! The lines of a history text, by their kind.

ghost use Rattle.std.specs.Prelude.{IfOk, MatchOption};
ghost use Rattle.adya_line.specs.Clauses.HistoryLines.{IsNoLine, IsOnlyLineOf, line_of};

use crate::event_line::read_event;
use crate::event_ref::EventRef;
use crate::final_line::final_pair;
use crate::fixed_line::{is_history_head, is_second_head, is_tail};
use crate::order_line::order;
use crate::unfinished_line::unfinished;
use adya_values::{Edition, FinalPair, Order, Txn};
use std::alloc::{AllocError, Global};

/// A line of a history text.
#[derive(Drop)]
pub enum HistoryLine<'a> {
    /// The first line, which names the edition.
    Head(Edition),
    /// A write, a delete, a read, a scan, a commit or an abort.
    Event(EventRef<'a>),
    /// An unfinished transaction, in the second edition.
    Unfinished(Txn),
    /// The version order of a key.
    Order(Order),
    /// What a key holds at the end.
    Final(FinalPair),
    /// The last line, `end`.
    Tail,
}

/// Reads a line of a history text, without its line feed. Returns `None` if the text is that of no line, and
/// `AllocError` if there is no memory for a list of writers.
// Not inlined: a caller pays at its entry for all locals of what is inlined into it.
#[inline(never)]
pub fn history_line(alloc: Global, text: &[u8]) -> Result<Option<HistoryLine<'_>>, AllocError>
    ensures { IfOk result (λ o. MatchOption o (IsNoLine text.now) (λ x. IsOnlyLineOf (line_of x) text.now)) }
{
    if let Some(event) = read_event(text) {
        return Ok(Some(HistoryLine::Event(event)));
    }
    if let Some(txn) = unfinished(text) {
        return Ok(Some(HistoryLine::Unfinished(txn)));
    }
    if let Some(order) = order(alloc, text)? {
        return Ok(Some(HistoryLine::Order(order)));
    }
    if let Some(pair) = final_pair(text) {
        return Ok(Some(HistoryLine::Final(pair)));
    }
    if is_history_head(text) {
        return Ok(Some(HistoryLine::Head(Edition::One)));
    }
    if is_second_head(text) {
        return Ok(Some(HistoryLine::Head(Edition::Two)));
    }
    if is_tail(text) {
        return Ok(Some(HistoryLine::Tail));
    }
    Ok(None)
}
