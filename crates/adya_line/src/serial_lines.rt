//! The lines of a certificate text, by their kind.

ghost use Rattle.std.specs.Prelude.{MatchOption};
ghost use Rattle.adya_line.specs.Clauses.SerialLines.{IsNoLine, IsOnlyLineOf, line_of};

use crate::fixed_line::{is_serial_head, is_tail};
use crate::txn_line::txn;
use adya_values::Txn;

/// A line of a certificate text.
#[derive(Clone, Copy)]
pub enum SerialLine {
    /// The first line, `serial 1`.
    Head,
    /// A transaction.
    Txn(Txn),
    /// The last line, `end`.
    Tail,
}

/// Reads a line of a certificate text, without its line feed. Returns `None` if the text is that of no line.
pub fn serial_line(text: &[u8]) -> Option<SerialLine>
    ensures { MatchOption result (IsNoLine text.now) (λ x. IsOnlyLineOf (line_of x) text.now) }
{
    if let Some(txn) = txn(text) {
        return Some(SerialLine::Txn(txn));
    }
    if is_serial_head(text) {
        return Some(SerialLine::Head);
    }
    if is_tail(text) {
        return Some(SerialLine::Tail);
    }
    None
}
