//! The lines of unfinished transactions.

ghost use Rattle.adya_line.specs.Computing.Reading.{Gives, unfinished_at};

use crate::fields::after;
use crate::txn_line::txn;
use adya_values::Txn;

/// Reads the line of an unfinished transaction, without its line feed: `uT`. Returns `None` for every other text.
#[tactic(auto, unfolding(crate::specs::Computing::Reading::unfinished_at))]
pub fn unfinished(line: &[u8]) -> Option<Txn>
    ensures { Gives (λ t. t) result (unfinished_at line.now) }
{
    txn(after(b'u', line)?)
}
