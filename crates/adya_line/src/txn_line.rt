//! The lines of certificates.

ghost use Rattle.std.specs.Prelude.{IfSome};
ghost use Rattle.adya_keys.specs.Meaning.Keys.{IsTxn};
ghost use Rattle.adya_line.specs.Computing.Reading.{Gives, txn_at_line};

use crate::fields::txn_at;
use adya_values::Txn;

/// Reads the number that is all of the line.
#[tactic(auto, unfolding(crate::specs::Computing::Reading::txn_at_line))]
pub(crate) fn txn_at_line(bytes: &[u8]) -> Option<u32>
    ensures exact { Gives (λ x. x) result (txn_at_line bytes.now) }
    ensures good { IfSome result (λ x. IsTxn x) }
{
    let (txn, rest) = txn_at(bytes)?;
    rest.is_empty().then_some(txn)
}

/// Reads a line of a certificate, without its line feed: `T`, the number of a transaction. Returns `None` for every
/// other text.
pub fn txn(line: &[u8]) -> Option<Txn>
    ensures { Gives (λ t. t) result (txn_at_line line.now) }
{
    Txn::new(u64::from(txn_at_line(line)?)).ok()
}
