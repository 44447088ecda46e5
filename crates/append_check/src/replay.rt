//! Whether an order explains a history: its transactions are run in this order.

ghost use Rattle.std.specs.Prelude.{◌≡◌, ◌==◌, if◌then◌else◌, ℕ, true, length, count_by, map, IfOk, IfSome};
ghost use Rattle.append_values.specs.Meaning.Histories.{outcome, operations, effects};
ghost use Rattle.append_values.specs.Meaning.Runs.{empty, run, Claims, AllClaims, Occurs, Explains};
ghost use Rattle.append_check.specs.Meaning.Verdicts.{history_of};
ghost use Rattle.append_check.specs.Machinery.Running.{flag, lists_of};

use crate::lists::Lists;
use append_values::{Outcome, Transaction};
use std::alloc::{AllocError, Global};

/// Returns true if the order lists the right transactions, and each read of a committed one returns what it returned if
/// they run one after the other, from empty lists. `AllocError` if memory runs out.
pub(crate) fn explains(
    alloc: Global,
    transactions: &[Transaction],
    order: &[u32],
) -> Result<bool, AllocError>
    ensures { IfOk result (λ b. b ≡ true → Explains order.now (history_of transactions.now)) }
{
    let listed = lists_the_right(alloc, transactions, order)?;
    if !listed {
        return Ok(false);
    }
    let fine = replays(alloc, transactions, order)?;
    Ok(fine)
}

/// Returns true if the transactions, run in this order from empty lists, find what they claim. A place without a
/// transaction is passed over.
fn replays(alloc: Global, transactions: &[Transaction], order: &[u32]) -> Result<bool, AllocError>
    ensures { IfOk result (λ b. b ≡ true → AllClaims (history_of transactions.now) empty order.now) }
{
    let mut lists = Lists::new(alloc);
    'order: for place in order {
        let fine = replay_one(&mut lists, transactions, *place)?;
        if !fine {
            return Ok(false);
        }
    }
    Ok(true)
}

/// Runs the transaction at the place, if there is one. Returns false if it didn't find what it claims.
fn replay_one(
    lists: &mut Lists,
    transactions: &[Transaction],
    place: u32,
) -> Result<bool, AllocError>
    ensures { let h = history_of transactions.now in
        IfOk result (λ b. b ≡ true → Claims (lists_of lists.old) (outcome h place) (operations h place)
        × ((k : ℕ) → lists_of lists.new k ≡ run (lists_of lists.old) (effects h place) k)) }
{
    let Some(transaction) = transactions.get(place as usize) else {
        return Ok(true);
    };
    let fine = lists.run(transaction)?;
    Ok(fine)
}

/// Returns whether the order lists each committed transaction once, each unknown one at most once, and no other.
fn lists_the_right(
    alloc: Global,
    transactions: &[Transaction],
    order: &[u32],
) -> Result<bool, AllocError>
    ensures { IfOk result (λ b. b ≡ true → (t : ℕ) → Occurs (outcome (history_of transactions.now) t) (count_by (λ u. u == t) order.now)) }
{
    let Some(listed) = listed(alloc, transactions.len(), order)? else {
        return Ok(false);
    };
    'places: for place in 0..transactions.len() {
        if !is_right(transactions[place].outcome, listed[place]) {
            return Ok(false);
        }
    }
    Ok(true)
}

/// Returns whether a transaction that ended so may be listed, or not.
fn is_right(outcome: Outcome, is_listed: bool) -> bool
    ensures { result ≡ true → Occurs outcome (if is_listed then 1 else 0) }
{
    match outcome {
        Outcome::Committed => is_listed,
        Outcome::Aborted => !is_listed,
        Outcome::Unknown => true,
    }
}

/// Returns which places below the count the order lists; `None` if it lists one twice, or another one.
pub(crate) fn listed(
    alloc: Global,
    count: usize,
    order: &[u32],
) -> Result<Option<Vec<bool>>, AllocError>
    ensures { IfOk result (λ o. IfSome o (λ v. (length v.items ≡ count)
        × ((t : ℕ) → count_by (λ u. u == t) order.now ≡ flag v.items t))) }
{
    let mut listed = Vec::from_elem(alloc, false, count)?;
    'order: for place in order {
        let at = *place as usize;
        if at >= listed.len() || listed[at] {
            return Ok(None);
        }
        listed[at] = true;
    }
    Ok(Some(listed))
}
