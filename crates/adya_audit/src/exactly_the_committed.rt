//! Whether a certificate lists exactly the committed transactions.

ghost use Rattle.std.specs.Prelude.{◌≡◌, ◌<◌, ◌==◌, ℕ, IfOk, MatchOption, count_by};
ghost use Rattle.std.specs.List.{list_all};
ghost use Rattle.std.specs.Ordering.{nat_cmp};
ghost use Rattle.std.specs.BTreeSet.{contains};
ghost use Rattle.adya_terms.specs.Clauses.Checked.{checked_history};
ghost use Rattle.adya_values.specs.Mirror.Events.{events_of};
ghost use Rattle.adya_values.specs.Meaning.Events.{is_committed};
ghost use Rattle.adya_values.specs.Computing.Certificates.{lists_the_committed};
ghost use Rattle.adya_audit.specs.Machinery.ExactlyTheCommitted.{HoldsEachOnce, commit_passes, passes};

use adya_terms::Checked;
use adya_values::{Events, Txn};
use std::alloc::{AllocError, Global};
use std::collections::BTreeSet;

/// Whether the list has each committed transaction once, and no other. `AllocError` if memory runs out.
pub(crate) fn lists_the_committed(
    alloc: Global,
    checked: &Checked,
    txns: &[Txn],
) -> Result<bool, AllocError>
    ensures { IfOk result (λ b. b ≡ lists_the_committed (checked_history checked.now) txns.now) }
{
    let Some(listed) = distinct(alloc, txns)? else {
        return Ok(false);
    };
    let events = checked.history().events();
    Ok(all_committed(checked, txns) && all_listed(&listed, events))
}

/// The set of the numbers, or `None` if one of them repeats. `AllocError` if memory runs out.
fn distinct(alloc: Global, txns: &[Txn]) -> Result<Option<BTreeSet<Txn>>, AllocError>
    ensures { IfOk result
        (λ o. MatchOption o ((t : ℕ) × (1 < count_by (λ u. u == t) txns.now)) (λ s. HoldsEachOnce s txns.now)) }
{
    let mut numbers = BTreeSet::new(alloc);
    for txn in txns {
        if !numbers.insert(*txn)? {
            return Ok(None);
        }
    }
    Ok(Some(numbers))
}

fn all_committed(checked: &Checked, txns: &[Txn]) -> bool
    ensures { result ≡ list_all (is_committed (checked_history checked.now).events) txns.now }
{
    txns.iter().all(|t| checked.is_committed(*t))
}

fn all_listed(listed: &BTreeSet<Txn>, events: &Events) -> bool
    ensures { result ≡ list_all (commit_passes (λ t. contains nat_cmp listed.now t)) (events_of events.now) }
{
    for i in 0..events.len() {
        if !is_listed(listed, events.commit_at(i)) {
            return false;
        }
    }
    true
}

/// Whether the set has the transaction, if there is one.
fn is_listed(listed: &BTreeSet<Txn>, committed: Option<Txn>) -> bool
    ensures { result ≡ passes (λ t. contains nat_cmp listed.now t) committed }
{
    match committed {
        Some(txn) => listed.contains(&txn),
        None => true,
    }
}
