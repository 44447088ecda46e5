//! The graph of all precedences.

ghost use Rattle.std.specs.Prelude.{◌≡◌, ◌<◌, ◌^◌, true, false, length, IfOk, OnOk};
ghost use Rattle.append_values.specs.declared.transaction.Outcome.TheVariants.{Aborted};
ghost use Rattle.append_values.specs.Meaning.Histories.{outcome};
ghost use Rattle.append_check.specs.Meaning.Verdicts.{history_of};
ghost use Rattle.append_check.specs.Machinery.Precedences.{AreListed, AreArcs, AreMore, HasArc, AreNodes, HasNode};

use crate::precedences::precedence;
use append_values::{Outcome, Read, Transaction};
use digraph::Arc;
use std::alloc::{AllocError, Global};

/// Returns the transactions that aren't aborted.
pub(crate) fn kept_transactions(
    alloc: Global,
    transactions: &[Transaction],
) -> Result<Vec<u32>, AllocError>
    requires { length transactions.now < 2 ^ 31 }
    ensures { IfOk result (λ v. AreNodes (history_of transactions.now) (length transactions.now) v.items) }
{
    let mut nodes = Vec::new(alloc);
    'transactions: for place in 0..transactions.len() {
        add_node(&mut nodes, transactions, place as u32)?;
    }
    Ok(nodes)
}

// Adds the transaction unless it is aborted.
fn add_node(
    nodes: &mut Vec<u32>,
    transactions: &[Transaction],
    place: u32,
) -> Result<(), AllocError>
    ensures { OnOk result (HasNode (history_of transactions.now) place nodes.old.items nodes.new.items) }
{
    if is_aborted(transactions, place) {
        return Ok(());
    }
    nodes.push(place)?;
    Ok(())
}

/// Returns an arc from each transaction to each one that isn't aborted and has to come after it.
pub(crate) fn arcs(
    alloc: Global,
    transactions: &[Transaction],
    reads: &[Read],
) -> Result<Vec<Arc>, AllocError>
    requires size { length transactions.now < 2 ^ 31 }
    requires listed { AreListed (history_of transactions.now) reads.now }
    ensures { IfOk result (λ v. AreArcs (history_of transactions.now) (length transactions.now) v.items) }
{
    let mut arcs = Vec::new(alloc);
    'transactions: for from in 0..transactions.len() {
        add_arcs(alloc, transactions, reads, &mut arcs, from as u32)?;
    }
    Ok(arcs)
}

// Adds an arc from the transaction to each one that isn't aborted and has to come after it.
fn add_arcs(
    alloc: Global,
    transactions: &[Transaction],
    reads: &[Read],
    arcs: &mut Vec<Arc>,
    from: u32,
) -> Result<(), AllocError>
    requires size { length transactions.now < 2 ^ 31 }
    requires listed { AreListed (history_of transactions.now) reads.now }
    ensures { OnOk result (AreMore (history_of transactions.now) from (length transactions.now) arcs.old.items arcs.new.items) }
{
    'transactions: for to in 0..transactions.len() {
        add_arc(alloc, transactions, reads, arcs, from, to as u32)?;
    }
    Ok(())
}

// Adds the arc if the second transaction isn't aborted and has to come after the first one.
fn add_arc(
    alloc: Global,
    transactions: &[Transaction],
    reads: &[Read],
    arcs: &mut Vec<Arc>,
    from: u32,
    to: u32,
) -> Result<(), AllocError>
    requires { AreListed (history_of transactions.now) reads.now }
    ensures { OnOk result (HasArc (history_of transactions.now) from to arcs.old.items arcs.new.items) }
{
    if is_aborted(transactions, to) {
        return Ok(());
    }
    let kind = precedence(alloc, transactions, reads, from, to)?;
    match kind {
        Some(_) => {
            arcs.push(Arc { from, to })?;
            Ok(())
        }
        None => Ok(()),
    }
}

/// Returns whether the transaction at this place is aborted. So is each one beyond the history.
pub(crate) fn is_aborted(transactions: &[Transaction], place: u32) -> bool
    ensures yes { result ≡ true → outcome (history_of transactions.now) place ≡ Aborted }
    ensures no { result ≡ false → outcome (history_of transactions.now) place ≡ Aborted → ⊥ }
{
    match transactions.get(place as usize) {
        Some(transaction) => transaction.outcome == Outcome::Aborted,
        None => true,
    }
}
