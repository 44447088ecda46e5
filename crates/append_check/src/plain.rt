//! The plain search: all reads are looked at by themselves, and then all transactions two by two.
//!
//! It finds an order or a reason for each history, but takes time that grows with its cube, or faster. It is asked only
//! if what the fast search (`candidates`) found doesn't pass the last look at it. No test shows that this happens.

ghost use Rattle.std.specs.Prelude.{◌<◌, ◌^◌, length, IfOk};
ghost use Rattle.append_values.specs.Meaning.Reads.{AppendersDiffer, AppendsOnce};
ghost use Rattle.append_values.specs.Meaning.Reasons.{IsRound, IsSimple, AreKept};
ghost use Rattle.append_check.specs.Meaning.Verdicts.{history_of, IsRight, TellsRepeats};
ghost use Rattle.append_laws.specs.Laws.Explanations.{AreWhole};
ghost use Rattle.append_check.specs.Machinery.Precedences.{AreListed, IsCycleOf};

use crate::arcs::{arcs, kept_transactions};
use crate::precedences::{all_steps, precedence};
use crate::verdict::Verdict;
use crate::whole::first_broken;
use append_laws::{explains_exactly, reasons_refute};
use append_values::{Link, Read, Reason, Transaction};
use digraph::{Arc, Outcome as Sorted, topological_order};
use std::alloc::{AllocError, Global};

/// Says whether an order of the transactions explains the history; `AllocError` if memory runs out.
pub(crate) fn decide(alloc: Global, transactions: &[Transaction]) -> Result<Verdict, AllocError>
    requires size { length transactions.now < 2 ^ 31 }
    requires differ { AppendersDiffer (history_of transactions.now) }
    requires once { AppendsOnce (history_of transactions.now) }
    ensures right { IfOk result (IsRight (history_of transactions.now)) }
    ensures repeats { IfOk result (TellsRepeats (history_of transactions.now)) }
{
    reasons_refute();
    let reads = all_steps(alloc, transactions)?;
    let broken = first_broken(alloc, transactions, reads.as_slice())?;
    match broken {
        Some(reason) => Ok(Verdict::NotSerializable(reason)),
        None => sort(alloc, transactions, reads.as_slice()),
    }
}

// An order in which all precedences go forward, or a cycle of them.
fn sort(alloc: Global, transactions: &[Transaction], reads: &[Read]) -> Result<Verdict, AllocError>
    requires size { length transactions.now < 2 ^ 31 }
    requires differ { AppendersDiffer (history_of transactions.now) }
    requires once { AppendsOnce (history_of transactions.now) }
    requires listed { AreListed (history_of transactions.now) reads.now }
    requires whole { AreWhole (history_of transactions.now) }
    ensures right { IfOk result (IsRight (history_of transactions.now)) }
    ensures repeats { IfOk result (TellsRepeats (history_of transactions.now)) }
{
    reasons_refute();
    explains_exactly();
    let nodes = kept_transactions(alloc, transactions)?;
    let precedences = arcs(alloc, transactions, reads)?;
    let sorted = topological_order(alloc, nodes.as_slice(), precedences)?;
    match sorted {
        Sorted::Order(order) => Ok(Verdict::Serializable(order)),
        Sorted::Cycle(cycle) => {
            let round = links(alloc, transactions, reads, cycle.as_slice())?;
            Ok(Verdict::NotSerializable(Reason::Cycle(round)))
        }
    }
}

// The links of a cycle of precedences.
fn links(
    alloc: Global,
    transactions: &[Transaction],
    reads: &[Read],
    cycle: &[Arc],
) -> Result<Vec<Link>, AllocError>
    requires listed { AreListed (history_of transactions.now) reads.now }
    requires cycle { IsCycleOf (history_of transactions.now) cycle.now }
    ensures { let h = history_of transactions.now in
        IfOk result (λ v. IsRound h v.items × IsSimple v.items × AreKept h v.items) }
{
    let mut links = Vec::new(alloc);
    'arcs: for arc in cycle {
        let kind = precedence(alloc, transactions, reads, arc.from, arc.to)?;
        let Some(kind) = kind else {
            // never: each arc of the cycle is a precedence
            return Ok(links);
        };
        links.push(Link {
            from: arc.from,
            to: arc.to,
            kind,
        })?;
    }
    Ok(links)
}
