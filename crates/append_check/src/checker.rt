//! The check.

ghost use Rattle.std.specs.Prelude.{◌≡◌, ◌<◌, ◌^◌, [], length, IfOk, IfSome};
ghost use Rattle.append_values.specs.Meaning.Reads.{AppendersDiffer, AppendsOnce};
ghost use Rattle.append_check.specs.Meaning.Verdicts.{history_of, IsRight, TellsRepeats, AllHold};

use crate::appenders::{Appenders, Made};
use crate::plain::decide;
use crate::reasons::holds;
use crate::replay::explains;
use crate::verdict::{Findings, Verdict};
use append_laws::reasons_refute;
use append_search::{Candidate, Reasons, find_candidate};
use append_values::{Counted, Transaction};
use std::alloc::{AllocError, Global};

/// Says whether an order of the transactions explains the history, unless an element is appended twice to one list: then it
/// names one. `AllocError` if memory runs out.
///
/// A fast search finds an order or a reason, which is looked at once more before it is returned. If it didn't pass this
/// look, a plain search would answer in its place.
pub fn check(alloc: Global, transactions: &[Transaction]) -> Result<Verdict, AllocError>
    requires { length transactions.now < 2 ^ 31 }
    ensures right { IfOk result (IsRight (history_of transactions.now)) }
    ensures repeats { IfOk result (TellsRepeats (history_of transactions.now)) }
{
    let findings = examine(alloc, transactions)?;
    Ok(findings.verdict)
}

/// Says the same, and one reason of each other kind that the fast search found, each of which is looked at, too. How many of
/// a kind there are is what this search says, and nobody looks at it. `AllocError` if memory runs out.
pub fn examine(alloc: Global, transactions: &[Transaction]) -> Result<Findings, AllocError>
    requires { length transactions.now < 2 ^ 31 }
    ensures right { IfOk result (λ f. IsRight (history_of transactions.now) f.verdict) }
    ensures repeats { IfOk result (λ f. TellsRepeats (history_of transactions.now) f.verdict) }
    ensures others { IfOk result (λ f. AllHold (history_of transactions.now) f.others.items) }
{
    let appenders = match Appenders::of(alloc, transactions)? {
        Made::Table(appenders) => appenders,
        Made::Twice(item) => {
            return Ok(alone(
                alloc,
                Verdict::AppendedTwice {
                    key: item.key,
                    element: item.element,
                },
            ));
        }
    };
    match find_candidate(alloc, transactions, appenders)? {
        Candidate::Order(order) => {
            if explains(alloc, transactions, order.as_slice())? {
                return Ok(alone(alloc, Verdict::Serializable(order)));
            }
        }
        Candidate::Reasons(reasons) => {
            let confirmed = confirmed(alloc, transactions, reasons)?;
            match confirmed {
                Some(findings) => return Ok(findings),
                None => {}
            }
        }
    }
    let verdict = decide(alloc, transactions)?;
    Ok(alone(alloc, verdict))
}

/// Returns the verdict, with nothing else.
fn alone(alloc: Global, verdict: Verdict) -> Findings
    ensures verdict { result.verdict ≡ verdict }
    ensures others { result.others.items ≡ [] }
{
    Findings {
        verdict,
        times: 1,
        others: Vec::new(alloc),
        is_searched: true,
    }
}

/// Returns those of the reasons that are there: the first one decides. `None` if none is.
fn confirmed(
    alloc: Global,
    transactions: &[Transaction],
    reasons: Reasons,
) -> Result<Option<Findings>, AllocError>
    requires differ { AppendersDiffer (history_of transactions.now) }
    requires once { AppendsOnce (history_of transactions.now) }
    ensures right { IfOk result (λ o. IfSome o (λ f. IsRight (history_of transactions.now) f.verdict)) }
    ensures repeats { IfOk result (λ o. IfSome o (λ f. TellsRepeats (history_of transactions.now) f.verdict)) }
    ensures others { IfOk result (λ o. IfSome o (λ f. AllHold (history_of transactions.now) f.others.items)) }
{
    reasons_refute();
    let mut others = those_there(alloc, transactions, reasons.found)?;
    if others.is_empty() {
        return Ok(None);
    }
    let first = others.remove(0);
    Ok(Some(Findings {
        verdict: Verdict::NotSerializable(first.reason),
        times: first.times,
        others,
        is_searched: reasons.is_searched,
    }))
}

/// Returns those of the reasons that are there, in the same order.
fn those_there(
    alloc: Global,
    transactions: &[Transaction],
    found: Vec<Counted>,
) -> Result<Vec<Counted>, AllocError>
    ensures { IfOk result (λ v. AllHold (history_of transactions.now) v.items) }
{
    let mut there = Vec::new(alloc);
    'reasons: for counted in found {
        let is_there = holds(alloc, transactions, &counted.reason)?;
        if is_there {
            there.push(counted)?;
        }
    }
    Ok(there)
}
