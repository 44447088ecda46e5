//! From a text to its answer.

ghost use Rattle.std.specs.Prelude.{◌≡◌, ◌<◌, ◌≤◌, ◌^◌, ℕ, List, Some, length, true, IfOk, IfErr, OnOk, IsErrOf};
ghost use Rattle.devices.specs.Clauses.Writing.{Wrote};
ghost use Rattle.devices.specs.Mirror.{has_failed};
ghost use Rattle.append_check.specs.Meaning.Verdicts.{IsRight};
ghost use Rattle.append_text.specs.Meaning.JsonTexts.{IsFaultIn, IsHistoryIn};
ghost use Rattle.append_text.specs.Meaning.Notations.{after_mark};
ghost use Rattle.lists_verdicts.specs.Meaning.Status.{answer_of};
ghost use Rattle.lists_cli.specs.Meaning.Answers.{IsAnswer, IsWritten, HasOrder, history_in, notation_for};
ghost use Rattle.lists_cli.specs.Clauses.Faults.{IsReading, IsRefusal, IsWriting, order_in};

use crate::answer::{in_json, in_words};
use crate::basis::Basis;
use crate::explanation::Explanation;
use crate::fault::Fault;
use crate::order::{flush, put_order};
use append_check::{Findings, Reason, Verdict, examine};
use append_text::{History, ReadFault, TextForm, read_edn, read_history, read_json};
use devices::{Source, Watched, put};
use lists_verdicts::Answer;
use std::alloc::Global;
use std::io;
use std::io::Write;

/// The most transactions of a history.
const MOST: usize = 2147483647;

/// How an answer is written.
#[derive(Clone, Copy, Debug, PartialEq, Eq)]
pub enum Shape {
    /// In words, of which the first line begins with those of the answer.
    Words,
    /// As an object of JSON.
    Json,
}

/// An answer, and what it rests on.
#[derive(Clone, Copy)]
pub struct Answered {
    /// The answer.
    pub answer: Answer,
    /// How much of a history it rests on.
    pub basis: Basis,
}

/// Reads a history from all that the source has left, and says whether an order of its transactions explains it. If one
/// does, the order is written, as the index of each transaction, one a line; if a cycle decides that none does, the cycle is
/// drawn for Graphviz; and last the answer is written. What isn't there isn't written. A byte order mark at the front of the text
/// is passed over.
pub fn judge<S: Source, O: Write, D: Write, W: Write>(
    alloc: Global,
    source: &mut S,
    form: Option<TextForm>,
    shape: Shape,
    order: &mut Watched<O>,
    drawing: &mut Watched<D>,
    out: &mut Watched<W>,
) -> Result<Answered, Fault>
    ensures answered { (text : List ℕ) → S.remaining source.old ≡ Some text → IfOk result (λ a. IsAnswer O.contents W.contents shape
        (notation_for form (after_mark text)) (after_mark text) a.answer a.basis order.old order.new out.old out.new) }
    ensures refused { (text : List ℕ) → S.remaining source.old ≡ Some text → IfErr result (IsRefusal (notation_for form (after_mark text)) (after_mark text)) }
    ensures read_fault { IsErrOf result Fault.Read → S.is_failed source.new ≡ true }
    ensures order_fault { IsErrOf result Fault.Order → has_failed order.new ≡ true }
    ensures drawing_fault { IsErrOf result Fault.Drawing → has_failed drawing.new ≡ true }
    ensures write_fault { IsErrOf result Fault.Write → has_failed out.new ≡ true }
{
    let history = read(alloc, source, form)?;
    let is_many = history.transactions.len() > MOST;
    if is_many {
        return Err(Fault::Many);
    }
    let findings = examine(alloc, history.transactions.as_slice())?;
    let answer = Answer::of(history.transactions.as_slice(), &findings.verdict);
    write_order(&history, &findings.verdict, order)?;
    write_drawing(alloc, &history, &findings.verdict, drawing)?;
    tell(alloc, &history, &findings, shape, out)?;
    let basis = Basis::of(&history);
    Ok(Answered { answer, basis })
}

/// Reads a history in this notation, or in the one that the text tells.
fn read<S: Source>(
    alloc: Global,
    source: &mut S,
    form: Option<TextForm>,
) -> Result<History, ReadFault>
    ensures history { (text : List ℕ) → S.remaining source.old ≡ Some text → IfOk result (IsHistoryIn (notation_for form (after_mark text)) (after_mark text)) }
    ensures fault { (text : List ℕ) → S.remaining source.old ≡ Some text → IfErr result (IsFaultIn (notation_for form (after_mark text)) (after_mark text)) }
    ensures device { IfErr result (λ e. e ≡ ReadFault.Device → S.is_failed source.new ≡ true) }
{
    match form {
        None => read_history(alloc, source),
        Some(TextForm::Edn) => read_edn(alloc, source),
        Some(TextForm::Json) => read_json(alloc, source),
    }
}

/// Writes the order, if the verdict is one and some transaction is told of.
fn write_order<O: Write>(
    history: &History,
    verdict: &Verdict,
    order: &mut Watched<O>,
) -> Result<(), Fault>
    ensures order { OnOk result (HasOrder O.contents (answer_of history.now.transactions.items verdict.now)
        history.now.labels.items (order_in verdict.now) order.old order.new) }
    ensures fault { IfErr result (λ e. (e ≡ Fault.Order) × (has_failed order.new ≡ true)) }
{
    match verdict {
        Verdict::Serializable(places) => match Answer::of(
            history.transactions.as_slice(),
            verdict,
        ) {
            Answer::Serializable => {
                match put_order(history.labels.as_slice(), places.as_slice(), order) {
                    Ok(()) => Ok(()),
                    Err(_) => Err(Fault::Order),
                }
            }
            _ => Ok(()),
        },
        _ => Ok(()),
    }
}

/// Draws the cycle, if one decides.
fn write_drawing<D: Write>(
    alloc: Global,
    history: &History,
    verdict: &Verdict,
    drawing: &mut Watched<D>,
) -> Result<(), Fault>
    ensures fault { IfErr result (IsWriting Fault.Drawing (has_failed drawing.new)) }
{
    if let Verdict::NotSerializable(Reason::Cycle(links)) = verdict {
        let text = Explanation::new(alloc, history).in_dot(links.as_slice())?;
        let written = write_all(text.as_slice(), drawing);
        if written.is_err() {
            return Err(Fault::Drawing);
        }
    }
    Ok(())
}

/// Writes the answer.
fn tell<W: Write>(
    alloc: Global,
    history: &History,
    findings: &Findings,
    shape: Shape,
    out: &mut Watched<W>,
) -> Result<(), Fault>
    ensures words { shape ≡ Shape.Words → OnOk result
        (IsWritten W.contents (answer_of history.now.transactions.items findings.now.verdict) out.old out.new) }
    ensures fault { IfErr result (IsWriting Fault.Write (has_failed out.new)) }
{
    let text = match shape {
        Shape::Words => in_words(alloc, history, findings)?,
        Shape::Json => in_json(alloc, history, findings)?,
    };
    match write_all(text.as_slice(), out) {
        Ok(()) => Ok(()),
        Err(_) => Err(Fault::Write),
    }
}

fn write_all<W: Write>(text: &[u8], out: &mut Watched<W>) -> io::Result<()>
    ensures { Wrote W.contents out.old out.new text.now result }
{
    put(text, out)?;
    flush(out)
}
