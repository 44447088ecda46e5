//! A certificate of a history, a cycle, or the verdict on it: finding it and writing it.

ghost use Rattle.std.specs.Prelude.{IfOk};
ghost use Rattle.adya_values.specs.Mirror.Histories.{history_of};
ghost use Rattle.devices.specs.Clauses.Writing.{Wrote};
ghost use Rattle.adya_audit.specs.Clauses.Answers.{Tells, IsAnswerOn, answer_of, answer_text};

use crate::auditor::refusal;
use crate::cycle::write_cycle;
use crate::{Edge, Ordered, Verdict, WriteFault, write_verdict};
use adya_dsg::{Found, order};
use adya_terms::Checked;
use adya_text::write_serial;
use adya_values::{History, Serial};
use devices::Watched;
use std::alloc::{AllocError, Global};
use std::io::Write;

/// A certificate of a history, or why it has none.
#[derive(Drop)]
pub(crate) enum Answer {
    /// A certificate with which the history is accepted.
    Certificate(Serial),
    /// A cycle of the history's edges. No certificate is accepted.
    Cycle(Vec<Edge>),
    /// The verdict on the history, whatever the certificate.
    Refusal(Verdict),
}

/// Finds a certificate of the history, a cycle, or its fault. `AllocError` if memory runs out.
pub(crate) fn answer_on(alloc: Global, history: &History) -> Result<Answer, AllocError>
    ensures { IfOk result (λ a. IsAnswerOn (history_of history.now) (answer_of a)) }
{
    let checked = match Checked::of(alloc, history) {
        Ok(checked) => checked,
        Err(fault) => return Ok(Answer::Refusal(refusal(fault)?)),
    };
    match order(alloc, &checked)? {
        Found::Serial(serial) => Ok(Answer::Certificate(serial)),
        Found::Cycle(edges) => Ok(Answer::Cycle(edges)),
    }
}

/// Writes the answer and returns its kind. `WriteFault` only if the writer fails or had failed before. How much of the
/// answer went out is unknown then.
pub(crate) fn write_answer<W: Write>(
    answer: &Answer,
    out: &mut Watched<W>,
) -> Result<Ordered, WriteFault>
    ensures kind { IfOk result (λ o. Tells o (answer_of answer.now)) }
    ensures written { Wrote W.contents out.old out.new (answer_text (answer_of answer.now)) result }
{
    match answer {
        Answer::Certificate(serial) => {
            write_serial(serial, out)?;
            Ok(Ordered::Serial)
        }
        Answer::Cycle(edges) => {
            write_cycle(edges, out)?;
            Ok(Ordered::Cycle)
        }
        Answer::Refusal(verdict) => {
            write_verdict(verdict, out)?;
            Ok(Ordered::No(*verdict))
        }
    }
}
