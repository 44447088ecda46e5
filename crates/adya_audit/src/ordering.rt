//! A certificate, a cycle or a verdict for a history text.

ghost use Rattle.std.specs.Prelude.{◌≡◌, ◌≢◌, false, true, IfOk, IfErr, OnOk, IsErrOf};
ghost use Rattle.devices.specs.Mirror.{has_failed, reads_left, watched_remaining};
ghost use Rattle.devices.specs.Clauses.Reading.{TookFewReads};
ghost use Rattle.devices.specs.Clauses.Writing.{Grew};
ghost use Rattle.adya_audit.specs.Clauses.Inputs.{OnText};
ghost use Rattle.adya_audit.specs.Clauses.Answers.{Answer as Plain, Tells, IsAnswer, answer_of, answer_text};

use crate::answer::{Answer, answer_on, write_answer};
use crate::laws::accepted_texts_are_serializable;
use crate::{Ordered, RunFault, Text, Verdict};
use adya_text::laws::history_texts;
use adya_text::{ReadFault, read_history_early};
use devices::Watched;
use std::alloc::Global;
use std::io::{Read, Write};

/// Reads a history text to the end of the stream and writes one of three answers: a certificate that is accepted with
/// it; a cycle, if there is no such certificate, which goes through no transaction twice; the line of a verdict of kinds
/// 1 to 4, if the history itself has a fault. Returns which of them it wrote. It holds one line and what it has read from
/// the lines before, and finds the whole answer before it writes. It may not read what follows a syntax fault.
///
/// `ReadHistory` if reading fails, `Write` if writing fails, `Memory` if memory runs out, and not for a read that failed.
/// Nothing has been written unless it is `Write`. It never returns `ReadSerial`. It takes at most one read for each byte, and
/// one more.
pub fn run_order<H: Read, W: Write>(
    alloc: Global,
    history: &mut Watched<H>,
    out: &mut Watched<W>,
) -> Result<Ordered, RunFault>
    ensures answer { IfOk result (λ o. (a : Plain)
        × Tells o a
        × OnText H.remaining history.old (λ text. IsAnswer text a)
        × Grew W.contents out.old out.new (answer_text a)) }
    ensures ended { OnOk result (has_failed history.new ≡ false) }
    ensures memory { IsErrOf result RunFault.Memory → has_failed history.new ≡ has_failed history.old }
    ensures reads { TookFewReads (watched_remaining H.remaining) reads_left history.old history.new 1 }
    ensures read_fault { IsErrOf result RunFault.ReadHistory → has_failed history.new ≡ true }
    ensures write_fault { IsErrOf result RunFault.Write → has_failed out.new ≡ true }
    ensures no_other { IsErrOf result RunFault.ReadSerial → ⊥ }
    ensures unwritten { IfErr result (λ e. e ≢ RunFault.Write → out.new ≡ out.old) }
{
    let answer = answer_on_stream(alloc, history)?;
    Ok(write_answer(&answer, out)?)
}

fn answer_on_stream<H: Read>(alloc: Global, history: &mut Watched<H>) -> Result<Answer, RunFault>
    ensures answer { IfOk result (λ a. OnText H.remaining history.old
        (λ text. IsAnswer text (answer_of a))) }
    ensures ended { OnOk result (has_failed history.new ≡ false) }
    ensures memory { IsErrOf result RunFault.Memory → has_failed history.new ≡ has_failed history.old }
    ensures reads { TookFewReads (watched_remaining H.remaining) reads_left history.old history.new 1 }
    ensures read_fault { IsErrOf result RunFault.ReadHistory → has_failed history.new ≡ true }
    ensures no_serial { IsErrOf result RunFault.ReadSerial → ⊥ }
    ensures no_write { IsErrOf result RunFault.Write → ⊥ }
{
    history_texts();
    accepted_texts_are_serializable();
    match read_history_early(alloc, history) {
        Ok(history) => Ok(answer_on(alloc, &history)?),
        Err(ReadFault::Syntax { line, .. }) => Ok(Answer::Refusal(Verdict::Syntax {
            text: Text::History,
            line,
        })),
        Err(ReadFault::Device) => Err(RunFault::ReadHistory),
        Err(ReadFault::Memory) => Err(RunFault::Memory),
    }
}
