//! Carrying out the lines of a log again.

ghost use Rattle.std.specs.Prelude.{◌≡◌, length, IfOk, IfErr, OnOk};
ghost use Rattle.adya_text.specs.Meaning.Texts.{with_ends};
ghost use Rattle.ssi_store.specs.Meaning.Courses.{Course, New};
ghost use Rattle.ssi_durable.specs.Meaning.Lines.{loads_len, whole_lines};
ghost use Rattle.ssi_durable.specs.Meaning.Replays.{Leads};
ghost use Rattle.ssi_durable.specs.Clauses.Recovery.{IsReplayed, LineFails, ReplayFails};
ghost use Rattle.ssi_durable.specs.Machinery.Faults.{at_line, fault_of};
ghost use Rattle.ssi_durable.specs.Machinery.Noting.{loaded_with};

use crate::fault::{LineFault, ReplayFault};
use crate::lines::{ends_loads, first_line, has_header, is_comment};
use ssi_line::{Line, read_line};
use ssi_store::{AnyStore, Refusal};

/// What was carried out of a text.
#[derive(Clone, Copy)]
pub struct Replayed {
    /// How many whole lines it has.
    pub lines: usize,
    /// How many bytes they have.
    pub len: usize,
    /// How many of these its loads have.
    pub loaded: usize,
}

/// Carries out the whole lines of the text, which is that of the segment with this number, on a new store.
///
/// `Header` if the first line isn't that of the segment; `Damaged` at the first line that is no command, or is refused;
/// `Memory` if memory ran out. After a fault the store has carried out the lines before it.
pub fn replay<S: AnyStore>(store: &mut S, number: u32, text: &[u8]) -> Result<Replayed, ReplayFault>
    ensures replayed { S.is_at store.old (New 1)
        → OnOk result (IsReplayed S.is_at number (whole_lines text.now) store.new) }
    ensures lines { IfOk result (λ r. r.lines ≡ length (whole_lines text.now)) }
    ensures len { IfOk result (λ r. r.len ≡ length (with_ends (whole_lines text.now))) }
    ensures loaded { IfOk result (λ r. r.loaded ≡ loads_len (whole_lines text.now)) }
    ensures fault { S.is_at store.old (New 1) → IfErr result (ReplayFails number (whole_lines text.now)) }
{
    if !has_header(text, number) {
        return Err(ReplayFault::Header);
    }
    let mut lines = 0;
    let mut loaded = None;
    let mut rest = text;
    while let Some((line, after)) = first_line(rest) {
        let carried = carry_out(store, line);
        if let Err(fault) = carried {
            return Err(at_line(fault, lines + 1));
        }
        lines += 1;
        rest = after;
        loaded = loaded_with(loaded, line, text.len() - rest.len());
    }
    Ok(Replayed {
        lines,
        len: text.len() - rest.len(),
        loaded: loaded.unwrap_or(0),
    })
}

/// How many bytes the loads have, as far as that is known, once the line was carried out, up to which there are so many.
fn loaded_with(loaded: Option<usize>, line: &[u8], len: usize) -> Option<usize>
    ensures { result ≡ loaded_with loaded line.now len }
{
    match loaded {
        Some(loaded) => Some(loaded),
        None if ends_loads(line) => Some(len),
        None => None,
    }
}

/// Says of which line a fault is.
fn at_line(fault: LineFault, line: usize) -> ReplayFault
    ensures { result ≡ at_line fault line }
{
    match fault {
        LineFault::Damaged => ReplayFault::Damaged { line },
        LineFault::Memory => ReplayFault::Memory { line },
    }
}

/// Carries out one line, unless it is a comment.
fn carry_out<S: AnyStore>(store: &mut S, line: &[u8]) -> Result<(), LineFault>
    ensures carried { (course : Course) → S.is_at store.old course
        → OnOk result ((next : Course) × Leads course line.now next × S.is_at store.new next) }
    ensures fault { (course : Course) → S.is_at store.old course → IfErr result (LineFails course line.now) }
{
    if is_comment(line) {
        return Ok(());
    }
    let Some(asked) = read_line(line) else {
        return Err(LineFault::Damaged);
    };
    let Line::Do(command) = asked else {
        return Err(LineFault::Damaged);
    };
    match store.apply(command) {
        Ok(_) => Ok(()),
        Err(refusal) => Err(fault_of(refusal)),
    }
}

/// A line whose command is refused is damage, unless memory ran out.
fn fault_of(refusal: Refusal) -> LineFault
    ensures { result ≡ fault_of refusal }
{
    match refusal {
        Refusal::Memory => LineFault::Memory,
        Refusal::Busy | Refusal::Idle | Refusal::Range | Refusal::Long | Refusal::Spent => {
            LineFault::Damaged
        }
    }
}
