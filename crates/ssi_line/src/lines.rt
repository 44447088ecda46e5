//! Lines out of a source, without memory.

ghost use Rattle.std.specs.Prelude.{◌≡◌, ℕ, ◌<◌, List, [], ◌++◌, length, true, false, IfOk, OnOk, IsErr};
ghost use Rattle.std.specs.Io.KnownBytes.{Consumes, IsAtEnd, prepend_known};
ghost use Rattle.adya_line.specs.Meaning.Lines.{IsPlain};
ghost use Rattle.devices.specs.Clauses.Lines.{line_end, work_left};
ghost use Rattle.ssi_line.specs.Clauses.Answers.{kept};
ghost use Rattle.ssi_line.specs.Machinery.Lines.{has_ended};

use crate::short_line::ShortLine;
use devices::{LineBuffer, Source, SourceFault};

/// Reads the next line, without its line feed, in place of what `line` held. Returns false if the input ended before a
/// line feed; `SourceFault` if the source failed. Then, too, `line` holds what came after the last line feed. `work_left`
/// falls with each line.
pub(crate) fn next_line<S: Source>(
    buffer: &mut LineBuffer,
    source: &mut S,
    line: &mut ShortLine,
) -> Result<bool, SourceFault>
    ensures bytes { (taken : List ℕ) × IsPlain taken × (line.new ≡ kept taken)
        × Consumes (prepend_known buffer.old (S.remaining source.old))
        (prepend_known buffer.new (S.remaining source.new)) (taken ++ line_end (has_ended result)) }
    ensures end { IfOk result (λ ended. ended ≡ false → (buffer.new ≡ []) × IsAtEnd (S.remaining source.new)) }
    ensures broken { IsErr result → buffer.new ≡ [] }
    ensures less { IfOk result (λ ended. ended ≡ true
        → work_left (S.left source.new) buffer.new < work_left (S.left source.old) buffer.old) }
    ensures fault { IsErr result → S.is_failed source.new ≡ true }
    ensures unfailed { OnOk result (S.is_failed source.new ≡ true → S.is_failed source.old ≡ true) }
    ensures end_works { IfOk result (λ ended. ended ≡ false → S.is_failed source.new ≡ false) }
    ensures stream { S.same source.old source.new }
{
    line.clear();
    loop {
        if take_line(buffer, line) {
            return Ok(true);
        }
        if !buffer.fill(source)? {
            return Ok(false);
        }
    }
}

/// Moves the bytes up to the next line feed to the end of `line`, and drops the line feed. Returns whether there was one.
fn take_line(buffer: &mut LineBuffer, line: &mut ShortLine) -> bool
    ensures moved { (taken : List ℕ) × IsPlain taken × (buffer.old ≡ taken ++ line_end result ++ buffer.new)
        × ((past : List ℕ) → line.old ≡ kept past → line.new ≡ kept (past ++ taken)) }
    ensures all { result ≡ false → buffer.new ≡ [] }
    ensures less { result ≡ true → length buffer.new < length buffer.old }
{
    let (front, ended) = buffer.front();
    line.extend(front);
    let count = front.len();
    buffer.take(count, ended);
    ended
}
