//! Reading texts out of sources, line by line.

ghost use Rattle.std.specs.Prelude.{◌≡◌, ◌⊎◌, List, [], ℕ, Some, true, false, IfSome, OnOk, IsErrOf, MatchResult};
ghost use Rattle.std.specs.Io.KnownBytes.{IsAtEnd, prepend_known};
ghost use Rattle.adya_values.specs.Meaning.Histories.{History as Plain};
ghost use Rattle.adya_values.specs.Mirror.Histories.{history_of, serial_txns};
ghost use Rattle.adya_text.specs.Meaning.Texts.{IsHistory, IsSerial, history_text, serial_text};
ghost use Rattle.devices.specs.Clauses.Reading.{TookFewReads};
ghost use Rattle.adya_text.specs.Clauses.Reading.{HasReadLine, IsOfText, ReadsHistory, ReadsSerial, ReadsTexts};
ghost use Rattle.adya_text.specs.Clauses.Streams.{history_part, serial_part};

use crate::history_draft::HistoryDraft;
use crate::line_reader::{Draft, LineReader};
use crate::lines::{Lines, LongLines};
use crate::read_fault::{ReadFault, Text};
use crate::serial_draft::SerialDraft;
use adya_line::is_tail;
use adya_line::laws::{history_lines, serial_lines};
use adya_values::{History, Serial};
use devices::Source;
use std::alloc::Global;

/// Reads the text of a history from all that the source has left. It keeps one line and the history so far. It reads to
/// the end of the input, and stops earlier only after a line that is a syntax fault. Of a first line that has more than 6
/// bytes, and of a line after `end`, it keeps at most 8198; other lines may have any length. Returns `Syntax`
/// exactly if the bytes are the text of no history, with the line of the fault as [`read_history`](crate::read_history)
/// returns it; `Device` if the source failed, `Memory` if memory ran out.
pub fn read_history_from<S: Source>(alloc: Global, source: &mut S) -> Result<History, ReadFault>
    ensures answer { IfSome (S.remaining source.old) (λ text. ReadsHistory text result) }
    ensures only { (h : Plain) → IsHistory h → S.remaining source.old ≡ Some (history_text h) →
        MatchResult result (λ v. history_of v ≡ h) (λ e. (e ≡ ReadFault.Device) ⊎ (e ≡ ReadFault.Memory)) }
    ensures ended { OnOk result (IsAtEnd (S.remaining source.new)) }
    ensures fault { IsErrOf result ReadFault.Device → S.is_failed source.new ≡ true }
    ensures unfailed { (IsErrOf result ReadFault.Device → ⊥) → S.is_failed source.new ≡ S.is_failed source.old }
    ensures works { IsOfText result → S.is_failed source.new ≡ false }
    ensures few { TookFewReads S.remaining S.left source.old source.new 1 }
    ensures line_read { (k : ℕ) → IsErrOf result (ReadFault.Syntax Text.History k)
        → HasReadLine k (S.remaining source.old) (S.remaining source.new) }
    ensures stream { S.same source.old source.new }
{
    history_lines();
    let mut lines = Lines::new();
    let history = HistoryDraft::new(alloc);
    read_rest(alloc, history, &mut lines, source, LongLines::Whole)
}

/// Reads the text of a certificate from all that the source has left. It keeps one line and the certificate so far. It
/// reads to the end of the input, and stops earlier only after a line that is a syntax fault. Of a first line that has
/// more than 8 bytes, of a later one that has more than 10, and of a line after `end`, it keeps at most 8202.
/// Returns `Syntax` exactly if the bytes are the text of no certificate, with the line of the fault as
/// [`read_serial`](crate::read_serial) returns it; `Device` if the source failed, `Memory` if memory ran out.
pub fn read_serial_from<S: Source>(alloc: Global, source: &mut S) -> Result<Serial, ReadFault>
    ensures answer { IfSome (S.remaining source.old) (λ text. ReadsSerial text result) }
    ensures only { (ts : List ℕ) → IsSerial ts → S.remaining source.old ≡ Some (serial_text ts) →
        MatchResult result (λ v. serial_txns v ≡ ts) (λ e. (e ≡ ReadFault.Device) ⊎ (e ≡ ReadFault.Memory)) }
    ensures ended { OnOk result (IsAtEnd (S.remaining source.new)) }
    ensures fault { IsErrOf result ReadFault.Device → S.is_failed source.new ≡ true }
    ensures unfailed { (IsErrOf result ReadFault.Device → ⊥) → S.is_failed source.new ≡ S.is_failed source.old }
    ensures works { IsOfText result → S.is_failed source.new ≡ false }
    ensures few { TookFewReads S.remaining S.left source.old source.new 1 }
    ensures line_read { (k : ℕ) → IsErrOf result (ReadFault.Syntax Text.Serial k)
        → HasReadLine k (S.remaining source.old) (S.remaining source.new) }
    ensures stream { S.same source.old source.new }
{
    serial_lines();
    let mut lines = Lines::new();
    let serial = SerialDraft::new(alloc);
    read_rest(alloc, serial, &mut lines, source, LongLines::Whole)
}

/// Reads the text of a history as [`read_history_from`] does, but reads no further than it needs: a first line of more
/// than 6 bytes is refused before it ends, and so is a line after `end`.
pub fn read_history_early<S: Source>(alloc: Global, source: &mut S) -> Result<History, ReadFault>
    ensures answer { IfSome (S.remaining source.old) (λ text. ReadsHistory text result) }
    ensures only { (h : Plain) → IsHistory h → S.remaining source.old ≡ Some (history_text h) →
        MatchResult result (λ v. history_of v ≡ h) (λ e. (e ≡ ReadFault.Device) ⊎ (e ≡ ReadFault.Memory)) }
    ensures ended { OnOk result (IsAtEnd (S.remaining source.new)) }
    ensures fault { IsErrOf result ReadFault.Device → S.is_failed source.new ≡ true }
    ensures unfailed { (IsErrOf result ReadFault.Device → ⊥) → S.is_failed source.new ≡ S.is_failed source.old }
    ensures works { IsOfText result → S.is_failed source.new ≡ false }
    ensures few { TookFewReads S.remaining S.left source.old source.new 1 }
    ensures stream { S.same source.old source.new }
{
    history_lines();
    let mut lines = Lines::new();
    let history = HistoryDraft::new(alloc);
    read_rest(alloc, history, &mut lines, source, LongLines::Cut)
}

/// Reads the text of a certificate as [`read_serial_from`] does, but reads no further than it needs: a first line of more
/// than 8 bytes is refused before it ends, and so are a later one of more than 10 and a line after `end`.
pub fn read_serial_early<S: Source>(alloc: Global, source: &mut S) -> Result<Serial, ReadFault>
    ensures answer { IfSome (S.remaining source.old) (λ text. ReadsSerial text result) }
    ensures only { (ts : List ℕ) → IsSerial ts → S.remaining source.old ≡ Some (serial_text ts) →
        MatchResult result (λ v. serial_txns v ≡ ts) (λ e. (e ≡ ReadFault.Device) ⊎ (e ≡ ReadFault.Memory)) }
    ensures ended { OnOk result (IsAtEnd (S.remaining source.new)) }
    ensures fault { IsErrOf result ReadFault.Device → S.is_failed source.new ≡ true }
    ensures unfailed { (IsErrOf result ReadFault.Device → ⊥) → S.is_failed source.new ≡ S.is_failed source.old }
    ensures works { IsOfText result → S.is_failed source.new ≡ false }
    ensures few { TookFewReads S.remaining S.left source.old source.new 1 }
    ensures stream { S.same source.old source.new }
{
    serial_lines();
    let mut lines = Lines::new();
    let serial = SerialDraft::new(alloc);
    read_rest(alloc, serial, &mut lines, source, LongLines::Cut)
}

/// Reads the two texts of one stream: a history's, up to and with the first line `end`, and then a certificate's, to
/// the end of the input. If there is no line `end`, all of the stream is the history's. It keeps one line and what the
/// lines before it say, and stops before the end of the input only at a line that is a syntax fault; lines that are too
/// long are refused before they end, as [`read_history_early`] and [`read_serial_early`] do. Returns `Syntax` for the
/// first text as the one does, or else for the second as the other does; `Device` if the source failed, `Memory` if
/// memory ran out.
pub fn read_texts_from<S: Source>(
    alloc: Global,
    source: &mut S,
) -> Result<(History, Serial), ReadFault>
    ensures answer { IfSome (S.remaining source.old) (λ stream. ReadsTexts stream result) }
    ensures ended { OnOk result (IsAtEnd (S.remaining source.new)) }
    ensures fault { IsErrOf result ReadFault.Device → S.is_failed source.new ≡ true }
    ensures unfailed { (IsErrOf result ReadFault.Device → ⊥) → S.is_failed source.new ≡ S.is_failed source.old }
    ensures works { IsOfText result → S.is_failed source.new ≡ false }
    ensures few { TookFewReads S.remaining S.left source.old source.new 1 }
    ensures stream { S.same source.old source.new }
{
    let mut lines = Lines::new();
    let history = read_history_part(alloc, &mut lines, source)?;
    let serial = read_serial_rest(alloc, &mut lines, source)?;
    Ok((history, serial))
}

/// Reads the first text of a stream: the history's, up to and with the first line `end`, or all if there is no such line.
/// The stream is what `lines` holds and then what the source has left; on `Ok` they hold what follows. After a fault
/// nothing is said of what they hold. Faults are those of [`read_history_early`].
fn read_history_part<S: Source>(
    alloc: Global,
    lines: &mut Lines,
    source: &mut S,
) -> Result<History, ReadFault>
    ensures answer { IfSome (prepend_known lines.old (S.remaining source.old))
        (λ stream. ReadsHistory (history_part stream) result) }
    ensures rest { OnOk result (IfSome (prepend_known lines.old (S.remaining source.old))
        (λ stream. prepend_known lines.new (S.remaining source.new) ≡ Some (serial_part stream))) }
    ensures fault { IsErrOf result ReadFault.Device → S.is_failed source.new ≡ true }
    ensures unfailed { (IsErrOf result ReadFault.Device → ⊥) → S.is_failed source.new ≡ S.is_failed source.old }
    ensures works { lines.old ≡ [] → IsOfText result → S.is_failed source.new ≡ false }
    ensures few { TookFewReads S.remaining S.left source.old source.new 1 }
    ensures no_idle { OnOk result (TookFewReads S.remaining S.left source.old source.new 0) }
    ensures stream { S.same source.old source.new }
{
    history_lines();
    let mut reader = LineReader::new(HistoryDraft::new(alloc));
    let mut line = Vec::new(alloc);
    while lines.next_line(source, &mut line, reader.longest_line())? {
        reader.line(&line)?;
        if is_tail(&line) {
            return reader.finish(b"");
        }
        if reader.has_failed() {
            return reader.finish(b"");
        }
    }
    reader.finish(&line)
}

/// Reads the text of a certificate from what `lines` holds and then all that the source has left: the second text of a
/// stream, after [`read_history_part`]. Otherwise it does as [`read_serial_early`].
fn read_serial_rest<S: Source>(
    alloc: Global,
    lines: &mut Lines,
    source: &mut S,
) -> Result<Serial, ReadFault>
    ensures answer { IfSome (prepend_known lines.old (S.remaining source.old)) (λ text. ReadsSerial text result) }
    ensures ended { OnOk result ((lines.new ≡ []) × IsAtEnd (S.remaining source.new)) }
    ensures fault { IsErrOf result ReadFault.Device → S.is_failed source.new ≡ true }
    ensures unfailed { (IsErrOf result ReadFault.Device → ⊥) → S.is_failed source.new ≡ S.is_failed source.old }
    ensures works { lines.old ≡ [] → IsOfText result → S.is_failed source.new ≡ false }
    ensures few { TookFewReads S.remaining S.left source.old source.new 1 }
    ensures stream { S.same source.old source.new }
{
    read_rest(
        alloc,
        SerialDraft::new(alloc),
        lines,
        source,
        LongLines::Cut,
    )
}

/// Feeds a reader with the lines of what `lines` holds and then of what the source has left, and returns its result.
fn read_rest<S: Source, D: Draft>(
    alloc: Global,
    draft: D,
    lines: &mut Lines,
    source: &mut S,
    long: LongLines,
) -> Result<D::Value, ReadFault>
    requires { D.has_lines draft [] }
    ensures answer { IfSome (prepend_known lines.old (S.remaining source.old)) (λ text. D.reads text result) }
    ensures ended { OnOk result ((lines.new ≡ []) × IsAtEnd (S.remaining source.new)) }
    ensures fault { IsErrOf result ReadFault.Device → S.is_failed source.new ≡ true }
    ensures unfailed { (IsErrOf result ReadFault.Device → ⊥) → S.is_failed source.new ≡ S.is_failed source.old }
    ensures works { lines.old ≡ [] → IsOfText result → S.is_failed source.new ≡ false }
    ensures few { TookFewReads S.remaining S.left source.old source.new 1 }
    ensures line_read { long ≡ LongLines.Whole → lines.old ≡ [] → (k : ℕ) → IsErrOf result (ReadFault.Syntax D.TEXT k)
        → HasReadLine k (S.remaining source.old) (S.remaining source.new) }
    ensures stream { S.same source.old source.new }
{
    let mut reader = LineReader::new(draft);
    let mut line = Vec::new(alloc);
    loop {
        let longest = reader.longest_line();
        if !lines.next_line(source, &mut line, longest)? {
            lines.pass_over(source, &line, longest, long)?;
            return reader.finish(&line);
        }
        reader.line(&line)?;
        if reader.has_failed() {
            return reader.finish(b"");
        }
    }
}
