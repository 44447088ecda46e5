//! Reading whole texts.

ghost use Rattle.std.specs.Prelude.{◌≡◌, List, [], ℕ, MatchResult, IsErrOf};
ghost use Rattle.adya_values.specs.Meaning.Histories.{History as Plain};
ghost use Rattle.adya_values.specs.Mirror.Histories.{history_of, serial_txns};
ghost use Rattle.adya_text.specs.Meaning.Texts.{IsHistory, IsSerial, history_text, serial_text};
ghost use Rattle.adya_text.specs.Clauses.Reading.{ReadsHistory, ReadsSerial};

use crate::history_draft::HistoryDraft;
use crate::line_reader::{Draft, LineReader};
use crate::read_fault::ReadFault;
use crate::serial_draft::SerialDraft;
use adya_line::laws::{history_lines, serial_lines};
use adya_values::{History, Serial};
use memchr::memchr;
use std::alloc::Global;

/// Reads the text of a history. Returns `Syntax` exactly if the text is that of no history, with the line of the fault:
/// the first one that is missing, or with which the lines so far begin no history text. `Memory` if memory ran out.
pub fn read_history(alloc: Global, text: &[u8]) -> Result<History, ReadFault>
    ensures answer { ReadsHistory text.now result }
    ensures no_device { IsErrOf result ReadFault.Device → ⊥ }
    ensures only { (h : Plain) → IsHistory h → text.now ≡ history_text h →
        MatchResult result (λ v. history_of v ≡ h) (λ e. e ≡ ReadFault.Memory) }
{
    history_lines();
    read_lines(HistoryDraft::new(alloc), text)
}

/// Reads the text of a certificate. Returns `Syntax` exactly if the text is that of no certificate, with the line of the
/// fault: the first one that is missing, or with which the lines so far begin no certificate text. `Memory` if memory
/// ran out.
pub fn read_serial(alloc: Global, text: &[u8]) -> Result<Serial, ReadFault>
    ensures answer { ReadsSerial text.now result }
    ensures no_device { IsErrOf result ReadFault.Device → ⊥ }
    ensures only { (ts : List ℕ) → IsSerial ts → text.now ≡ serial_text ts →
        MatchResult result (λ v. serial_txns v ≡ ts) (λ e. e ≡ ReadFault.Memory) }
{
    serial_lines();
    read_lines(SerialDraft::new(alloc), text)
}

/// Feeds a reader with the lines of the text, and returns its result.
fn read_lines<D: Draft>(draft: D, text: &[u8]) -> Result<D::Value, ReadFault>
    requires { D.has_lines draft [] }
    ensures answer { D.reads text.now result }
    ensures no_device { IsErrOf result ReadFault.Device → ⊥ }
{
    let mut reader = LineReader::new(draft);
    let mut rest = text;
    'lines: while let Some(at) = memchr(b'\n', rest) {
        reader.line(&rest[..at])?;
        rest = &rest[at + 1..];
    }
    reader.finish(rest)
}
