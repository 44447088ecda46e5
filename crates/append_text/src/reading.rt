//! Reading histories.

ghost use Rattle.std.specs.Prelude.{◌≡◌, true, List, ℕ, Some, IfOk, IfErr};
ghost use Rattle.append_text.specs.Meaning.Notations.{after_mark, notation_in};
ghost use Rattle.append_text.specs.Meaning.JsonTexts.{IsFaultIn, IsHistoryIn, IsJsonFaultOf, IsJsonHistoryOf};
ghost use Rattle.append_text.specs.Meaning.Texts.{IsFaultOf, IsHistoryOf};

use crate::buffer::Buffer;
use crate::edn_text::edn_text;
use crate::history::History;
use crate::json_text::json_text;
use crate::read_fault::ReadFault;
use crate::text_form::TextForm;
use devices::Source;
use edn::Reader;
use std::alloc::Global;

/// Reads a history from all that the source has left, in JSON if its first map has a string as its first key, else in
/// EDN. `Text` with the place if the text is that of no history, `Device` if the source failed, `Memory` if memory ran
/// out. The first 8192 bytes tell EDN from JSON. A byte order mark at the front is passed over, here as in the other two
/// calls.
pub fn read_history<S: Source>(alloc: Global, source: &mut S) -> Result<History, ReadFault>
    ensures history { (text : List ℕ) → S.remaining source.old ≡ Some text → IfOk result (IsHistoryIn (notation_in (after_mark text)) (after_mark text)) }
    ensures fault { (text : List ℕ) → S.remaining source.old ≡ Some text → IfErr result (IsFaultIn (notation_in (after_mark text)) (after_mark text)) }
    ensures device { IfErr result (λ e. e ≡ ReadFault.Device → S.is_failed source.new ≡ true) }
{
    let mut buffer = Buffer::new();
    buffer.skip_mark(source)?;
    match buffer.form(source)? {
        TextForm::Edn => edn_text(alloc, Reader::after(alloc, buffer.pending())?, source),
        TextForm::Json => json_text(alloc, &mut buffer, source),
    }
}

/// Reads a history in EDN from all that the source has left: operations one after another, or one vector of them.
/// `Text` with the line if the text is that of no history, `Device` if the source failed, `Memory` if memory ran out.
/// If a history is returned, the whole text is one of EDN.
pub fn read_edn<S: Source>(alloc: Global, source: &mut S) -> Result<History, ReadFault>
    ensures history { (text : List ℕ) → S.remaining source.old ≡ Some text → IfOk result (IsHistoryOf (after_mark text)) }
    ensures fault { (text : List ℕ) → S.remaining source.old ≡ Some text → IfErr result (IsFaultOf (after_mark text)) }
    ensures device { IfErr result (λ e. e ≡ ReadFault.Device → S.is_failed source.new ≡ true) }
{
    let mut buffer = Buffer::new();
    buffer.skip_mark(source)?;
    edn_text(alloc, Reader::after(alloc, buffer.pending())?, source)
}

/// Reads a history in JSON from all that the source has left: one operation a line, or one value that has all of them.
/// It is one value if the text begins with `[`, for an array of them, or with `{"history"`, for an object that has that
/// array as its `history`; the first 8192 bytes decide. `Text` with the line, or with the place in the array, if the text
/// is that of no history, `Device` if the source failed, `Memory` if memory ran out. If a history is returned, each line
/// that isn't blank is a text of JSON, or the whole text is one.
pub fn read_json<S: Source>(alloc: Global, source: &mut S) -> Result<History, ReadFault>
    ensures history { (text : List ℕ) → S.remaining source.old ≡ Some text → IfOk result (IsJsonHistoryOf (after_mark text)) }
    ensures fault { (text : List ℕ) → S.remaining source.old ≡ Some text → IfErr result (IsJsonFaultOf (after_mark text)) }
    ensures device { IfErr result (λ e. e ≡ ReadFault.Device → S.is_failed source.new ≡ true) }
{
    let mut buffer = Buffer::new();
    buffer.skip_mark(source)?;
    json_text(alloc, &mut buffer, source)
}
