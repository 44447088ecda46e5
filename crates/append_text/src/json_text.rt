//! Histories in JSON.

ghost use Rattle.std.specs.Prelude.{◌≡◌, ◌≢◌, ◌⊎◌, true, ℕ, List, ◌++◌, map, option_map, IfOk, IfErr, OnOk};
ghost use Rattle.edn.specs.Meaning.Forms.{Form as Plain};
ghost use Rattle.serde_json.specs.Errors.{IsMemory};
ghost use Rattle.serde_json.specs.View.{items_view, view};
ghost use Rattle.append_text.specs.Meaning.Json.{form_of};
ghost use Rattle.append_text.specs.Meaning.JsonTexts as Spec;
ghost use Rattle.append_text.specs.Meaning.Lines.{lines};
ghost use Rattle.append_text.specs.Meaning.Texts.{IsHistory};
ghost use Rattle.append_text.specs.Machinery.BufferTexts.{HasLeft};
ghost use Rattle.append_text.specs.Machinery.Collectors.{HasCollected};
ghost use Rattle.append_text.specs.Machinery.JsonReading.{AreRefusedLines, IsRefusedValue, IsRefusedElement, IsRefusedLine};

use crate::buffer::Buffer;
use crate::collector::Collector;
use crate::history::History;
use crate::read_fault::{Place, Problem, ReadFault};
use crate::text_form::{TextForm, after_blanks, begins_value};
use devices::Source;
use serde_json::Value;
use std::alloc::Global;

/// Reads a history in JSON from what the buffer holds and then what the source has left: the elements of one value if it
/// begins so, else one operation a line.
pub(crate) fn json_text<S: Source>(
    alloc: Global,
    buffer: &mut Buffer,
    source: &mut S,
) -> Result<History, ReadFault>
    ensures history { (text : List ℕ) → buffer.old.start ≡ 0 → HasLeft buffer.old (S.remaining source.old) text
        → IfOk result (Spec.IsJsonHistoryOf text) }
    ensures fault { (text : List ℕ) → buffer.old.start ≡ 0 → HasLeft buffer.old (S.remaining source.old) text
        → IfErr result (Spec.IsJsonFaultOf text) }
    ensures device { IfErr result (λ e. e ≡ ReadFault.Device → S.is_failed source.new ≡ true) }
{
    buffer.fill_up(source)?;
    if begins_value(buffer.pending()) {
        return json_value(alloc, buffer, source);
    }
    json_lines(alloc, buffer, source)
}

/// Reads a history of one value.
fn json_value<S: Source>(
    alloc: Global,
    buffer: &mut Buffer,
    source: &mut S,
) -> Result<History, ReadFault>
    ensures history { (text : List ℕ) → HasLeft buffer.old (S.remaining source.old) text
        → IfOk result (λ h. (fs : List Plain) × Spec.IsValue text fs × IsHistory TextForm.Json fs h) }
    ensures fault { (text : List ℕ) → HasLeft buffer.old (S.remaining source.old) text
        → IfErr result (IsRefusedValue text) }
    ensures device { IfErr result (λ e. e ≡ ReadFault.Device → S.is_failed source.new ≡ true) }
{
    let mut text = Vec::new(alloc);
    buffer.read_to_end(source, &mut text)?;
    let value = match Value::from_slice(alloc, &text) {
        Ok(value) => value,
        Err(error) => return Err(from_json(&error, error.line() as u64)),
    };
    let Some(values) = elements_in(&value) else {
        return Err(ReadFault::Text {
            place: Place::Line(1),
            problem: Problem::Json,
        });
    };
    history_of(alloc, values.as_slice())
}

/// Returns the elements of an array, or of the one that an object has as its `history`.
fn elements_in(value: &Value) -> Option<&Vec<Value>>
    ensures { option_map (λ v. items_view v.now.items) result ≡ Spec.elements_in (view value.now) }
{
    match value.as_array() {
        Some(values) => Some(values),
        None => match value.get("history") {
            Some(found) => found.as_array(),
            None => None,
        },
    }
}

/// Reads the history of the values.
fn history_of(alloc: Global, values: &[Value]) -> Result<History, ReadFault>
    ensures history { IfOk result (IsHistory TextForm.Json (map (λ v. form_of (view v)) values.now)) }
    ensures fault { IfErr result (IsRefusedElement (map (λ v. form_of (view v)) values.now)) }
    ensures no_device { IfErr result (λ e. e ≢ ReadFault.Device) }
{
    let mut collector = Collector::new(alloc);
    for (place, value) in values.iter().enumerate() {
        if let Err(refusal) = collector.take(value) {
            return Err(refusal.at(Place::Element(place as u64)));
        }
    }
    Ok(collector.finish())
}

/// Reads a history of one operation a line.
fn json_lines<S: Source>(
    alloc: Global,
    buffer: &mut Buffer,
    source: &mut S,
) -> Result<History, ReadFault>
    ensures history { (text : List ℕ) → HasLeft buffer.old (S.remaining source.old) text
        → IfOk result (λ h. (fs : List Plain) × Spec.AreLines (lines text) fs × IsHistory TextForm.Json fs h) }
    ensures fault { (text : List ℕ) → HasLeft buffer.old (S.remaining source.old) text
        → IfErr result (AreRefusedLines text) }
    ensures device { IfErr result (λ e. e ≡ ReadFault.Device → S.is_failed source.new ≡ true) }
{
    let mut collector = Collector::new(alloc);
    let mut line = Vec::new(alloc);
    let mut number = 0u64;
    while buffer.next_line(source, &mut line)? {
        number = number.saturating_add(1);
        take_line(alloc, &mut collector, &line, number)?;
    }
    Ok(collector.finish())
}

/// Takes the operation of the line of this number, unless the line is blank.
fn take_line(
    alloc: Global,
    collector: &mut Collector,
    line: &[u8],
    number: u64,
) -> Result<(), ReadFault>
    ensures taken { OnOk result ((fs : List Plain) → HasCollected TextForm.Json fs collector.old
        → (gs : List Plain) × Spec.IsLine line.now gs × HasCollected TextForm.Json (fs ++ gs) collector.new) }
    ensures refused { IfErr result (λ e. (fs : List Plain) → HasCollected TextForm.Json fs collector.old
        → IsRefusedLine number fs line.now e) }
    ensures no_device { IfErr result (λ e. e ≢ ReadFault.Device) }
{
    if after_blanks(line).is_empty() {
        return Ok(());
    }
    let value = match Value::from_slice(alloc, line) {
        Ok(value) => value,
        Err(error) => return Err(from_json(&error, number)),
    };
    match collector.take(&value) {
        Ok(()) => Ok(()),
        Err(refusal) => Err(refusal.at(Place::Line(number))),
    }
}

/// Returns the fault of a text that is none of JSON, on this line.
fn from_json(error: &serde_json::Error, line: u64) -> ReadFault
    ensures { (IsMemory error.now × (result ≡ ReadFault.Memory))
        ⊎ (¬ IsMemory error.now × (result ≡ ReadFault.Text (Place.Line line) Problem.Json)) }
{
    if error.is_memory() {
        return ReadFault::Memory;
    }
    ReadFault::Text {
        place: Place::Line(line),
        problem: Problem::Json,
    }
}
