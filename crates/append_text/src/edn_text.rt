//! Histories in EDN.

ghost use Rattle.std.specs.Prelude.{◌≡◌, ◌++◌, List, ℕ, [], map, true, IfOk, IfErr, OnOk};
ghost use Rattle.edn.specs.Meaning.Forms.{Form as Plain};
ghost use Rattle.edn.specs.Meaning.Texts.{HasNotFailed, HasRead};
ghost use Rattle.edn.specs.Meaning.Views.{form_of};
ghost use Rattle.append_text.specs.declared.text_form.TextForm.TheVariants.{Edn};
ghost use Rattle.append_text.specs.Meaning.Data.{parts};
ghost use Rattle.append_text.specs.Meaning.Texts.{IsFaultOf, IsHistoryOf};
ghost use Rattle.append_text.specs.Machinery.Collectors.{HasCollected};
ghost use Rattle.append_text.specs.Machinery.EdnFaults.{IsRefusedListed, IsRefusedForm};

use crate::collector::Collector;
use crate::edn_data::{elements_in, listed_in};
use crate::history::History;
use crate::read_fault::{Place, Problem, ReadFault};
use devices::Source;
use edn::{Form, Reader};
use std::alloc::Global;

/// Reads a history in EDN, of which the reader has read nothing yet.
pub(crate) fn edn_text<S: Source>(
    alloc: Global,
    begun: Reader,
    source: &mut S,
) -> Result<History, ReadFault>
    ensures history { (text : List ℕ) → HasRead text [] begun (S.remaining source.old) → IfOk result (IsHistoryOf text) }
    ensures fault { (text : List ℕ) → HasRead text [] begun (S.remaining source.old) → IfErr result (IsFaultOf text) }
    ensures device { HasNotFailed begun → IfErr result (λ e. e ≡ ReadFault.Device → S.is_failed source.new ≡ true) }
{
    let mut collector = Collector::new(alloc);
    let mut reader = begun;
    while reader.read(source)? {
        take_form(alloc, &mut collector, reader.form(), reader.line())?;
    }
    Ok(collector.finish())
}

/// Takes the operation that the form is, which ends on this line, or those that it lists.
fn take_form(
    alloc: Global,
    collector: &mut Collector,
    form: Form<'_>,
    line: u64,
) -> Result<(), ReadFault>
    ensures taken { OnOk result ((fs : List Plain) → HasCollected Edn fs collector.old
        → HasCollected Edn (fs ++ parts (form_of form.entry)) collector.new) }
    ensures refused { IfErr result (λ e. (fs : List Plain) → HasCollected Edn fs collector.old
        → IsRefusedForm fs (form_of form.entry) line e) }
{
    if let Some(forms) = listed_in(form) {
        return take_listed(collector, elements_in(alloc, forms)?.as_slice());
    }
    match collector.take(form) {
        Ok(()) => Ok(()),
        Err(refusal) => Err(refusal.at(Place::Line(line))),
    }
}

/// Takes the operations of a list.
fn take_listed(collector: &mut Collector, forms: &[Form<'_>]) -> Result<(), ReadFault>
    ensures taken { OnOk result ((fs : List Plain) → HasCollected Edn fs collector.old
        → HasCollected Edn (fs ++ map form_of forms.now) collector.new) }
    ensures refused { IfErr result (λ e. (fs : List Plain) → HasCollected Edn fs collector.old
        → IsRefusedListed fs (map form_of forms.now) e) }
{
    for (place, form) in forms.iter().enumerate() {
        if let Err(refusal) = collector.take(*form) {
            return Err(refusal.at(Place::Element(place as u64)));
        }
    }
    Ok(())
}

impl From<edn::ReadFault> for ReadFault {
    ghost use Rattle.append_text.specs.Machinery.EdnFaults.{of_edn};
    ghost use Rattle.std.specs.Prelude.{◌≡◌};

    ghost from_gives = { λ e r. r ≡ of_edn e };

    fn from(fault: edn::ReadFault) -> ReadFault {
        match fault {
            edn::ReadFault::Syntax { line, problem } => ReadFault::Text {
                place: Place::Line(line),
                problem: Problem::Edn(problem),
            },
            edn::ReadFault::Device => ReadFault::Device,
            edn::ReadFault::Memory => ReadFault::Memory,
        }
    }
}
