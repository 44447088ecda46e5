//! A history from its operations.

ghost use Rattle.std.specs.Prelude.{◌++◌, ◌∷◌, [], List, IfErr, OnOk};
ghost use Rattle.edn.specs.Meaning.Forms.{Form as Plain};
ghost use Rattle.append_text.specs.declared.text_form.TextForm.{TextForm};
ghost use Rattle.append_text.specs.Meaning.Texts.{IsHistory};
ghost use Rattle.append_text.specs.Machinery.Collectors.{HasCollected, IsRefusedAfter};

use crate::data::Data;
use crate::history::{History, PassedOver};
use crate::name::Names;
use crate::operation::{is_of_txn, operation};
use crate::pairing::Pairing;
use crate::read_fault::Refusal;
use std::alloc::Global;

/// Takes the operations of a text, one after another.
#[derive(Drop)]
pub(crate) struct Collector {
    alloc: Global,
    names: Names,
    pairing: Pairing,
    /// How many operations were taken, and how many of them are no transaction's.
    taken: u64,
    passed_over: PassedOver,
}

impl Collector {
    /// A collector of no operations.
    pub(crate) fn new(alloc: Global) -> Collector
        ensures { (notation : TextForm) → HasCollected notation [] result }
    {
        Collector {
            alloc,
            names: Names::new(alloc),
            pairing: Pairing::new(alloc),
            taken: 0,
            passed_over: PassedOver::new(),
        }
    }

    /// Takes the next operation.
    pub(crate) fn take<'a, D: Data<'a>>(&mut self, datum: D) -> Result<(), Refusal>
        ensures taken { OnOk result ((forms : List Plain) → HasCollected D.notation forms self.old
            → HasCollected D.notation (forms ++ D.form datum ∷ []) self.new) }
        ensures refused { IfErr result (λ e. (forms : List Plain) → HasCollected D.notation forms self.old
            → IsRefusedAfter D.notation forms (D.form datum) e) }
    {
        let op = operation(self.alloc, &mut self.names, self.taken, datum)?;
        self.taken = self.taken.saturating_add(1);
        match op {
            Some(op) => self.pairing.take(op),
            None => {
                self.passed_over.count(is_of_txn(datum));
                Ok(())
            }
        }
    }

    /// Returns the history of the operations.
    pub(crate) fn finish(self) -> History
        ensures { (notation : TextForm) (forms : List Plain) → HasCollected notation forms self
            → IsHistory notation forms result }
    {
        self.pairing.finish(self.names, self.passed_over)
    }
}
