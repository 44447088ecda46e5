//! What `lists` answers to a text in memory.

ghost use Rattle.std.specs.Prelude.{ℕ, List, IfOk, IfErr};
ghost use Rattle.append_text.specs.declared.text_form.TextForm.{TextForm as Notation};
ghost use Rattle.append_text.specs.Meaning.Notations.{after_mark};
ghost use Rattle.lists_cli.specs.Clauses.Faults.{IsRefusal};
ghost use Rattle.lists_cli.specs.Meaning.Answers.{notation_for};
ghost use Rattle.headline.specs.Headline.{IsListAnswer, IsListFault};

use append_text::{Place, Problem, TextForm};
use devices::Watched;
use lists_cli::{Fault, Shape, judge};
use std::alloc::Global;

/// What `lists` writes of a text.
#[derive(Drop)]
pub struct ListAnswer {
    /// The answer, in words.
    pub answer: Vec<u8>,
    /// The order that explains the history, if one does: the index of each transaction, one a line.
    pub order: Vec<u8>,
}

/// Why a text in memory gets no answer.
#[derive(Clone, Copy, Debug, PartialEq, Eq)]
pub enum ListFault {
    /// The text is that of no history.
    Text {
        /// Where it is at fault.
        place: Place,
        /// What is wrong there.
        problem: Problem,
    },
    /// The history has 2,147,483,648 transactions or more.
    Many,
    /// Memory ran out.
    Memory,
}

/// Answers whether an order explains the list-append history that a text says. The text is in this notation, or else in the
/// one that its first bytes tell. What a fault blames on the text is there; otherwise memory ran out, and nothing else can fail, since all
/// devices are in memory.
pub fn answered_list(
    alloc: Global,
    form: Option<TextForm>,
    text: &[u8],
) -> Result<ListAnswer, ListFault>
    ensures answer { IfOk result (λ a. IsListAnswer (notation_for form (after_mark text.now)) (after_mark text.now) a.answer.items a.order.items) }
    ensures refused { IfErr result (IsListFault (notation_for form (after_mark text.now)) (after_mark text.now)) }
{
    let mut source = Watched::new(text);
    let mut order = Watched::new(Vec::new(alloc));
    let mut drawing = Watched::new(Vec::new(alloc));
    let mut out = Watched::new(Vec::new(alloc));
    match judge(
        alloc,
        &mut source,
        form,
        Shape::Words,
        &mut order,
        &mut drawing,
        &mut out,
    ) {
        Ok(_) => Ok(ListAnswer {
            answer: out.into_inner(),
            order: order.into_inner(),
        }),
        Err(fault) => Err(in_memory(fault)),
    }
}

/// The fault of a run whose devices are in memory: what isn't blamed on the text is that memory ran out.
fn in_memory(fault: Fault) -> ListFault
    ensures { (n : Notation) (text : List ℕ) → IsRefusal n text fault → IsListFault n text result }
{
    match fault {
        Fault::Text { place, problem } => ListFault::Text { place, problem },
        Fault::Many => ListFault::Many,
        Fault::Read | Fault::Order | Fault::Drawing | Fault::Write | Fault::Memory => {
            ListFault::Memory
        }
    }
}
