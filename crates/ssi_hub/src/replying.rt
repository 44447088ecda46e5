//! Carrying out one line.

ghost use Rattle.std.specs.Prelude.{◌≡◌, ℕ, List, [], ◌∷◌};
ghost use Rattle.ssi_line.specs.Meaning.Steps.{Step, IsStepOf};
ghost use Rattle.ssi_line.specs.Clauses.Ends.{WentOn, WentOnLogged};
ghost use Rattle.ssi_line.specs.Clauses.Answers.{kept};
ghost use Rattle.ssi_hub.specs.Machinery.Outcomes.{Replied};

use crate::{CarriedLine, Outcome, Queue};
use devices::Watched;
use ssi_line::{ProtocolStore, carry_out};
use std::alloc::Global;
use std::mem::replace;

/// Carries out one line, and adds its reply to what is to be written.
pub(crate) fn reply<S: ProtocolStore>(
    alloc: Global,
    line: &[u8],
    unsent: &mut Queue,
    store: &mut S,
) -> CarriedLine
    ensures { (step : Step) × ((text : List ℕ) → kept line.now ≡ kept text → IsStepOf S.keeps text step)
        × Replied result step unsent.old unsent.new
        × WentOn S.is_at store.old (step ∷ []) store.new
        × WentOnLogged S.is_at store.old step store.new }
{
    let mut out = Watched::new(replace(unsent, Queue::new(alloc)));
    let carried = carry_out(alloc, Some(line), &mut out, store);
    *unsent = out.into_inner();
    CarriedLine {
        counted: carried.counted,
        outcome: match carried.written {
            Ok(()) if carried.stops => Outcome::Stops,
            Ok(()) => Outcome::GoesOn,
            Err(_) => Outcome::Lost {
                stops: carried.stops,
            },
        },
    }
}
