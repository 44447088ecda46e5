//! What all of this is for: a law about the verdict yes; a run of the store whose texts are audited at once, and whose
//! contract says that the verdict is yes, whatever the command lines are; and what `lists` answers to a text.
#![tactic(auto)]

ghost use Rattle.std.specs.Prelude.{◌≡◌, ◌⊎◌, ℕ, List, true, IfOk};
ghost use Rattle.adya_audit.specs.Computing.Verdicts.{plain_verdict};
ghost use Rattle.adya_audit.specs.Clauses.TextVerdicts.{IsVerdictOn};
ghost use Rattle.headline.specs.Headline.{GetsYes, YesMeansSerializable};

mod lists;
#[cfg(test)]
mod tests;

use adya_audit::laws::{
    accepted_texts_are_serializable, accepted_texts_get_yes, yes_iff_texts_accepted,
};
use adya_audit::{Verdict, run_audit};
use devices::Watched;
pub use lists::{ListAnswer, ListFault, answered_list};
use ssi_cli::run_script;
use ssi_line::End;
use std::alloc::{AllocError, Global};

/// Whenever the verdict on a history text and a certificate text is yes, the history shows neither G1 nor G2, and its
/// committed transactions, run one at a time in the certificate's order, give every recorded read, every scan and the final
/// contents (Adya 1999, sections 3.1 and 3.2).
pub fn yes_means_serializable()
    ensures { YesMeansSerializable }
{
    yes_iff_texts_accepted();
    accepted_texts_are_serializable();
}

/// What a run of the store leaves.
#[derive(Drop)]
pub struct Left {
    /// The replies to the command lines.
    pub replies: Vec<u8>,
    /// The text of the history.
    pub history: Vec<u8>,
    /// The text of its certificate.
    pub certificate: Vec<u8>,
}

/// Carries out the command lines of `input` on a new store. The history that this leaves records the replies and gets the
/// verdict yes with its certificate, whatever the lines are. `AllocError` if memory runs out; nothing else can fail, since
/// all devices are in memory.
pub fn certified_run(alloc: Global, input: &[u8]) -> Result<Left, AllocError>
    ensures { IfOk result (λ left. GetsYes input.now left.replies.items left.history.items left.certificate.items) }
{
    accepted_texts_get_yes();
    let mut replies = Watched::new(Vec::new(alloc));
    let mut history = Watched::new(Vec::new(alloc));
    let mut certificate = Watched::new(Vec::new(alloc));
    let mut reader = Watched::new(input);
    let run = run_script(
        alloc,
        &mut reader,
        &mut replies,
        &mut history,
        &mut certificate,
    );
    let Ok(end) = run else {
        return Err(AllocError);
    };
    let fine = is_fine(end);
    if !fine {
        return Err(AllocError);
    }
    Ok(Left {
        replies: replies.into_inner(),
        history: history.into_inner(),
        certificate: certificate.into_inner(),
    })
}

/// Returns whether no device ended the run.
fn is_fine(end: End) -> bool
    ensures { result ≡ true → (end ≡ End.Eof) ⊎ (end ≡ End.Stop) }
{
    match end {
        End::Eof | End::Stop => true,
        End::ReadFault | End::WriteFault => false,
    }
}

/// Audits what a run of the store left, and returns the verdict; `AllocError` if memory runs out.
pub fn audited(alloc: Global, left: &Left) -> Result<Verdict, AllocError>
    ensures verdict { IfOk result (λ v. IsVerdictOn left.now.history.items left.now.certificate.items (plain_verdict v)) }
    ensures yes { (input : List ℕ) → GetsYes input left.now.replies.items left.now.history.items left.now.certificate.items
        → IfOk result (λ v. v ≡ Verdict.Yes) }
{
    yes_iff_texts_accepted();
    let mut history = Watched::new(left.history.as_slice());
    let mut certificate = Watched::new(left.certificate.as_slice());
    match run_audit(
        alloc,
        &mut history,
        &mut certificate,
        &mut Watched::new(Vec::new(alloc)),
    ) {
        Ok(verdict) => Ok(verdict),
        Err(_) => Err(AllocError),
    }
}
