//! When a verdict is yes, and what that implies. Each law is the contract of a function that does nothing.

ghost use Rattle.adya_audit.specs.Laws.Verdicts.{YesIffAccepted, AcceptedIsSerializable, NotTheCommittedIffUnlisted};
ghost use Rattle.adya_audit.specs.Laws.Texts.{YesIffTextsAccepted, AcceptedTextsGetYes, AcceptedTextsAreSerializable, AcceptedHaveTexts};

use adya_laws::{accepted_agrees, accepted_has_no_phenomenon, accepted_iff_forward};
use adya_terms::laws::checked_iff_no_fault;
use adya_text::laws::{fault_lines, history_texts, serial_texts};

/// The verdict on a history and a certificate is yes if and only if they are accepted.
pub fn yes_iff_accepted()
    ensures { YesIffAccepted }
{
    checked_iff_no_fault();
    accepted_iff_forward();
}

/// The verdict is `NotTheCommitted` if and only if the history passes its check, and the certificate doesn't list each
/// committed transaction once and no other.
pub fn not_the_committed_iff_unlisted()
    ensures { NotTheCommittedIffUnlisted }
{
    checked_iff_no_fault();
}

/// An accepted history has neither G1 nor G2 (Adya 1999, section 3.2). Its committed transactions, run serially in the
/// certificate's order, give all reads and scans that it records, and its final contents.
pub fn accepted_is_serializable()
    ensures { AcceptedIsSerializable }
{
    accepted_has_no_phenomenon();
    accepted_agrees();
}

/// The verdict on two texts is yes if and only if they are the texts of an accepted history and certificate.
pub fn yes_iff_texts_accepted()
    ensures { YesIffTextsAccepted }
{
    yes_iff_accepted();
    history_texts();
    serial_texts();
    fault_lines();
}

/// Yes is a verdict on accepted texts, and by [`yes_iff_texts_accepted`] the only one.
pub fn accepted_texts_get_yes()
    ensures { AcceptedTextsGetYes }
{
    yes_iff_accepted();
}

/// If texts are accepted, the history is serializable in the order of the certificate.
pub fn accepted_texts_are_serializable()
    ensures { AcceptedTextsAreSerializable }
{
    accepted_is_serializable();
}

/// If a history with a text is accepted with a certificate, the certificate has a text too, and both texts are accepted.
pub fn accepted_have_texts()
    ensures { AcceptedHaveTexts }
{}
