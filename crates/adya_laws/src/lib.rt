//! What acceptance of a history and a certificate implies: laws of the definitions, each proved as the contract of a
//! function that does nothing.
#![tactic(auto)]

ghost use Rattle.adya_laws.specs.Laws.{EdgeListIsExact, EdgeListIsDistinct, EdgeListKeepsFirst, AcceptedHasNoPhenomenon, AcceptedIffForward, AcceptedAgrees, SelectedIsInstalled};

pub use adya_rules::first_faults;

/// The list of edges holds exactly the edges of the direct serialization graph (Adya 1999, section 3.1.4).
pub fn edge_list_is_exact()
    ensures { EdgeListIsExact }
{}

/// The list of edges has no edge twice.
pub fn edge_list_is_distinct()
    ensures { EdgeListIsDistinct }
{}

/// The first edge of the list that passes a test is the first dependency that passes it.
pub fn edge_list_keeps_first()
    ensures { EdgeListKeepsFirst }
{}

/// An accepted history has none of the phenomena that level PL-3 rules out: neither G1 (aborted reads, intermediate
/// reads, circular information flow) nor G2, a cycle with an anti-dependency (Adya 1999, section 3.2).
pub fn accepted_has_no_phenomenon()
    ensures { AcceptedHasNoPhenomenon }
{}

/// A checked history is accepted with a certificate exactly if the certificate lists each committed transaction once
/// and no other, and no edge goes backward in it.
pub fn accepted_iff_forward()
    ensures { AcceptedIffForward }
{}

/// Running the transactions of an accepted history one after the other, in the certificate's order on an initially
/// empty map, reproduces every recorded read, every scan and the final contents. The law asks that the orders and the
/// finals rise by key, which the constructor of a history ensures.
pub fn accepted_agrees()
    ensures { AcceptedAgrees }
{}

/// In a checked history a committed transaction selects of a key either the unborn version or one of the key's
/// version order (Adya 1999, section 3.1.2).
pub fn selected_is_installed()
    ensures { SelectedIsInstalled }
{}
