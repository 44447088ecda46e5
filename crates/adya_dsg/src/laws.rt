//! Laws of the graph of a history, each proved as the contract of a function that does nothing.

ghost use Rattle.adya_dsg.specs.Laws.{CycleExcludesCertificates, EdgesJoinCommitted, CertifiedIffNoPhenomenon, BadReadExcludesCertificates};

use adya_laws::{accepted_has_no_phenomenon, edge_list_is_exact};
use digraph::{cycle_excludes_order, order_or_cycle_exists};

/// If the graph of a history has a cycle, no order of transactions has each edge go forward (Adya 1999, section
/// 3.1.4).
pub fn cycle_excludes_certificates()
    ensures { CycleExcludesCertificates }
{
    cycle_excludes_order();
}

/// The nodes of the graph are the committed transactions (Adya 1999, section 3.1.4): in a checked history each edge
/// joins two of them.
pub fn edges_join_committed()
    ensures { EdgesJoinCommitted }
{}

/// A well-formed history is accepted with some certificate if and only if it shows none of the phenomena that level
/// PL-3 proscribes: neither G1 nor G2 (Adya 1999, section 3.2).
pub fn certified_iff_no_phenomenon()
    ensures { CertifiedIffNoPhenomenon }
{
    accepted_has_no_phenomenon();
    edge_list_is_exact();
    edges_join_committed();
    order_or_cycle_exists();
}

/// A history with an aborted read (Adya 1999, G1a) or an intermediate read (G1b) shows G1 and is accepted with no
/// certificate. Such a history is refused by the check even if it is well-formed.
pub fn bad_read_excludes_certificates()
    ensures { BadReadExcludesCertificates }
{}
