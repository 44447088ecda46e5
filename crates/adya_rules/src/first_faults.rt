//! The named fault of a history is the first one, and so is the named edge of a certificate. Each law is the contract
//! of a function that does nothing.

ghost use Rattle.adya_rules.specs.Laws.FirstFaults.{WellFormedIffUnbroken, FirstMalformedIsNamed, NamedAbortedReadIsFirst, FirstAbortedReadIsNamed, NamedIntermediateReadIsFirst, FirstIntermediateReadIsNamed, FirstBackwardIsNamed};

/// A history is well-formed exactly if it breaks no rule at any line. Only one direction needs that its orders and
/// finals rise by key, as those of every history do.
pub fn well_formed_iff_unbroken()
    ensures { WellFormedIffUnbroken }
{}

/// A broken rule is named exactly if no rule is broken on an earlier line, and none of a smaller number on its own.
pub fn first_malformed_is_named()
    ensures { FirstMalformedIsNamed }
{}

/// If an aborted read (Adya 1999, G1a) is named, the history is well-formed and this is the first: no line before it
/// has one, nor does a place before it in the list of its event. The first one of a well-formed history is named.
pub fn first_aborted_read_is_named()
    ensures sound { NamedAbortedReadIsFirst }
    ensures exact { FirstAbortedReadIsNamed }
{}

/// If an intermediate read (Adya 1999, G1b) is named, the history is well-formed without aborted reads and this is
/// the first, by line and by place in the list of its event. The first one of such a history is named.
pub fn first_intermediate_read_is_named()
    ensures sound { NamedIntermediateReadIsFirst }
    ensures exact { FirstIntermediateReadIsNamed }
{}

/// An edge is named exactly if it is the first in the list of edges that doesn't go forward in the certificate.
pub fn first_backward_is_named()
    ensures { FirstBackwardIsNamed }
{}
