//! The list of faults is empty exactly for checked histories. The law is the contract of a function that does nothing.

ghost use Rattle.adya_rules.specs.Laws.Faults.{CheckedIfNoFault, CheckedIffNoFault};

/// A history has no fault exactly if it is well-formed without aborted and intermediate reads (Adya 1999, G1a and
/// G1b). That a history without faults is checked holds whatever its shape. The other direction needs that its orders
/// and finals rise by key, as those of every [`History`](adya_values::History) do.
pub fn checked_iff_no_fault()
    ensures sound { CheckedIfNoFault }
    ensures exact { CheckedIffNoFault }
{}
