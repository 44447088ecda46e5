//! Laws of snapshot histories, each proved as the contract of a function that does nothing.

ghost use Rattle.snapshot_histories.specs.Laws.{CyclesAreDangerous, SafeHistoriesHaveNoCycle};

/// Each cycle in the graph of a checked snapshot history holds a dangerous structure, and the transaction at its end is
/// the first of the cycle to commit (Fekete, Liarokapis, O'Neil, O'Neil and Shasha 2005; the commit order as in Ports and
/// Grittner 2012).
pub fn cycles_are_dangerous()
    ensures { CyclesAreDangerous }
{}

/// The graph of a checked snapshot history without a dangerous structure has no cycle.
pub fn safe_histories_have_no_cycle()
    ensures { SafeHistoriesHaveNoCycle }
{}
