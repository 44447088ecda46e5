//! Laws of directed graphs, each proved as the contract of a function that does nothing.

ghost use Rattle.digraph.specs.Laws.{CycleExcludesOrder, OrderOrCycleExists};

/// If arcs form a cycle, no list of nodes has each of them go forward.
pub fn cycle_excludes_order()
    ensures { CycleExcludesOrder }
{}

/// Each graph has a topological order or a cycle.
pub fn order_or_cycle_exists()
    ensures { OrderOrCycleExists }
{}
