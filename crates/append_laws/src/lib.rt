//! Laws of list-append histories, each proved as the contract of a function that does nothing.
#![tactic(auto)]

ghost use Rattle.append_laws.specs.Laws.Explanations.{ReasonsRefute, ReadsShowWhatCameBefore, PrecedencesAreNecessary, CyclesRefute, ExplainsExactly, UnwrittenRefutes, IncompatibleRefutes, InternalRefutes, FutureRefutes, TwiceRefutes, IntermediateRefutes, UnrepeatableRefutes, ForkRefutes, BrokenBlocks};
ghost use Rattle.append_laws.specs.Laws.Links.{LinksSuffice, LinksExplain, LinksArePrecedences, LinesExist};

use digraph::cycle_excludes_order;

/// A read returned what the transactions before its own in an order that explains the history appended to the key, and
/// then what its own transaction had appended so far.
pub fn reads_show_what_came_before()
    ensures { ReadsShowWhatCameBefore }
{}

/// Each order that explains a history respects all of its precedences.
pub fn precedences_are_necessary()
    ensures { PrecedencesAreNecessary }
{}

/// No order explains a history whose precedences form a cycle.
pub fn cycles_refute()
    ensures { CyclesRefute }
{
    cycle_excludes_order();
}

/// No order explains a history with a read of an element that nobody appended, or only aborted transactions.
pub fn unwritten_refutes()
    ensures { UnwrittenRefutes }
{}

/// No order explains a history with two reads of one key of which neither begins with the other.
pub fn incompatible_refutes()
    ensures { IncompatibleRefutes }
{}

/// No order explains a history with a read that doesn't end with its transaction's own appends.
pub fn internal_refutes()
    ensures { InternalRefutes }
{}

/// No order explains a history with a read of an element that its own transaction appends later.
pub fn future_refutes()
    ensures { FutureRefutes }
{}

/// No order explains a history with a read of an element twice.
pub fn twice_refutes()
    ensures { TwiceRefutes }
{}

/// No order explains a history with a read of a part of what another transaction appended.
pub fn intermediate_refutes()
    ensures { IntermediateRefutes }
{}

/// No order explains a history with a second read of a key that returned something else.
pub fn unrepeatable_refutes()
    ensures { UnrepeatableRefutes }
{}

/// An order explains a history exactly if it lists the right transactions and respects all precedences, and all reads
/// are whole.
pub fn explains_exactly()
    ensures { ExplainsExactly }
{}

/// An order that goes forward along the few links of a checker respects all precedences.
pub fn links_suffice()
    ensures { LinksSuffice }
{}

/// An order that goes forward along the few links of a checker, and lists the right transactions, explains the history.
pub fn links_explain()
    ensures { LinksExplain }
{}

/// Each link of a checker is a precedence, and so is each way through the end of a line.
pub fn links_are_precedences()
    ensures { LinksArePrecedences }
{}

/// No order explains a history with two transactions that left lists of one key of which neither begins with the other.
pub fn fork_refutes()
    ensures { ForkRefutes }
{}

/// A key whose reads are whole has a line of writers, if one transaction left the longest list.
pub fn lines_exist()
    ensures { LinesExist }
{}

/// Where a scan of a read finds no whole block, there is none anywhere in the read.
pub fn broken_blocks()
    ensures { BrokenBlocks }
{}

/// No order explains a history that has a reason against it, if no element is appended twice to the list of a key.
pub fn reasons_refute()
    ensures { ReasonsRefute }
{}
