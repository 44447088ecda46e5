//! Histories that passed their check, and the check itself.

ghost use Rattle.std.specs.Prelude.{◌≡◌, ◌≢◌, ◌^◌, ◌<◌, ◌+◌, [], true, None, length, map, is_none, is_some, IfOk, IfErr, MatchResult};
ghost use Rattle.adya_keys.specs.Meaning.Keys.{keys_rise};
ghost use Rattle.adya_keys.specs.Machinery.Indices.{indices_in};
ghost use Rattle.adya_values.specs.Mirror.Events.{events_of};
ghost use Rattle.adya_values.specs.Mirror.Lines.{finals_of, orders_of};
ghost use Rattle.adya_values.specs.Mirror.Histories.{history_of};
ghost use Rattle.adya_values.specs.Mirror.Numbers.{keys_of};
ghost use Rattle.adya_values.specs.Meaning.Events.{is_committed, shown};
ghost use Rattle.adya_values.specs.Computing.Faults.{first_fault, check_faults};
ghost use Rattle.adya_values.specs.Clauses.Acceptance.{IsChecked};
ghost use Rattle.adya_terms.specs.Clauses.Faults.{IsFault};
ghost use Rattle.adya_terms.specs.Machinery.EventIndex.{indexed, keys_in, last_in, unfinished_in};
ghost use Rattle.adya_terms.specs.Machinery.EventIndex as tables;
ghost use Rattle.adya_terms.specs.Mirror.LineNumbers.{FindsLines};
ghost use Rattle.adya_terms.specs.Machinery.Places.{AreInstalled, AreWrites};
ghost use Rattle.adya_terms.specs.Machinery.Tables.{KnowsCommitted};
ghost use Rattle.adya_terms.specs.Machinery.Checks.{Names, whole, rule_faults};

use crate::ends::{all_end, check_unfinished};
use crate::event_index::EventIndex;
use crate::finals::check_finals;
use crate::laws::checked_iff_no_fault;
use crate::line_places::LinePlaces;
use crate::listed::check_orders;
use crate::placing::Placed;
use crate::reads::check_reads;
use crate::tables::Ended;
use crate::{CheckFault, Events, Finals, History, Orders, Rule, Txn};
use adya_values::Indices;
use std::alloc::Global;
use txn_table::TxnTable;

/// A history that passed its check: it is well-formed and has no aborted and no intermediate reads (Adya 1999, G1a and
/// G1b).
#[derive(Drop)]
pub struct Checked<'a> {
    history: &'a History,
    events: &'a Events,
    ended: TxnTable<Ended>,
    /// By the number of each key the index of its order line and 1; 0 if it has none.
    numbers: Indices,
    /// For each order line, the places of its writers, with the indices of the events that wrote what it names.
    lines: LinePlaces,
    pub ghost checked: { is_none (first_fault (history_of history.now)) ≡ true },
    pub ghost commits: { KnowsCommitted ended (history_of history.now).events },
    pub ghost listed: { events_of events.now ≡ (history_of history.now).events },
    pub ghost found: { let os = (history_of history.now).orders in FindsLines (indices_in numbers) (keys_of events.now) os (length os) },
    pub ghost written: { let h = history_of history.now in AreInstalled h.events lines h.orders },
}

impl<'a> Checked<'a> {
    ghost use Rattle.adya_terms.specs.Clauses.Checked.{checked_history, events_in, history_in, installed_at};

    /// Checks the history. Returns its first fault if it has one: broken rules come before aborted reads, and these
    /// before intermediate reads; within a kind the first line decides, and then the first rule. Returns
    /// `CheckFault::Memory` if memory runs out, which says nothing about the history.
    pub fn of(alloc: Global, history: &'a History) -> Result<Checked<'a>, CheckFault>
        ensures found { MatchResult result (λ c. first_fault (history_of history.now) ≡ None)
            (IsFault (first_fault (history_of history.now))) }
        ensures same { IfOk result (λ c. history_in c ≡ history.now) }
        // It succeeds only if the history is well-formed without aborted and intermediate reads, and names a fault only
        // if it isn't.
        ensures checked { IfOk result (λ c. IsChecked (checked_history c)) }
        ensures refused { IfErr result (λ e. e ≢ CheckFault.Memory → IsChecked (history_of history.now) → ⊥) }
    {
        checked_iff_no_fault();
        let events = history.events();
        match check(
            alloc,
            events,
            history.unfinished(),
            history.orders(),
            history.finals(),
        ) {
            Err(fault) => Err(fault),
            Ok((index, placed)) => Ok(Checked {
                history,
                events,
                ended: index.into_ended(),
                numbers: placed.numbers,
                lines: placed.lines,
            }),
        }
    }

    /// Returns the history.
    pub fn history(&self) -> &History
        ensures same { result.now ≡ history_in self.now }
        ensures faultless { first_fault (history_of result.now) ≡ None }
        ensures checked { IsChecked (history_of result.now) }
    {
        checked_iff_no_fault();
        self.history
    }

    /// Returns the events of the history.
    pub fn events(&self) -> &Events
        ensures same { result.now ≡ events_in self.now }
        ensures events { events_of result.now ≡ (checked_history self.now).events }
    {
        self.events
    }

    /// Returns by the number of each key, which the events give, the index of its order line and 1; 0 if it has no line.
    pub fn line_numbers(&self) -> &Indices
        ensures { let os = (checked_history self.now).orders in FindsLines (indices_in result.now) (keys_of (events_in self.now)) os (length os) }
    {
        &self.numbers
    }

    /// Returns whether the transaction has committed.
    pub fn is_committed(&self, txn: Txn) -> bool
        ensures { result ≡ is_committed (checked_history self.now).events txn }
    {
        self.ended.get(txn).committed
    }

    /// Returns whether the writer at this place of the order line at this index, both counted from 0, installed a value: whether
    /// its last write of the line's key is no delete (Adya 1999, section 3.1). It didn't if there is no such line, or no such
    /// writer in it.
    pub fn shows(&self, line: usize, place: usize) -> bool
        ensures { result ≡ is_some (shown (installed_at (checked_history self.now) line place)) }
    {
        if line >= self.history.orders().len() {
            return false;
        }
        let Some(at) = self.lines.write_at(line, place) else {
            return false;
        };
        self.events.shows(at)
    }
}

/// Makes the index of the events, and returns with it the order lines of the keys and the last writes of the writers that
/// these name, if the lists have no fault.
fn check<'a>(
    alloc: Global,
    events: &'a Events,
    unfinished: &'a [Txn],
    orders: &Orders,
    finals: &Finals,
) -> Result<(EventIndex<'a>, Placed), CheckFault>
    requires orders_rise { keys_rise (map (λ o. o.key) (orders_of orders.now)) ≡ true }
    requires finals_rise { keys_rise (map (λ f. f.key) (finals_of finals.now)) ≡ true }
    ensures faults { let faults = check_faults (whole (events_of events.now) unfinished.now (orders_of orders.now) (finals_of finals.now)) in
        MatchResult result (λ t. faults ≡ []) (Names faults) }
    ensures events { IfOk result (λ t. tables.events_in t.0 ≡ events.now) }
    ensures numbers { let os = orders_of orders.now in IfOk result (λ t. FindsLines (indices_in t.1.numbers) (keys_of events.now) os (length os)) }
    ensures lines { IfOk result (λ t. AreWrites (last_in t.0) t.1.lines (orders_of orders.now)) }
{
    let index = match EventIndex::of(alloc, events, unfinished) {
        Ok(index) => index,
        Err(fault) => return Err(fault),
    };
    let unfinished_line = events.len() + 2;
    if let Err(fault) = check_unfinished(&index, unfinished_line) {
        return Err(fault);
    }
    let orders_line = unfinished_line + unfinished.len();
    // all lines can be counted, since the lists are in memory
    let (_orders, _finals) = (orders.len(), finals.len());
    let placed = match check_rules(alloc, &index, orders, finals, orders_line) {
        Ok(placed) => placed,
        Err(fault) => return Err(fault),
    };
    if let Err(fault) = check_reads(&index) {
        return Err(fault);
    }
    Ok((index, placed))
}

/// Looks for the first fault after the unfinished transactions: a transaction that doesn't end, M7 and M8. The line
/// of the first order is `line`. If there is none, returns the order lines of the keys and the last writes of the writers that
/// these name.
fn check_rules(
    alloc: Global,
    index: &EventIndex,
    orders: &Orders,
    finals: &Finals,
    line: usize,
) -> Result<Placed, CheckFault>
    requires near { line + length (orders_of orders.now) + length (finals_of finals.now) < 2 ^ 64 }
    requires orders_rise { keys_rise (map (λ o. o.key) (orders_of orders.now)) ≡ true }
    requires finals_rise { keys_rise (map (λ f. f.key) (finals_of finals.now)) ≡ true }
    ensures faults { let h = whole (indexed index.now) (unfinished_in index.now) (orders_of orders.now) (finals_of finals.now) in
        MatchResult result (λ u. rule_faults h line ≡ []) (Names (rule_faults h line)) }
    ensures numbers { let os = orders_of orders.now in IfOk result (λ p. FindsLines (indices_in p.numbers) (keys_in index.now) os (length os)) }
    ensures lines { IfOk result (λ p. AreWrites (last_in index.now) p.lines (orders_of orders.now)) }
{
    if !all_end(index) {
        return Err(CheckFault::Malformed {
            line,
            rule: Rule::M6,
        });
    }
    let placed = match check_orders(alloc, index, orders, line) {
        Ok(placed) => placed,
        Err(fault) => return Err(fault),
    };
    match check_finals(index, orders, &placed.lines, finals, line + orders.len()) {
        Ok(()) => Ok(placed),
        Err(fault) => Err(fault),
    }
}
