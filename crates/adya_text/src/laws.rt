//! The laws of texts. The calls change nothing: each contract is a law.

ghost use Rattle.std.specs.Prelude.{◌<◌, length, slice_get, IfSome};
ghost use Rattle.std.specs.List.{AllByRecursion};
ghost use Rattle.adya_keys.specs.Meaning.Keys.{IsTxn};
ghost use Rattle.adya_values.specs.Mirror.Events.{events_of};
ghost use Rattle.adya_values.specs.Mirror.Histories.{history_of, serial_txns};
ghost use Rattle.adya_values.specs.Mirror.Lines.{finals_of, orders_of};
ghost use Rattle.adya_line.specs.Meaning.Limits.{IsEvent, IsOrder, IsFinal};
ghost use Rattle.adya_text.specs.Meaning.Texts.{IsHistory, IsSerial};
ghost use Rattle.adya_text.specs.Clauses.Grammars.{AreHistoryLines, AreSerialLines};
ghost use Rattle.adya_text.specs.Laws.{HistoriesDiffer, SerialsDiffer, NoHistoryBegins, NoSerialBegins};
ghost use Rattle.adya_text.specs.Laws.{HasOneFaultLine, HasNoFaultWithin, IsCutAfterEnd, IsWholeWithoutEnd};

use adya_line::laws::{event_within, final_within, history_lines, order_within, serial_lines};
use adya_values::{Events, Finals, History, Orders, Serial, Txn};

/// Each history has a text of its own, and no history text begins with another.
pub fn history_texts()
    ensures one_text { HistoriesDiffer }
    ensures no_proper_prefix { NoHistoryBegins }
{
    history_lines();
}

/// Each certificate has a text of its own, and no certificate text begins with another.
pub fn serial_texts()
    ensures one_text { SerialsDiffer }
    ensures no_proper_prefix { NoSerialBegins }
{
    serial_lines();
}

/// A text has one fault line at most, and a text of its grammar has none.
pub fn fault_lines()
    ensures one_of_history { HasOneFaultLine AreHistoryLines }
    ensures none_of_history { HasNoFaultWithin AreHistoryLines }
    ensures one_of_serial { HasOneFaultLine AreSerialLines }
    ensures none_of_serial { HasNoFaultWithin AreSerialLines }
{
    history_lines();
    serial_lines();
}

/// A stream of two texts is cut after its first line `end`; without such a line, all of it is the history's.
pub fn stream_parts()
    ensures cut { IsCutAfterEnd }
    ensures whole { IsWholeWithoutEnd }
{}

/// Each history has a text.
pub fn history_has_text(history: &History)
    ensures { IsHistory (history_of history.now) }
{
    txns_within(history.unfinished());
    events_within(history.events());
    orders_within(history.orders());
    finals_within(history.finals());
}

/// Each certificate has a text.
pub fn serial_has_text(serial: &Serial)
    ensures { IsSerial (serial_txns serial.now) }
{
    txns_within(serial.txns());
}

fn txns_within(txns: &[Txn])
    ensures { AllByRecursion IsTxn txns.now }
{
    for txn in txns {
        let _ = txn.get();
    }
}

fn events_within(events: &Events)
    ensures { AllByRecursion IsEvent (events_of events.now) }
{
    for i in 0..events.len() {
        event_at_within(events, i);
    }
}

/// The event at the index, if there is one, is within its limits.
fn event_at_within(events: &Events, i: usize)
    ensures { IfSome (slice_get (events_of events.now) i) IsEvent }
{
    if let Some(event) = events.get(i) {
        event_within(&event);
    }
}

fn orders_within(orders: &Orders)
    ensures { AllByRecursion (λ o. 0 < length o.writers → IsOrder o) (orders_of orders.now) }
{
    for i in 0..orders.len() {
        order_within(orders.key(i), orders.writers(i));
    }
}

fn finals_within(finals: &Finals)
    ensures { AllByRecursion IsFinal (finals_of finals.now) }
{
    for i in 0..finals.len() {
        let pair = finals.at(i);
        final_within(&pair);
    }
}
