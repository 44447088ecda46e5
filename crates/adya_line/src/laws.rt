//! What holds of lines: the calls change nothing, and their contracts are the laws.

ghost use Rattle.std.specs.Prelude.{ℕ, ◌<◌, length};
ghost use Rattle.std.specs.List.{AllByRecursion};
ghost use Rattle.adya_keys.specs.Meaning.Keys.{IsTxn};
ghost use Rattle.adya_values.specs.Mirror.Events.{entries_of, entry_of, view_of, final_of};
ghost use Rattle.adya_line.specs.Meaning.Spelling.{event_text, unfinished_text, order_text, final_text, txn_text};
ghost use Rattle.adya_line.specs.Meaning.Limits.{IsEntry, IsEvent, IsOrder, IsFinal};
ghost use Rattle.adya_line.specs.Computing.Reading.{event_at, unfinished_at, order_at, final_at, txn_at_line};
ghost use Rattle.adya_line.specs.Laws.{IsReaderOf, IsOneText, HasPlainTexts};
ghost use Rattle.adya_line.specs.Clauses.HistoryLines.{IsLine as IsHistoryLine, line_text as history_line_text};
ghost use Rattle.adya_line.specs.Clauses.SerialLines.{IsLine as IsSerialLine, line_text as serial_line_text};

use adya_values::{Content, Entry, EventView, FinalPair, Key, Listed, Txn};

/// The lines of events are the texts of the events within their limits.
pub fn event_lines()
    ensures reading { IsReaderOf event_at IsEvent event_text }
    ensures one_text { IsOneText IsEvent event_text }
{}

/// The lines of unfinished transactions are the texts of the numbers within their limits.
pub fn unfinished_lines()
    ensures reading { IsReaderOf unfinished_at IsTxn unfinished_text }
    ensures one_text { IsOneText IsTxn unfinished_text }
{}

/// The lines of orders are the texts of the orders within their limits.
pub fn order_lines()
    ensures reading { IsReaderOf order_at IsOrder order_text }
    ensures one_text { IsOneText IsOrder order_text }
{}

/// The lines of finals are the texts of the finals within their limits.
pub fn final_lines()
    ensures reading { IsReaderOf final_at IsFinal final_text }
    ensures one_text { IsOneText IsFinal final_text }
{}

/// The lines of certificates are the texts of the numbers within their limits.
pub fn txn_lines()
    ensures reading { IsReaderOf txn_at_line IsTxn txn_text }
    ensures one_text { IsOneText IsTxn txn_text }
{}

/// Each line of a history has a text of its own, without a line feed.
pub fn history_lines()
    ensures one_text { IsOneText IsHistoryLine history_line_text }
    ensures no_line_feed { HasPlainTexts IsHistoryLine history_line_text }
{}

/// Each line of a certificate has a text of its own, without a line feed.
pub fn serial_lines()
    ensures one_text { IsOneText IsSerialLine serial_line_text }
    ensures no_line_feed { HasPlainTexts IsSerialLine serial_line_text }
{}

/// Each event is within its limits.
pub fn event_within(event: &EventView<'_>)
    ensures { IsEvent (view_of event.now) }
{
    match event {
        EventView::Write { txn, key, m, value } => {
            let _ = txn.get();
            let _ = key.bytes();
            let _ = m.get();
            let _ = value.bytes();
        }
        EventView::Delete { txn, key, m } => {
            let _ = txn.get();
            let _ = key.bytes();
            let _ = m.get();
        }
        EventView::Read {
            txn,
            version,
            value,
        } => {
            let _ = txn.get();
            let _ = version.key.bytes();
            let _ = version.txn.get();
            let _ = version.m.get();
            let _ = value.bytes();
        }
        EventView::Scan {
            txn,
            low,
            high,
            entries,
        } => {
            let _ = txn.get();
            let _ = low.bytes();
            let _ = high.bytes();
            entries_within(entries);
        }
        EventView::Commit { txn } | EventView::Abort { txn } => {
            let _ = txn.get();
        }
    }
}

fn entries_within(entries: &Listed<'_>)
    ensures { AllByRecursion IsEntry (entries_of entries.now) }
{
    for j in 0..entries.len() {
        entry_within(&entries.at(j));
    }
}

fn entry_within(entry: &Entry)
    ensures { IsEntry (entry_of entry.now) }
{
    let _ = entry.version.key.bytes();
    let _ = entry.version.txn.get();
    let _ = entry.version.m.get();
    if let Content::Live(value) = &entry.content {
        let _ = value.bytes();
    }
}

/// The order of a key and writers, if there is a writer, is within its limits.
pub fn order_within(key: Key, writers: &[Txn])
    ensures { 0 < length writers.now → IsOrder (record { key = key; writers = writers.now }) }
{
    let _ = key.bytes();
    for txn in writers {
        let _ = txn.get();
    }
}

/// Each final is within its limits.
pub fn final_within(pair: &FinalPair)
    ensures { IsFinal (final_of pair.now) }
{
    let _ = pair.key.bytes();
}
