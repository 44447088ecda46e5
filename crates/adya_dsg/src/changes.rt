//! The places of order lines whose versions change what a scan of the key matches.

ghost use Rattle.std.specs.Prelude.{◌≡◌, ◌<◌, ◌++◌, suc, true, IfOk, OnOk, Some, length, option_map, slice_get};
ghost use Rattle.std.specs.List.{list_any};
ghost use Rattle.adya_values.specs.Mirror.Events.{events_of};
ghost use Rattle.adya_values.specs.Meaning.Selections.{is_scan};
ghost use Rattle.adya_values.specs.Meaning.Orders.{writers};
ghost use Rattle.adya_terms.specs.Clauses.Checked.{checked_history};
ghost use Rattle.adya_dsg.specs.Machinery.Choices.{key_at};
ghost use Rattle.adya_terms.specs.Machinery.LinePlaces.{AreStarts, line_places};
ghost use Rattle.adya_dsg.specs.Machinery.LineChanges.{AreChanges};
ghost use Rattle.adya_dsg.specs.Machinery.Links.{changed_places};

use adya_terms::Checked;
use adya_values::{Events, Txn};
use std::alloc::{AllocError, Global};

/// The places of all order lines in one list, which takes less memory than a list for each line.
#[derive(Drop)]
pub(crate) struct LineChanges {
    places: Vec<usize>,
    /// Where the places of each line start, and at last the end of the list.
    starts: Vec<usize>,
    ghost ordered: { AreStarts starts.items (length places.items) },
}

impl LineChanges {
    /// Makes the changes of no lines. They take no memory.
    fn none(alloc: Global) -> LineChanges {
        LineChanges {
            places: Vec::new(alloc),
            starts: Vec::new(alloc),
        }
    }

    /// Returns the places of the line.
    pub fn of(&self, line: usize) -> &[usize]
        requires { suc line < length self.now.starts.items }
        ensures { result.now ≡ line_places self.now.places.items self.now.starts.items line }
    {
        &self.places[self.starts[line]..self.starts[line + 1]]
    }
}

/// Returns for each order line the places whose versions change the matches, if an event is a scan. Only scans ask for
/// them, so without one this doesn't look at the lines; `AllocError` if memory is refused.
pub(crate) fn scan_changes(alloc: Global, checked: &Checked) -> Result<LineChanges, AllocError>
    ensures { let h = checked_history checked.now in
        IfOk result (λ c. list_any is_scan h.events ≡ true
        → AreChanges h c.places.items c.starts.items (length h.orders)) }
{
    if has_scans(checked.events()) {
        return line_changes(alloc, checked);
    }
    Ok(LineChanges::none(alloc))
}

/// Returns whether an event is a scan.
pub(crate) fn has_scans(events: &Events) -> bool
    ensures { result ≡ list_any is_scan (events_of events.now) }
{
    for event in 0..events.len() {
        if events.bounds_at(event).is_some() {
            return true;
        }
    }
    false
}

/// Returns for each order line the places whose versions change the matches.
fn line_changes(alloc: Global, checked: &Checked) -> Result<LineChanges, AllocError>
    ensures { let h = checked_history checked.now in
        IfOk result (λ c. AreChanges h c.places.items c.starts.items (length h.orders)) }
{
    let orders = checked.history().orders();
    let mut places = Vec::new(alloc);
    let mut starts = Vec::with_capacity(alloc, orders.len().saturating_add(1))?;
    starts.push(0)?;
    for line in 0..orders.len() {
        push_changed(&mut places, checked, line, orders.writers(line))?;
        starts.push(places.len())?;
    }
    Ok(LineChanges { places, starts })
}

/// Adds the places of the order line at the index, which has these writers, whose versions change the matches.
fn push_changed(
    places: &mut Vec<usize>,
    checked: &Checked,
    line: usize,
    txns: &[Txn],
) -> Result<(), AllocError>
    requires here { option_map (λ o. o.writers) (slice_get (checked_history checked.now).orders line) ≡ Some txns.now }
    requires writers { let h = checked_history checked.now in
        txns.now ≡ writers h (key_at h line) }
    ensures { let h = checked_history checked.now in
        OnOk result (places.new.items ≡ places.old.items ++ changed_places h (key_at h line)) }
{
    let mut was = false;
    for i in 0..txns.len() {
        let now = checked.shows(line, i);
        if now != was {
            places.push(i + 1)?;
        }
        was = now;
    }
    Ok(())
}
