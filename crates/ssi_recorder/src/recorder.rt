//! The recorder: the events so far, with room for the ends of open transactions.

ghost use Rattle.std.specs.Prelude.{◌≡◌, [], ◌∷◌, ◌++◌, ◌+◌, ◌<◌, map, OnOk, OnErr, IfOk, IfErr, length, true};
ghost use Rattle.adya_values.specs.Meaning.Histories.{Abort, Commit};
ghost use Rattle.adya_values.specs.Mirror.Events as lists;
ghost use Rattle.adya_values.specs.Mirror.Events.{event_of, HasRows};
ghost use Rattle.adya_values.specs.Mirror.Histories.{history_of};
ghost use Rattle.adya_values.specs.Machinery.Packed.{entry_count};
ghost use Rattle.adya_values.specs.Computing.Shapes.{numbers_rise};
ghost use Rattle.adya_values.specs.declared.edition.Edition.TheVariants as Edition;
ghost use Rattle.ssi_recorder.specs.Meaning.Recorded.{history_of_events, is_end};

use crate::installs::installed;
use adya_values::{Event, Events, History, Txn};
use std::alloc::{AllocError, Global};

/// The events so far, in the order in which they happened, with a place kept for the end of each open transaction.
#[derive(Drop)]
pub struct Recorder {
    alloc: Global,
    events: Events,
    places: usize,
    ghost kept: { HasRows events places },
}

impl Recorder {
    ghost use Rattle.ssi_recorder.specs.Mirror.{events_of, places_of, HasRoom, IsAsBefore};

    /// Makes a recorder with no events and no kept places. It takes no memory.
    pub fn new(alloc: Global) -> Self
        ensures events { events_of result ≡ [] }
        ensures places { places_of result ≡ 0 }
    {
        Recorder {
            alloc,
            events: Events::new(alloc),
            places: 0,
        }
    }

    /// Keeps a place for the end of one more transaction. Returns `AllocError` if memory runs out; the recorder is then
    /// as it was.
    pub fn open(&mut self) -> Result<(), AllocError>
        ensures events { events_of self.new ≡ events_of self.old }
        ensures places { OnOk result (places_of self.new ≡ places_of self.old + 1) }
        ensures err { OnErr result (places_of self.new ≡ places_of self.old) }
    {
        self.room(0)?;
        self.places += 1;
        Ok(())
    }

    /// Makes room for one event that lists up to so many entries, so that the next call of [`Recorder::event`] takes no memory.
    /// Returns `AllocError` if memory runs out. Either way the events and the kept places are as before.
    pub fn room(&mut self, entries: usize) -> Result<(), AllocError>
        ensures same { IsAsBefore self.old self.new }
        ensures room { OnOk result (HasRoom self.new entries) }
    {
        self.events.reserve(self.places + 1, entries)
    }

    /// Records a write, a delete, a read or a scan in the room that [`Recorder::room`] made. It takes no memory.
    pub fn event(&mut self, event: Event)
        requires { HasRoom self.old (entry_count (event_of event)) }
        ensures events { events_of self.new ≡ events_of self.old ++ event_of event ∷ [] }
        ensures places { places_of self.new ≡ places_of self.old }
    {
        let Ok(()) = self.events.push_owned(&event) else {
            unreachable!()
        };
    }

    /// Records a commit or an abort in a kept place. It takes no memory.
    pub fn end(&mut self, end: Event)
        requires end { is_end (event_of end) ≡ true }
        requires place { 0 < places_of self.old }
        ensures events { events_of self.new ≡ events_of self.old ++ event_of end ∷ [] }
        ensures places { places_of self.new + 1 ≡ places_of self.old }
    {
        match end {
            Event::Commit { txn } => self.commit(txn),
            Event::Abort { txn } => self.abort(txn),
            Event::Write { .. } => unreachable!(),
            Event::Delete { .. } => unreachable!(),
            Event::Read { .. } => unreachable!(),
            Event::Scan { .. } => unreachable!(),
        }
    }

    /// Records the transaction's commit in a kept place.
    fn commit(&mut self, txn: Txn)
        requires { 0 < places_of self.old }
        ensures events { events_of self.new ≡ events_of self.old ++ Commit txn ∷ [] }
        ensures places { places_of self.new + 1 ≡ places_of self.old }
    {
        self.places -= 1;
        self.events.commit(txn);
    }

    /// Records the transaction's abort in a kept place.
    fn abort(&mut self, txn: Txn)
        requires { 0 < places_of self.old }
        ensures events { events_of self.new ≡ events_of self.old ++ Abort txn ∷ [] }
        ensures places { places_of self.new + 1 ≡ places_of self.old }
    {
        self.places -= 1;
        self.events.abort(txn);
    }

    /// Returns the history of the first edition that these events make, with an abort at the end for each of the
    /// active transactions. Hands the recorder back as it was if memory runs out.
    pub fn finish(mut self, active: &[Txn]) -> Result<History, (Recorder, AllocError)>
        ensures history { IfOk result (λ h. history_of h ≡ history_of_events Edition.One [] (events_of self ++ map Abort active.now)) }
        ensures err { IfErr result (λ e. IsAsBefore self e.0) }
    {
        let lists = match installed(self.alloc, &self.events) {
            Ok(lists) => lists,
            Err(e) => return Err((self, e)),
        };
        if let Err(e) = self.events.reserve(active.len(), 0) {
            return Err((self, e));
        }
        let events = with_aborts(self.events, active);
        Ok(History::new(events, lists.orders, lists.finals).unwrap())
    }

    /// Returns the history of the second edition that these events make, with the active transactions, which have to
    /// rise, as the unfinished ones. Returns `AllocError` if memory runs out. The recorder stays as it is.
    pub fn dump(&self, active: &[Txn]) -> Result<History, AllocError>
        requires { numbers_rise active.now ≡ true }
        ensures { IfOk result (λ h. history_of h ≡ history_of_events Edition.Two active.now (events_of self.now)) }
    {
        let lists = installed(self.alloc, &self.events)?;
        let events = self.events.copy(self.alloc)?;
        let unfinished = Vec::from_slice(self.alloc, active)?;
        let history = History::new_two(events, unfinished, lists.orders, lists.finals).unwrap();
        Ok(history)
    }
}

/// Adds an abort for each of the transactions, in reserved room.
fn with_aborts(mut events: Events, active: &[Txn]) -> Events
    requires { HasRows events (length active.now) }
    ensures { lists.events_of result ≡ lists.events_of events ++ map Abort active.now }
{
    'active: for txn in active {
        events.abort(*txn);
    }
    events
}
