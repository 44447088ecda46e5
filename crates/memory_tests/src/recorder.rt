//! A recorder of a store's history.

ghost use Rattle.std.specs.Prelude.{◌≡◌};
ghost use Rattle.ssi_recorder.specs.Mirror.{places_of};

use crate::layers::Layer;
use crate::reply::Reply;
use crate::words::{Fault, Words};
use adya_line::read_event;
use adya_text::write_history;
use adya_values::{Event, History, Txn};
use ssi_recorder::Recorder;
use std::alloc::Global;

/// A recorder, and how many places it keeps.
#[derive(Drop)]
pub(crate) struct Recorded {
    alloc: Global,
    recorder: Recorder,
    places: usize,
    ghost kept: { places_of recorder ≡ places },
}

impl Recorded {
    /// Makes a recorder of no events.
    pub(crate) fn new(alloc: Global) -> Recorded {
        Recorded {
            alloc,
            recorder: Recorder::new(alloc),
            places: 0,
        }
    }

    fn open(&mut self) -> Result<(), Fault> {
        if self.places == usize::MAX {
            return Err(Fault::Now);
        }
        self.recorder.open()?;
        self.places += 1;
        Ok(())
    }

    fn event(&mut self, words: &mut Words) -> Result<(), Fault> {
        let event = event_of(self.alloc, words)?;
        self.recorder.room(event.entry_count())?;
        self.recorder.event(event);
        Ok(())
    }

    fn end(&mut self, words: &mut Words) -> Result<(), Fault> {
        let end = event_of(self.alloc, words)?;
        if self.places == 0 {
            return Err(Fault::Now);
        }
        match end {
            Event::Commit { txn } => self.recorder.end(Event::Commit { txn }),
            Event::Abort { txn } => self.recorder.end(Event::Abort { txn }),
            _ => return Err(Fault::Word),
        }
        self.places -= 1;
        Ok(())
    }

    fn dump(&self, words: &mut Words, reply: &mut Reply) -> Result<(), Fault> {
        let active = words.txns(self.alloc)?;
        let dumped = match active.as_slice() {
            [] => self.recorder.dump(&[])?,
            [one] => self.recorder.dump(&[*one])?,
            [one, two] if one < two => self.recorder.dump(&[*one, *two])?,
            _ => return Err(Fault::Word),
        };
        put_history(&dumped, reply)
    }

    /// Ends the recorder; if it is refused memory, it goes on with what was handed back.
    fn finish(&mut self, active: &[Txn], reply: &mut Reply) -> Result<(), Fault> {
        let new = Recorded::new(self.alloc);
        let Recorded {
            recorder,
            places,
            ..
        } = std::mem::replace(self, new);
        match recorder.finish(active) {
            Ok(history) => put_history(&history, reply),
            Err((recorder, _)) => {
                self.recorder = recorder;
                self.places = places;
                Err(Fault::Memory)
            }
        }
    }
}

/// `open`, `event EVENT`, `end EVENT`, `dump TXN..` and `finish TXN..`.
impl Layer for Recorded {
    fn call(&mut self, words: &mut Words, reply: &mut Reply) -> Result<(), Fault> {
        match words.word() {
            "open" => self.open(),
            "event" => self.event(words),
            "end" => self.end(words),
            "dump" => self.dump(words, reply),
            "finish" => {
                let active = words.txns(self.alloc)?;
                self.finish(&active, reply)
            }
            _ => Err(Fault::Call),
        }
    }
}

/// Returns the event of the line that is left.
fn event_of(alloc: Global, words: &mut Words) -> Result<Event, Fault> {
    match read_event(words.rest().as_bytes()) {
        Some(event) => Ok(event.to_event(alloc)?),
        None => Err(Fault::Word),
    }
}

fn put_history(history: &History, reply: &mut Reply) -> Result<(), Fault> {
    write_history(history, reply).map_err(|_| Fault::Reply)
}
