//! Histories in the making.

ghost use Rattle.std.specs.Prelude.{◌≡◌, ◌<◌, ◌+◌, ◌^◌, [], length, map, true, false, IfSome, IfOk, OnOk, MatchOption};
ghost use Rattle.adya_values.specs.Computing.Shapes.{fits_edition, is_shape};
ghost use Rattle.adya_values.specs.Mirror.Events.{events_of};
ghost use Rattle.adya_values.specs.Mirror.Refs.{view_entry};
ghost use Rattle.adya_values.specs.Mirror.Histories.{history_of};
ghost use Rattle.adya_values.specs.Mirror.Lines.{finals_of, orders_of};
ghost use Rattle.adya_line.specs.Clauses.HistoryLines.{Line, EventLine, line_of};
ghost use Rattle.adya_line.specs.Mirror.{entries_in, view};
ghost use Rattle.adya_text.specs.Computing.Runs.{IsAllowed, IsRefused};
ghost use Rattle.adya_text.specs.Computing.HistoryRuns.{allows, history_machine, stage_after};
ghost use Rattle.adya_text.specs.Clauses.Grammars.{AreHistoryLines};
ghost use Rattle.adya_text.specs.Clauses.Reading.{ReadsHistory};
ghost use Rattle.adya_text.specs.Machinery.HistoryDrafts.{HasLines, Takes, held, line_after, longest_line};

use crate::line_reader::Draft;
use crate::read_fault::Text;
use adya_line::laws::{event_lines, history_lines};
use adya_line::{EventRef, HistoryLine, history_line, read_event_with};
use adya_values::{Edition, EntryRef, Events, Finals, History, Key, Listed, Orders, Txn};
use std::alloc::{AllocError, Global};

/// How many bytes the head has, `adya 1` or `adya 2`.
const HEAD: usize = 6;

/// Which lines may come next.
#[derive(Clone, Copy)]
enum Stage {
    /// The head.
    Head,
    /// An event, in the second edition an unfinished transaction, an order, a final or the tail.
    Events { edition: Edition },
    /// An unfinished transaction above this one, an order, a final or the tail.
    Unfinished { last: Txn },
    /// An order of a key above this one, a final or the tail.
    Orders { last: Key },
    /// A final of a key above this one or the tail.
    Finals { last: Key },
    /// None.
    Done,
}

impl Stage {
    fn allows(&self, line: &HistoryLine<'_>) -> bool
        ensures { result ≡ allows self.now (line_of line.now) }
    {
        match line {
            HistoryLine::Head(_) => matches!(self, Stage::Head),
            HistoryLine::Event(_) => matches!(self, Stage::Events { .. }),
            HistoryLine::Unfinished(txn) => match self {
                Stage::Events { edition } => matches!(edition, Edition::Two),
                Stage::Unfinished { last } => *last < *txn,
                _ => false,
            },
            HistoryLine::Order(order) => match self {
                Stage::Events { .. } | Stage::Unfinished { .. } => true,
                Stage::Orders { last } => *last < order.key,
                _ => false,
            },
            HistoryLine::Final(pair) => match self {
                Stage::Events { .. } | Stage::Unfinished { .. } | Stage::Orders { .. } => true,
                Stage::Finals { last } => *last < pair.key,
                _ => false,
            },
            HistoryLine::Tail => !matches!(self, Stage::Head | Stage::Done),
        }
    }

    /// Returns the most bytes that the next line can have: 0 if none may come, `None` if it can have any number.
    fn longest_line(&self) -> Option<usize>
        ensures { result ≡ longest_line self.now }
    {
        match self {
            Stage::Head => Some(HEAD),
            Stage::Done => Some(0),
            _ => None,
        }
    }

    /// Returns the number of the line after the head and the tail that led to this stage.
    fn line_after(&self) -> usize
        ensures { result ≡ line_after self.now }
    {
        match self {
            Stage::Head => 1,
            Stage::Done => 3,
            _ => 2,
        }
    }

    /// Returns the stage after a line.
    fn after(&self, line: &HistoryLine<'_>) -> Stage
        ensures { result ≡ stage_after self.now (line_of line.now) }
    {
        match line {
            HistoryLine::Head(edition) => Stage::Events { edition: *edition },
            HistoryLine::Event(_) => *self,
            HistoryLine::Unfinished(txn) => Stage::Unfinished { last: *txn },
            HistoryLine::Order(order) => Stage::Orders { last: order.key },
            HistoryLine::Final(pair) => Stage::Finals { last: pair.key },
            HistoryLine::Tail => Stage::Done,
        }
    }
}

/// What the lines of a history text hold so far.
#[derive(Drop)]
pub(crate) struct HistoryDraft {
    alloc: Global,
    stage: Stage,
    /// That of the head; the first one before it.
    edition: Edition,
    events: Events,
    unfinished: Vec<Txn>,
    orders: Orders,
    finals: Finals,
}

impl HistoryDraft {
    /// The draft of no line.
    pub(crate) fn new(alloc: Global) -> HistoryDraft
        ensures { HasLines result [] }
    {
        HistoryDraft {
            alloc,
            stage: Stage::Head,
            edition: Edition::One,
            events: Events::new(alloc),
            unfinished: Vec::new(alloc),
            orders: Orders::new(alloc),
            finals: Finals::new(alloc),
        }
    }

    /// Returns the line by its kind, if it may come next.
    fn allowed<'a>(&self, line: &'a [u8]) -> Result<Option<HistoryLine<'a>>, AllocError>
        ensures { IfOk result
            (λ o. MatchOption o (IsRefused history_machine self.now.stage line.now)
            (λ x. IsAllowed history_machine self.now.stage line.now (line_of x))) }
    {
        let Some(read) = history_line(self.alloc, line)? else {
            return Ok(None);
        };
        if !self.stage.allows(&read) {
            return Ok(None);
        }
        Ok(Some(read))
    }

    /// Takes the line if it is that of an event, as most are, and may come next. Returns whether it did; if not, the draft holds
    /// what it held.
    fn take_event(&mut self, line: &[u8]) -> Result<bool, AllocError>
        ensures taken { IfOk result (λ b. b ≡ true
            → (x : Line) × IsAllowed history_machine self.old.stage line.now x × Takes self.old self.new x) }
        ensures left { IfOk result (λ b. b ≡ false → (self.new.stage ≡ self.old.stage) × (held self.new ≡ held self.old)) }
    {
        event_lines();
        let Stage::Events { .. } = self.stage else {
            return Ok(false);
        };
        let mut entries = Vec::new(self.alloc);
        let Some(event) = read_event_with(line, &mut entries)? else {
            return Ok(false);
        };
        self.push_with_entries(&event, &entries)?;
        Ok(true)
    }

    /// Takes the line of the event, which lists these entries.
    fn push_with_entries(
        &mut self,
        event: &EventRef<'_>,
        entries: &[EntryRef<'_>],
    ) -> Result<(), AllocError>
        requires { map view_entry entries.now ≡ entries_in (view event.now) }
        ensures { OnOk result (Takes self.old self.new (EventLine (view event.now))) }
    {
        event.add_to(&mut self.events, &Listed::Slices(entries))
    }

    /// Takes the line of the event.
    fn push_event(&mut self, event: &EventRef<'_>) -> Result<(), AllocError>
        ensures { OnOk result (Takes self.old self.new (EventLine (view event.now))) }
    {
        let mut entries = Vec::new(self.alloc);
        event.read_entries(&mut entries)?;
        self.push_with_entries(event, &entries)
    }

    // Not inlined: a caller pays at its entry for all locals of what is inlined into it.
    #[inline(never)]
    fn take_allowed(&mut self, line: HistoryLine<'_>) -> Result<(), AllocError>
        ensures { OnOk result (Takes self.old self.new (line_of line.entry)) }
    {
        let stage = self.stage.after(&line);
        match line {
            HistoryLine::Head(edition) => self.edition = edition,
            HistoryLine::Event(event) => self.push_event(&event)?,
            HistoryLine::Unfinished(txn) => self.unfinished.push(txn)?,
            HistoryLine::Order(order) => self.orders.push(&order)?,
            HistoryLine::Final(pair) => self.finals.push(&pair)?,
            HistoryLine::Tail => {}
        }
        self.stage = stage;
        Ok(())
    }
}

impl Draft for HistoryDraft {
    ghost use Rattle.adya_text.specs.declared.read_fault.Text.TheVariants as Of;

    type Value = History;

    const TEXT: Text = Text::History;

    ghost TEXT = { Of.History };

    ghost grammar = { AreHistoryLines };

    ghost has_lines = { HasLines };

    ghost reads = { ReadsHistory };

    ghost faulty = { λ text line is. is };

    ghost no_memory = { λ text. tt };

    ghost no_device = { λ text. tt };

    fn begins(&self) {}

    /// Returns the number of the line that comes next. The lines before are the head, the tail and those of what the
    /// draft holds, so the number fits.
    fn next_line(&self) -> usize {
        self.stage.line_after() + total(&self.events, &self.unfinished, &self.orders, &self.finals)
    }

    fn longest_line(&self) -> Option<usize> {
        history_lines();
        self.stage.longest_line()
    }

    fn take(&mut self, line: &[u8]) -> Result<bool, AllocError> {
        history_lines();
        if self.take_event(line)? {
            return Ok(true);
        }
        let Some(line) = self.allowed(line)? else {
            return Ok(false);
        };
        self.take_allowed(line)?;
        Ok(true)
    }

    fn value(self) -> Option<History> {
        history_lines();
        let Stage::Done = self.stage else {
            return None;
        };
        // The numbers and the keys have been seen to rise line by line.
        of_edition(
            self.edition,
            self.events,
            self.unfinished,
            self.orders,
            self.finals,
        )
    }
}

/// Returns the history of the edition with these lists; `None` if no history has them.
fn of_edition(
    edition: Edition,
    events: Events,
    unfinished: Vec<Txn>,
    orders: Orders,
    finals: Finals,
) -> Option<History>
    ensures of_lists { fits_edition edition unfinished.items ≡ true
        → MatchOption result (is_shape (orders_of orders) (finals_of finals) ≡ true → ⊥)
        (λ h. history_of h ≡ record {
          edition = edition;
          events = events_of events;
          unfinished = unfinished.items;
          orders = orders_of orders;
          finals = finals_of finals;
        }) }
    ensures same { IfSome result (λ h. (h.events ≡ events) × (h.orders ≡ orders) × (h.finals ≡ finals)) }
{
    match edition {
        Edition::One => History::new(events, orders, finals).ok(),
        Edition::Two => History::new_two(events, unfinished, orders, finals).ok(),
    }
}

/// Returns how many values these are.
fn total(events: &Events, unfinished: &[Txn], orders: &Orders, finals: &Finals) -> usize
    ensures count { result ≡ length (events_of events.now) + (length unfinished.now + (length (orders_of orders.now) + length (finals_of finals.now))) }
    ensures near { result < 2 ^ 63 }
{
    events.len() + (unfinished.len() + (orders.len() + finals.len()))
}
