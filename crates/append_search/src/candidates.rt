//! The search for an order, or for the reasons against all.
//!
//! No contract says that what is found is right.

use crate::cycles::Cycles;
use crate::diagnosis::{Diagnosis, Seen};
use crate::faults::{Faults, Rank};
use crate::kinds::Kinds;
use crate::lines::{Found, Lines, Next};
use crate::links::Links;
use crate::own::{First, Owns};
use crate::reading::{Appends, Reading};
use crate::sorting::Counts;
use crate::writers::Writers;
use append_values::{Counted, Operation, Outcome, Read, Reason, Transaction};
use std::alloc::{AllocError, Global};
use std::collections::HashMap;

/// What the search found.
#[derive(Drop)]
pub enum Candidate {
    /// An order that should explain the history.
    Order(Vec<u32>),
    /// Reasons for which no order should.
    Reasons(Reasons),
}

/// Reasons for which no order should explain the history.
#[derive(Drop)]
pub struct Reasons {
    /// One of each kind that was found, the worst kind first, and how many of the kind were found.
    pub found: Vec<Counted>,
    /// Whether the search for shortest cycles came to its end.
    pub is_searched: bool,
}

/// The reads of committed transactions so far.
#[derive(Drop)]
struct Search {
    alloc: Global,
    owns: Owns,
    lines: Lines,
    readings: Vec<Reading>,
    diagnosis: Diagnosis,
    faults: Faults,
    /// Whether a read shows what its own transaction had appended before it.
    some_are_shown: bool,
}

/// The reads of a key that show so many writers of its line.
#[derive(Clone, Copy, PartialEq, Eq, Hash)]
struct Spot {
    line: usize,
    writers: usize,
}

/// Looks for an order that explains the history, or for the reasons why none does; `AllocError` if memory runs out. The
/// time that it takes is nearly linear in the size of the history, but for the search for shortest cycles, which has a bound
/// of its own. Nothing is promised of what it finds.
pub fn find_candidate<W: Writers + Drop>(
    alloc: Global,
    transactions: &[Transaction],
    writers: W,
) -> Result<Candidate, AllocError> {
    let mut search = Search {
        alloc,
        owns: Owns::new(alloc),
        lines: Lines::new(alloc, transactions.len())?,
        readings: Vec::with_capacity(alloc, reads_in(transactions))?,
        diagnosis: Diagnosis::new(alloc),
        faults: Faults::new(alloc),
        some_are_shown: false,
    };
    let mut place = 0u32;
    'transactions: for transaction in transactions {
        if transaction.outcome == Outcome::Committed {
            let operations = transaction.operations.as_slice();
            search.go_through(transactions, &writers, place, operations)?;
        }
        place = place.saturating_add(1);
    }
    // they take much memory, and the rest doesn't need them
    drop(writers);
    search.add_tails(transactions)?;
    search.sort(transactions, place)
}

impl Search {
    // The steps of a committed transaction.
    fn go_through<W: Writers>(
        &mut self,
        transactions: &[Transaction],
        writers: &W,
        place: u32,
        operations: &[Operation],
    ) -> Result<(), AllocError> {
        self.owns.begin(operations)?;
        for (step, operation) in operations.iter().enumerate() {
            match operation {
                Operation::Append { key, element } => self.owns.append(*key, *element)?,
                Operation::Read { key, elements } => {
                    let read = Read {
                        transaction: place,
                        step,
                    };
                    self.read(
                        transactions,
                        writers,
                        operations,
                        *key,
                        read,
                        elements.as_slice(),
                    )?;
                }
                Operation::LostRead { .. } => {}
            }
        }
        Ok(())
    }

    fn read<W: Writers>(
        &mut self,
        transactions: &[Transaction],
        writers: &W,
        operations: &[Operation],
        key: u64,
        read: Read,
        elements: &[u64],
    ) -> Result<(), AllocError> {
        let before = operations.get(..read.step).unwrap_or(&[]);
        let Some(base) = self.owns.base(before, key, elements) else {
            self.faults.note(Rank::Internal, Reason::Internal(read))?;
            let seen = Seen {
                key,
                read,
                elements,
                base: elements,
            };
            self.diagnosis
                .note(transactions, writers, seen, &mut self.faults)?;
            return Ok(());
        };
        let seen = Seen {
            key,
            read,
            elements,
            base,
        };
        if let Some(first) = self.owns.first(key) {
            return self.read_again(transactions, writers, seen, first);
        }
        let reading = self.read_first(transactions, writers, operations, seen)?;
        self.owns.set_first(First {
            key,
            step: read.step,
            length: base.len(),
            reading,
        })
    }

    // The first read of a key by a transaction. Returns which reading it is, if it fits.
    fn read_first<W: Writers>(
        &mut self,
        transactions: &[Transaction],
        writers: &W,
        operations: &[Operation],
        seen: Seen<'_>,
    ) -> Result<Option<usize>, AllocError> {
        let appends = if seen.base.len() < seen.elements.len() {
            Appends::Sooner
        } else if self.owns.appends(operations, seen.key) {
            Appends::Later
        } else {
            Appends::Nothing
        };
        let does_append = appends != Appends::Nothing;
        match self.lines.take(
            transactions,
            writers,
            seen.key,
            seen.read,
            seen.base,
            does_append,
        )? {
            Found::Blocks { line, writers } => {
                self.some_are_shown |= appends == Appends::Sooner;
                let place = self.readings.len();
                self.readings
                    .push(Reading::new(seen.read, line, writers, appends))?;
                Ok(Some(place))
            }
            Found::Odd { source } => {
                let is_broken = self
                    .diagnosis
                    .note(transactions, writers, seen, &mut self.faults)?;
                if !is_broken && source.transaction != seen.read.transaction {
                    let reason = Reason::Incompatible(seen.read, source);
                    self.faults.note(Rank::IncompatibleOrder, reason)?;
                }
                Ok(None)
            }
        }
    }

    // A later read of a key by a transaction: it should find what the first one found.
    fn read_again<W: Writers>(
        &mut self,
        transactions: &[Transaction],
        writers: &W,
        seen: Seen<'_>,
        first: First,
    ) -> Result<(), AllocError> {
        let before = Read {
            transaction: seen.read.transaction,
            step: first.step,
        };
        let is_same = is_repeated(transactions, before, first.length, seen.base);
        if !is_same {
            let reason = Reason::Unrepeatable(before, seen.read);
            self.faults.note(Rank::Unrepeatable, reason)?;
        }
        match first.reading {
            Some(place) if is_same => {
                if seen.base.len() < seen.elements.len() {
                    self.some_are_shown = true;
                    if let Some(reading) = self.readings.get_mut(place) {
                        reading.go_on(seen.read);
                    }
                }
            }
            _ => {
                self.diagnosis
                    .note(transactions, writers, seen, &mut self.faults)?;
            }
        }
        Ok(())
    }

    // The transactions that found the whole list of a key and appended to it come last in its line. Those come first whose
    // reads show what they had appended.
    fn add_tails(&mut self, transactions: &[Transaction]) -> Result<(), AllocError> {
        let mut spots = HashMap::new(self.alloc);
        if self.some_are_shown {
            self.add_shown_tails(transactions, &mut spots)?;
        }
        for reading in &self.readings {
            if reading.appends() == Appends::Later {
                let next = self.lines.append(
                    transactions,
                    reading.line(),
                    reading.read(),
                    reading.writers(),
                    false,
                )?;
                match next {
                    Next::Itself => {}
                    Next::Other | Next::Apart(_) => {
                        spots.insert(spot_of(reading), None)?;
                    }
                }
            }
        }
        self.note_lost_updates(transactions, spots)
    }

    fn add_shown_tails(
        &mut self,
        transactions: &[Transaction],
        spots: &mut HashMap<Spot, Option<Read>>,
    ) -> Result<(), AllocError> {
        for reading in &self.readings {
            if is_shown(reading) {
                let read = reading.read();
                let next = self.lines.append(
                    transactions,
                    reading.line(),
                    read,
                    reading.writers(),
                    true,
                )?;
                if let Next::Apart(other) = next {
                    self.faults
                        .note(Rank::IncompatibleOrder, Reason::Incompatible(read, other))?;
                    if reading.appends() == Appends::Between {
                        spots.insert(spot_of(reading), None)?;
                    }
                }
            }
        }
        Ok(())
    }

    // Two transactions that found the same list, and both appended to it, at one of these spots.
    fn note_lost_updates(
        &mut self,
        transactions: &[Transaction],
        mut spots: HashMap<Spot, Option<Read>>,
    ) -> Result<(), AllocError> {
        if spots.is_empty() {
            return Ok(());
        }
        for reading in &self.readings {
            if let Some(read) = read_before_appends(transactions, reading) {
                if let Some(first) = spots.get_mut(&spot_of(reading)) {
                    match *first {
                        Some(one) => {
                            let reason = Reason::Incompatible(one, read);
                            self.faults.note(Rank::LostUpdate, reason)?;
                        }
                        None => *first = Some(read),
                    }
                }
            }
        }
        Ok(())
    }

    // An order in which all links go forward, or the reasons against it, with cycles of links.
    fn sort(self, transactions: &[Transaction], count: u32) -> Result<Candidate, AllocError> {
        let (mut nodes, unseen) = self.taken_in(transactions)?;
        let links = Links {
            lines: &self.lines,
            transactions: count,
            unseen: unseen.as_slice(),
        };
        for line in 0..self.lines.lines.len() {
            nodes.push(links.helper(line))?;
        }
        let readings = self.readings.as_slice();
        let most = (count as usize).saturating_add(self.lines.lines.len());
        let mut counts = Counts::new(self.alloc, most, Kinds::All)?;
        links.give(transactions, readings, &mut counts)?;
        let mut targets = counts.room(self.alloc)?;
        links.give(transactions, readings, &mut targets)?;
        let order = targets.forward(self.alloc, nodes.as_slice())?;
        let is_sorted = order.len() == nodes.len();
        if is_sorted && self.faults.is_empty() {
            return Ok(Candidate::Order(without_helpers(self.alloc, order.as_slice(), count)?));
        }
        let mut cycles = Cycles::new(self.alloc);
        if !is_sorted {
            cycles.find(transactions, readings, &links)?;
        }
        let mut faults = self.faults;
        cycles.note(&mut faults)?;
        Ok(Candidate::Reasons(Reasons {
            found: faults.worst_first(self.alloc)?,
            is_searched: cycles.is_searched,
        }))
    }

    // The committed transactions and the unknown ones of which somebody read an element; and those of them that may have
    // appended what nobody read.
    fn taken_in(&self, transactions: &[Transaction]) -> Result<(Vec<u32>, Vec<u32>), AllocError> {
        let most = transactions.len().saturating_add(self.lines.lines.len());
        let mut nodes = Vec::with_capacity(self.alloc, most)?;
        let mut unseen = Vec::new(self.alloc);
        let mut place = 0u32;
        for transaction in transactions {
            if self.lines.takes_in(place, transaction) {
                nodes.push(place)?;
                if !self
                    .lines
                    .shows_all(place, transaction.operations.as_slice())
                {
                    unseen.push(place)?;
                }
            }
            place = place.saturating_add(1);
        }
        Ok((nodes, unseen))
    }
}

// Whether the read shows what its own transaction had appended.
fn is_shown(reading: &Reading) -> bool {
    match reading.appends() {
        Appends::Sooner | Appends::Between => true,
        Appends::Nothing | Appends::Later => false,
    }
}

// The first read of the list by the transaction of the reading, if this one appends to it afterwards alone.
fn read_before_appends(transactions: &[Transaction], reading: &Reading) -> Option<Read> {
    let read = reading.read();
    match reading.appends() {
        Appends::Nothing | Appends::Sooner => None,
        Appends::Later => Some(read),
        Appends::Between => {
            let operations = transactions
                .get(read.transaction as usize)?
                .operations
                .as_slice();
            let key = key_of(operations.get(read.step)?)?;
            let step = operations
                .iter()
                .position(|operation| key_of(operation) == Some(key))?;
            Some(Read {
                transaction: read.transaction,
                step,
            })
        }
    }
}

// The key that the step reads.
fn key_of(operation: &Operation) -> Option<u64> {
    match operation {
        Operation::Read { key, .. } => Some(*key),
        Operation::Append { .. } | Operation::LostRead { .. } => None,
    }
}

fn spot_of(reading: &Reading) -> Spot {
    Spot {
        line: reading.line(),
        writers: reading.writers(),
    }
}

// How many reads committed transactions have.
fn reads_in(transactions: &[Transaction]) -> usize {
    let mut reads = 0usize;
    for transaction in transactions {
        if transaction.outcome == Outcome::Committed {
            let operations = transaction.operations.iter();
            reads = reads.saturating_add(operations.filter(|operation| is_read(operation)).count());
        }
    }
    reads
}

fn is_read(operation: &Operation) -> bool {
    matches!(operation, Operation::Read { .. })
}

// Whether a later read found the list that this one had found, of so many elements before its transaction's own.
fn is_repeated(transactions: &[Transaction], first: Read, length: usize, base: &[u64]) -> bool {
    let Some(transaction) = transactions.get(first.transaction as usize) else {
        return false;
    };
    match transaction.operations.get(first.step) {
        Some(Operation::Read { elements, .. }) => {
            base.len() == length && elements.starts_with(base)
        }
        _ => false,
    }
}

fn without_helpers(alloc: Global, order: &[u32], count: u32) -> Result<Vec<u32>, AllocError> {
    let mut places = Vec::with_capacity(alloc, order.len())?;
    for node in order {
        if *node < count {
            places.push(*node)?;
        }
    }
    Ok(places)
}
