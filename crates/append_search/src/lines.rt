//! The lines of writers: for each key, the transactions whose elements were read, in the order of the longest list.

use crate::blocks::{Blocks, FEW};
use crate::reading::small;
use crate::writers::Writers;
use append_values::{Operation, Outcome, Read, Transaction};
use std::alloc::{AllocError, Global};
use std::collections::{HashMap, HashSet};

/// A line, by its number, and a transaction.
#[derive(Clone, Copy, PartialEq, Eq, Hash)]
struct Writer {
    line: u32,
    transaction: u32,
}

/// The longest list of a key that committed transactions found, and whose elements it has.
#[derive(Drop)]
pub(crate) struct Line {
    pub key: u64,
    /// The longest list that a transaction found, without its own appends.
    chain: Vec<u64>,
    /// The places of the transactions in the history, each of which appended a block of elements.
    pub writers: Vec<u32>,
    /// Where the blocks end in the list.
    ends: Vec<u32>,
    /// The read that found the list.
    pub source: Read,
    /// The read by a transaction that found the whole list and appended to it: then it is the last writer.
    pub tail: Option<Tail>,
}

/// The read by the last writer of a line that nobody else has read.
#[derive(Clone, Copy)]
pub(crate) struct Tail {
    pub read: Read,
    /// Whether the read shows what the writer had appended before it.
    pub is_shown: bool,
}

/// What a read adds to the lines.
#[derive(Drop)]
pub(crate) enum Found {
    /// It found the blocks of so many writers of the line with this number.
    Blocks { line: usize, writers: usize },
    /// It found something else. The line's longest list was found by this read before.
    Odd { source: Read },
}

/// How an append goes on with a line.
#[derive(Clone, Copy)]
pub(crate) enum Next {
    /// Its transaction is the next writer.
    Itself,
    /// Another transaction is.
    Other,
    /// Another transaction is, and the read shows that its own one isn't, as this read shows the other one.
    Apart(Read),
}

/// A line for each key that was read.
#[derive(Drop)]
pub(crate) struct Lines {
    alloc: Global,
    numbers: HashMap<u64, usize>,
    pub lines: Vec<Line>,
    /// Where each transaction stands: of one of few steps, a bit for each step that is its first append to a key in whose
    /// line it stands; of a longer one, a bit if it stands in any.
    standing: Vec<u16>,
    /// The long transactions in all lines.
    long: HashSet<Writer>,
    blocks: Blocks,
}

impl Line {
    /// Returns how many blocks the list of this length is made of, if none of them is cut.
    fn blocks(&self, length: usize) -> Option<usize> {
        if length == 0 {
            return Some(0);
        }
        match self.ends.binary_search(&small(length)) {
            Ok(last) => last.checked_add(1),
            Err(_) => None,
        }
    }

    /// Adds a writer with its elements.
    fn add(&mut self, writer: u32, block: &[u64]) -> Result<(), AllocError> {
        self.writers.push(writer)?;
        self.chain.extend_from_slice(block)?;
        self.ends.push(small(self.chain.len()))?;
        Ok(())
    }

    /// Returns whether the transaction is one of the first writers.
    fn is_within(&self, writers: usize, transaction: u32) -> bool {
        match self.writers.get(..writers) {
            Some(first) => first.contains(&transaction),
            None => false,
        }
    }

    /// Returns how many of the writers appended what somebody read.
    pub fn seen(&self) -> usize {
        match self.tail {
            Some(tail) if tail.is_shown => self.writers.len(),
            _ => self.ends.len(),
        }
    }

    /// Returns a read that shows an element of the writer at this place, if one does.
    pub fn evidence(&self, place: usize) -> Read {
        match self.tail {
            Some(tail) if place >= self.ends.len() => tail.read,
            _ => self.source,
        }
    }
}

impl Lines {
    /// Begins without lines, for a history of so many transactions.
    pub fn new(alloc: Global, transactions: usize) -> Result<Lines, AllocError> {
        Ok(Lines {
            alloc,
            numbers: HashMap::new(alloc),
            lines: Vec::new(alloc),
            standing: Vec::from_elem(alloc, 0, transactions)?,
            long: HashSet::new(alloc),
            blocks: Blocks::new(alloc),
        })
    }

    /// Returns the number of the line of the key.
    pub fn number(&self, key: u64) -> Option<usize> {
        self.numbers.get(&key).copied()
    }

    /// Returns whether the transaction, of these steps, stands in the line of the key, which has this number.
    pub fn has(&self, line: usize, key: u64, place: u32, operations: &[Operation]) -> bool {
        if operations.len() > FEW {
            return self.long.contains(&writer_in(line, place));
        }
        self.standing(place) & first_append(operations, key) != 0
    }

    /// Returns whether an order has this transaction: if it committed, or if nobody knows and an element of it was read.
    pub fn takes_in(&self, place: u32, transaction: &Transaction) -> bool {
        match transaction.outcome {
            Outcome::Committed => true,
            Outcome::Aborted => false,
            Outcome::Unknown => self.standing(place) != 0,
        }
    }

    /// Returns whether the transaction stands in the line of each key that it appends to. If it has many steps, this may be
    /// false although it does.
    pub fn shows_all(&self, place: u32, operations: &[Operation]) -> bool {
        operations.len() <= FEW && first_appends(operations) == self.standing(place)
    }

    fn standing(&self, place: u32) -> u16 {
        self.standing.get(place as usize).copied().unwrap_or(0)
    }

    /// Notes that the transaction, of these steps, stands in the line of the key, which has this number. Returns whether it
    /// stood there before.
    fn stand(
        &mut self,
        number: usize,
        key: u64,
        place: u32,
        operations: &[Operation],
    ) -> Result<bool, AllocError> {
        let is_long = operations.len() > FEW;
        let bit = if is_long {
            1
        } else {
            first_append(operations, key)
        };
        let before = self.standing(place);
        if let Some(standing) = self.standing.get_mut(place as usize) {
            *standing = before | bit;
        }
        if is_long {
            return Ok(!self.long.insert(writer_in(number, place))?);
        }
        Ok(before & bit != 0)
    }

    /// Returns the number of the line of the key, and makes a line if there is none.
    fn numbered(&mut self, key: u64, read: Read) -> Result<usize, AllocError> {
        if let Some(line) = self.number(key) {
            return Ok(line);
        }
        let line = self.lines.len();
        self.lines.push(Line {
            key,
            chain: Vec::new(self.alloc),
            writers: Vec::new(self.alloc),
            ends: Vec::new(self.alloc),
            source: read,
            tail: None,
        })?;
        self.numbers.insert(key, line)?;
        Ok(line)
    }

    /// Takes in what a transaction found in the list of the key before its own appends; `appends` says whether it has any.
    pub fn take<W: Writers>(
        &mut self,
        transactions: &[Transaction],
        writers: &W,
        key: u64,
        read: Read,
        base: &[u64],
        appends: bool,
    ) -> Result<Found, AllocError> {
        let number = self.numbered(key, read)?;
        let mut source = read;
        if let Some(line) = self.lines.get(number) {
            source = line.source;
            let shared = base.len().min(line.chain.len());
            if base[..shared] != line.chain[..shared] {
                return Ok(Found::Odd { source });
            }
            if shared < base.len() {
                let is_whole = self.extend(transactions, writers, number, read, base)?;
                if !is_whole {
                    return Ok(Found::Odd { source });
                }
            }
        }
        match self.found(number, read, base.len(), appends) {
            Some(writers) => Ok(Found::Blocks {
                line: number,
                writers,
            }),
            None => Ok(Found::Odd { source }),
        }
    }

    /// Goes on with the line by the blocks that the read found after it. Returns false if it found something else.
    fn extend<W: Writers>(
        &mut self,
        transactions: &[Transaction],
        writers: &W,
        number: usize,
        read: Read,
        base: &[u64],
    ) -> Result<bool, AllocError> {
        // each turn adds an element at least
        'blocks: for _ in 0..base.len() {
            let Some((key, element)) = self.next_element(number, base) else {
                return Ok(true);
            };
            let Some(writer) = writers.writer(key, element) else {
                return Ok(false);
            };
            if writer == read.transaction {
                return Ok(false);
            }
            let is_added = self.add_block(transactions, number, read, base, writer)?;
            if !is_added {
                return Ok(false);
            }
        }
        Ok(true)
    }

    /// Returns the key of the line and the first element that the list has after the line's.
    fn next_element(&self, number: usize, base: &[u64]) -> Option<(u64, u64)> {
        let line = self.lines.get(number)?;
        let element = base.get(line.chain.len())?;
        Some((line.key, *element))
    }

    /// Adds the writer and its block to the line. Returns false if the list doesn't go on with the whole block, or if the
    /// line has it.
    fn add_block(
        &mut self,
        transactions: &[Transaction],
        number: usize,
        read: Read,
        base: &[u64],
        writer: u32,
    ) -> Result<bool, AllocError> {
        let Some(line) = self.lines.get(number) else {
            return Ok(false);
        };
        let (key, start) = (line.key, line.chain.len());
        let Some(transaction) = transactions.get(writer as usize) else {
            return Ok(false);
        };
        let operations = transaction.operations.as_slice();
        let Some(end) = self.blocks.end(base, start, key, writer, operations)? else {
            return Ok(false);
        };
        if self.stand(number, key, writer, operations)? {
            return Ok(false);
        }
        if let Some(line) = self.lines.get_mut(number) {
            line.source = read;
            line.add(writer, base.get(start..end).unwrap_or(&[]))?;
        }
        Ok(true)
    }

    /// Returns of how many blocks a list is made that begins the line's. `None` if it ends within one, or has one of the
    /// reader's own.
    fn found(&self, number: usize, read: Read, length: usize, appends: bool) -> Option<usize> {
        let line = self.lines.get(number)?;
        let writers = line.blocks(length)?;
        if appends && line.is_within(writers, read.transaction) {
            return None;
        }
        Some(writers)
    }

    /// Takes in that the transaction of this read appended to the list, in which the read found so many blocks; `is_shown`
    /// says whether the read shows it. Returns which writer comes next in the line.
    pub fn append(
        &mut self,
        transactions: &[Transaction],
        number: usize,
        read: Read,
        writers: usize,
        is_shown: bool,
    ) -> Result<Next, AllocError> {
        let Some(line) = self.lines.get(number) else {
            return Ok(Next::Itself);
        };
        if let Some(next) = line.writers.get(writers) {
            if *next == read.transaction {
                return Ok(Next::Itself);
            }
            if is_shown {
                return Ok(Next::Apart(line.evidence(writers)));
            }
            return Ok(Next::Other);
        }
        let key = line.key;
        if let Some(transaction) = transactions.get(read.transaction as usize) {
            let operations = transaction.operations.as_slice();
            self.stand(number, key, read.transaction, operations)?;
        }
        if let Some(line) = self.lines.get_mut(number) {
            line.writers.push(read.transaction)?;
            line.tail = Some(Tail { read, is_shown });
        }
        Ok(Next::Itself)
    }
}

fn writer_in(line: usize, transaction: u32) -> Writer {
    Writer {
        line: small(line),
        transaction,
    }
}

/// The bit of the first of these few steps that appends to the list of the key; none if none does.
fn first_append(operations: &[Operation], key: u64) -> u16 {
    let mut bit = 1u16;
    for operation in operations {
        if let Operation::Append { key: to, .. } = operation {
            if *to == key {
                return bit;
            }
        }
        bit = bit.checked_shl(1).unwrap_or(0);
    }
    0
}

/// The bits of those of these few steps that are the first to append to the list of their key.
fn first_appends(operations: &[Operation]) -> u16 {
    let mut bits = 0;
    for operation in operations {
        if let Operation::Append { key, .. } = operation {
            bits |= first_append(operations, *key);
        }
    }
    bits
}
