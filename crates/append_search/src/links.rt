//! Which transactions have to come before which: a few links, from which all others follow.

use crate::lines::{Line, Lines};
use crate::reading::{Reading, small};
use append_values::{Kind, Link, Operation, Read, Transaction};
use std::alloc::{AllocError, Global};

/// Takes links, one after another.
pub(crate) trait Sink {
    /// Takes the link.
    fn take(&mut self, link: Link) -> Result<(), AllocError>;
}

/// Makes links between transactions, and from and to a helper node for the end of each line. The kind of a link to a
/// helper is that of the link to each transaction to which one leads from it.
#[derive(Drop)]
pub(crate) struct Links<'a> {
    pub lines: &'a Lines,
    /// How many transactions there are: the helper of the line with number n is this much above n.
    pub transactions: u32,
    /// The transactions that an order has and that may have appended what nobody read.
    pub unseen: &'a [u32],
}

impl Links<'_> {
    /// Gives the links of the lines and of the readings to the sink.
    pub fn give<K: Sink>(
        &self,
        transactions: &[Transaction],
        readings: &[Reading],
        sink: &mut K,
    ) -> Result<(), AllocError> {
        'lines: for (number, line) in self.lines.lines.iter().enumerate() {
            self.give_line(line, number, sink)?;
        }
        'readings: for reading in readings {
            if let Some(line) = self.lines.lines.get(reading.line()) {
                self.give_reading(line, reading, sink)?;
            }
        }
        'unseen: for place in self.unseen {
            if let Some(transaction) = transactions.get(*place as usize) {
                self.give_unseen(*place, transaction.operations.as_slice(), sink)?;
            }
        }
        Ok(())
    }

    /// Returns the helper node of the line with this number.
    pub fn helper(&self, line: usize) -> u32 {
        self.transactions.saturating_add(small(line))
    }

    // From each writer to the next one, and from the last one and the last one that a read shows to the helper.
    fn give_line<K: Sink>(
        &self,
        line: &Line,
        number: usize,
        sink: &mut K,
    ) -> Result<(), AllocError> {
        let mut before = None;
        'writers: for writer in &line.writers {
            if let Some(from) = before {
                sink.take(Link {
                    from,
                    to: *writer,
                    kind: Kind::WriteWrite(line.source),
                })?;
            }
            before = Some(*writer);
        }
        if let Some(from) = before {
            let kind = match line.tail {
                Some(tail) if tail.is_shown => Kind::WriteWrite(tail.read),
                Some(tail) => Kind::ReadWrite(tail.read),
                None => Kind::WriteWrite(line.source),
            };
            let to = self.helper(number);
            sink.take(Link { from, to, kind })?;
        }
        self.give_last_seen(line, number, sink)
    }

    // From the last writer that a read shows to the helper, if another one follows it.
    fn give_last_seen<K: Sink>(
        &self,
        line: &Line,
        number: usize,
        sink: &mut K,
    ) -> Result<(), AllocError> {
        let seen = line.seen();
        if seen < line.writers.len() {
            if let Some(last) = seen.checked_sub(1) {
                if let Some(from) = line.writers.get(last) {
                    sink.take(Link {
                        from: *from,
                        to: self.helper(number),
                        kind: Kind::WriteWrite(line.source),
                    })?;
                }
            }
        }
        Ok(())
    }

    // From the last writer that the read shows to the reader, and from the reader to the next one.
    fn give_reading<K: Sink>(
        &self,
        line: &Line,
        reading: &Reading,
        sink: &mut K,
    ) -> Result<(), AllocError> {
        let read = reading.read();
        let reader = read.transaction;
        if let Some(last) = reading.writers().checked_sub(1) {
            if let Some(writer) = line.writers.get(last) {
                sink.take(Link {
                    from: *writer,
                    to: reader,
                    kind: Kind::WriteRead(read),
                })?;
            }
        }
        let to = match line.writers.get(reading.writers()) {
            Some(next) => *next,
            None => self.helper(reading.line()),
        };
        if to != reader {
            sink.take(Link {
                from: reader,
                to,
                kind: Kind::ReadWrite(read),
            })?;
        }
        Ok(())
    }

    // From the helper to a transaction that appends to the key and whose elements nobody read. The way through the helper is
    // of the kind of the link to it.
    fn give_unseen<K: Sink>(
        &self,
        place: u32,
        operations: &[Operation],
        sink: &mut K,
    ) -> Result<(), AllocError> {
        'steps: for operation in operations {
            if let Operation::Append { key, .. } = operation {
                if let Some(line) = self.lines.number(*key) {
                    if !self.lines.has(line, *key, place, operations) {
                        let from = self.helper(line);
                        let read = Read {
                            transaction: place,
                            step: 0,
                        };
                        sink.take(Link {
                            from,
                            to: place,
                            kind: Kind::WriteWrite(read),
                        })?;
                    }
                }
            }
        }
        Ok(())
    }
}
