//! The first read of a key by a committed transaction.

use append_values::Read;

/// The largest step that is told from others.
const MOST: u32 = 1073741823;

/// Whether the transaction of a read appends to what it read.
#[derive(Clone, Copy, PartialEq, Eq)]
pub(crate) enum Appends {
    /// It doesn't.
    Nothing,
    /// It does after the read alone.
    Later,
    /// It has before the read, which shows this.
    Sooner,
    /// It has after its first read of the list, and this read is a later one, which shows it.
    Between,
}

/// Which read it is, and what it shows. There are many, so they are kept small: a number beyond 32 bits becomes the
/// largest one, and a step beyond 30 bits `MOST`. What the search finds of such a history may be wrong, and then isn't taken.
#[derive(Clone, Copy)]
pub(crate) struct Reading {
    transaction: u32,
    /// Four times the step, and from 0 to 3 more, by what the transaction appends.
    step: u32,
    line: u32,
    writers: u32,
}

impl Reading {
    /// A read that shows so many writers of the line with this number.
    pub fn new(read: Read, line: usize, writers: usize, appends: Appends) -> Reading {
        let step = small(read.step).min(MOST).saturating_mul(4);
        Reading {
            transaction: read.transaction,
            step: match appends {
                Appends::Nothing => step,
                Appends::Later => step.saturating_add(1),
                Appends::Sooner => step.saturating_add(2),
                Appends::Between => step.saturating_add(3),
            },
            line: small(line),
            writers: small(writers),
        }
    }

    pub fn read(&self) -> Read {
        Read {
            transaction: self.transaction,
            step: (self.step / 4) as usize,
        }
    }

    /// Returns whether the transaction appends to the list.
    pub fn appends(&self) -> Appends {
        match self.step % 4 {
            0 => Appends::Nothing,
            1 => Appends::Later,
            2 => Appends::Sooner,
            _ => Appends::Between,
        }
    }

    /// Takes in a later read of the list that found the same, and what its own transaction had appended in between.
    pub fn go_on(&mut self, read: Read) {
        if self.appends() == Appends::Later {
            let step = small(read.step).min(MOST).saturating_mul(4);
            self.step = step.saturating_add(3);
        }
    }

    /// Returns the number of the key's line.
    pub fn line(&self) -> usize {
        self.line as usize
    }

    /// Returns how many writers of the line the read shows.
    pub fn writers(&self) -> usize {
        self.writers as usize
    }
}

/// Returns the number, or the largest one of 32 bits if it has more.
pub(crate) fn small(number: usize) -> u32 {
    u32::try_from(number).unwrap_or(u32::MAX)
}
