//! How often memory was refused.

use std::alloc::Global;

/// Counts the calls that were refused memory.
#[derive(Drop)]
pub(crate) struct Tally {
    alloc: Global,
    refused: u32,
    line: u32,
}

impl Tally {
    /// Makes a tally of no calls.
    pub(crate) fn new(alloc: Global) -> Tally {
        Tally {
            alloc,
            refused: 0,
            line: 0,
        }
    }

    /// Returns the allocator that the calls take.
    pub(crate) fn alloc(&self) -> Global {
        self.alloc
    }

    /// Counts a line of the test.
    pub(crate) fn begin_line(&mut self) {
        self.line = self.line.saturating_add(1);
    }

    /// Returns which line of the test was begun last; 0 if its lines aren't counted.
    pub(crate) fn line(&self) -> u32 {
        self.line
    }

    /// Counts a call that was refused memory.
    pub(crate) fn refuse(&mut self) {
        self.refused = self.refused.saturating_add(1);
    }

    /// Returns the end of a test's line.
    pub(crate) fn text(&self) -> &'static str {
        match self.refused {
            0 => ", none refused\n",
            1 => ", one refused\n",
            _ => ", several refused\n",
        }
    }
}

/// Makes a call, and once more if its result says that it was refused memory.
macro_rules! again {
    ($tally:expr, $refused:pat, $call:expr) => {
        match $call {
            $refused => {
                $tally.refuse();
                $call
            }
            done => done,
        }
    };
}

pub(crate) use again;
