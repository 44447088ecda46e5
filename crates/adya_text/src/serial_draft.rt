//! Certificates in the making.

ghost use Rattle.std.specs.Prelude.{◌≡◌, ◌<◌, ◌^◌, [], length, OnOk, MatchOption};
ghost use Rattle.adya_line.specs.Clauses.SerialLines.{line_of};
ghost use Rattle.adya_text.specs.Computing.Runs.{IsAllowed, IsRefused};
ghost use Rattle.adya_text.specs.Computing.SerialRuns.{allows, serial_machine, stage_after};
ghost use Rattle.adya_text.specs.Clauses.Grammars.{AreSerialLines};
ghost use Rattle.adya_text.specs.Clauses.Reading.{ReadsSerial};
ghost use Rattle.adya_text.specs.Machinery.SerialDrafts.{HasLines, Takes, line_after, longest_line};

use crate::line_reader::Draft;
use crate::read_fault::Text;
use adya_line::laws::serial_lines;
use adya_line::{SerialLine, serial_line};
use adya_values::{Serial, Txn};
use std::alloc::{AllocError, Global};

/// How many bytes the head has, `serial 1`.
const HEAD: usize = 8;

/// The most bytes of a transaction's number, which is at most 4294967295. The tail has fewer.
const TXN: usize = 10;

/// Which lines may come next.
#[derive(Clone, Copy)]
enum Stage {
    /// The head.
    Head,
    /// A transaction or the tail.
    Txns,
    /// None.
    Done,
}

impl Stage {
    fn allows(&self, line: &SerialLine) -> bool
        ensures { result ≡ allows self.now (line_of line.now) }
    {
        match line {
            SerialLine::Head => matches!(self, Stage::Head),
            SerialLine::Txn(_) | SerialLine::Tail => matches!(self, Stage::Txns),
        }
    }

    /// Returns the most bytes that the next line can have: 0 if none may come.
    fn longest_line(&self) -> Option<usize>
        ensures { result ≡ longest_line self.now }
    {
        match self {
            Stage::Head => Some(HEAD),
            Stage::Txns => Some(TXN),
            Stage::Done => Some(0),
        }
    }

    /// Returns the number of the line after the head and the tail that led to this stage.
    fn line_after(&self) -> usize
        ensures { result ≡ line_after self.now }
    {
        match self {
            Stage::Head => 1,
            Stage::Txns => 2,
            Stage::Done => 3,
        }
    }

    /// Returns the stage after a line.
    fn after(line: &SerialLine) -> Stage
        ensures { result ≡ stage_after (line_of line.now) }
    {
        match line {
            SerialLine::Head | SerialLine::Txn(_) => Stage::Txns,
            SerialLine::Tail => Stage::Done,
        }
    }
}

/// What the lines of a certificate text hold so far.
#[derive(Drop)]
pub(crate) struct SerialDraft {
    stage: Stage,
    txns: Vec<Txn>,
}

impl SerialDraft {
    /// The draft of no line.
    pub(crate) fn new(alloc: Global) -> SerialDraft
        ensures { HasLines result [] }
    {
        SerialDraft {
            stage: Stage::Head,
            txns: Vec::new(alloc),
        }
    }

    /// Returns the line by its kind, if it may come next.
    fn allowed(&self, line: &[u8]) -> Option<SerialLine>
        ensures { MatchOption result (IsRefused serial_machine self.now.stage line.now)
            (λ x. IsAllowed serial_machine self.now.stage line.now (line_of x)) }
    {
        let Some(read) = serial_line(line) else {
            return None;
        };
        if !self.stage.allows(&read) {
            return None;
        }
        Some(read)
    }

    fn take_allowed(&mut self, line: SerialLine) -> Result<(), AllocError>
        ensures { OnOk result (Takes self.old self.new (line_of line)) }
    {
        let stage = Stage::after(&line);
        if let SerialLine::Txn(txn) = line {
            self.txns.push(txn)?;
        }
        self.stage = stage;
        Ok(())
    }
}

impl Draft for SerialDraft {
    ghost use Rattle.adya_text.specs.declared.read_fault.Text.TheVariants as Of;

    type Value = Serial;

    const TEXT: Text = Text::Serial;

    ghost TEXT = { Of.Serial };

    ghost grammar = { AreSerialLines };

    ghost has_lines = { HasLines };

    ghost reads = { ReadsSerial };

    ghost faulty = { λ text line is. is };

    ghost no_memory = { λ text. tt };

    ghost no_device = { λ text. tt };

    fn begins(&self) {}

    /// Returns the number of the line that comes next. The lines before are the head, the tail and those of the
    /// transactions, so the number fits.
    fn next_line(&self) -> usize {
        self.stage.line_after() + number_of(&self.txns)
    }

    fn longest_line(&self) -> Option<usize> {
        serial_lines();
        self.stage.longest_line()
    }

    fn take(&mut self, line: &[u8]) -> Result<bool, AllocError> {
        serial_lines();
        let Some(line) = self.allowed(line) else {
            return Ok(false);
        };
        self.take_allowed(line)?;
        Ok(true)
    }

    fn value(self) -> Option<Serial> {
        serial_lines();
        let Stage::Done = self.stage else {
            return None;
        };
        Some(Serial::new(self.txns))
    }
}

fn number_of(txns: &[Txn]) -> usize
    ensures count { result ≡ length txns.now }
    ensures near { result < 2 ^ 63 }
{
    txns.len()
}
