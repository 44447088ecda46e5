//! A log of lines, and what is on its way there.

ghost use Rattle.std.specs.Prelude.{◌≡◌, ◌≤◌, ◌+◌, ℕ, List, [], ◌∷◌, ◌++◌, true, false, IfOk, IfErr, OnOk, OnErr, length};
ghost use Rattle.adya_keys.specs.Meaning.Keys.{Bytes};
ghost use Rattle.adya_line.specs.Meaning.Lines.{IsPlain};
ghost use Rattle.ssi_log.specs.Machinery.Standing.{end_of};
ghost use Rattle.ssi_log.specs.Meaning.Texts.{HasNoZero};
ghost use Rattle.ssi_durable.specs.Clauses.Journals.{HasAll, is_full};

use crate::buffer::{Buffer, MAX_LINE_LEN, SIZE};
use sqlite_disk::Disk;
use ssi_log::laws::open_logs_keep_their_text;
use ssi_log::{Log, LogFault};
use std::alloc::{AllocError, Global};

/// By so many bytes the file is filled with zeros ahead.
const AHEAD: usize = 1_048_576;

/// A log of lines, with a buffer of those that it doesn't have yet.
#[derive(Drop)]
pub(crate) struct Journal<D: Disk> {
    log: Log<D>,
    buffer: Buffer,
    // all lines are on the disk
    is_settled: bool,
    // a call of the log has failed
    has_failed: bool,
}

impl<D: Disk + Drop> Journal<D> {
    ghost use Rattle.ssi_durable.specs.Mirror.Journals.{Keeps, is_settled, has_failed, buffer_of};

    /// A journal of the lines that the log has.
    pub(crate) fn new(alloc: Global, log: Log<D>) -> Result<Journal<D>, AllocError>
        ensures keeps { (lines : List Bytes) → HasAll log lines → IfOk result (λ journal. Keeps journal lines lines) }
        ensures settled { IfOk result (λ journal. is_settled journal ≡ true) }
        ensures going { IfOk result (λ journal. has_failed journal ≡ false) }
        ensures log { IfOk result (λ journal. journal.log ≡ log) }
    {
        open_logs_keep_their_text(&log);
        Ok(Journal {
            log,
            buffer: Buffer::new(alloc)?,
            is_settled: true,
            has_failed: false,
        })
    }

    /// Goes on with the lines that this log has.
    pub(crate) fn go_on_with(&mut self, log: Log<D>)
        ensures keeps { (lines : List Bytes) → HasAll log lines → Keeps self.new lines lines }
        ensures settled { is_settled self.new ≡ true }
        ensures going { has_failed self.new ≡ false }
        ensures log { self.new.log ≡ log }
    {
        open_logs_keep_their_text(&log);
        self.log = log;
        let buffer = &mut self.buffer;
        buffer.clear();
        self.is_settled = true;
        self.has_failed = false;
    }

    /// Returns how many bytes the log has.
    pub(crate) fn log_len(&self) -> usize
        ensures { result ≡ end_of self.now.log }
    {
        self.log.len()
    }

    /// Makes room for a line in the buffer, and for all of the buffer in the log. `Full` if the file can't grow: then there may
    /// be room in the buffer alone.
    pub(crate) fn make_room(&mut self) -> Result<(), LogFault>
        ensures keeps { (sure all : List Bytes) → Keeps self.old sure all → Keeps self.new sure all }
        ensures room { OnOk result (length (buffer_of self.new) + 4097 ≤ 65536) }
        ensures going { OnOk result (has_failed self.new ≡ false) }
        ensures full { IfErr result (λ fault. is_full fault ≡ true
            → (length (buffer_of self.new) + 4097 ≤ 65536) × (has_failed self.new ≡ false)) }
        ensures fault { IfErr result (λ fault. is_full fault ≡ false → has_failed self.new ≡ true) }
        ensures settled { is_settled self.old ≡ true → has_failed self.new ≡ false → is_settled self.new ≡ true }
    {
        if self.has_failed {
            return Err(LogFault::Closed);
        }
        if self.buffer.len() > SIZE - MAX_LINE_LEN - 1 {
            self.hand_over()?;
        }
        if self.log.room() >= SIZE {
            return Ok(());
        }
        self.extend()
    }

    /// Fills the file with zeros ahead.
    fn extend(&mut self) -> Result<(), LogFault>
        requires { has_failed self.old ≡ false }
        ensures keeps { (sure all : List Bytes) → Keeps self.old sure all → Keeps self.new sure all }
        ensures buffer { buffer_of self.new ≡ buffer_of self.old }
        ensures going { OnOk result (has_failed self.new ≡ false) }
        ensures full { IfErr result (λ fault. is_full fault ≡ true → has_failed self.new ≡ false) }
        ensures fault { IfErr result (λ fault. is_full fault ≡ false → has_failed self.new ≡ true) }
        ensures settled { has_failed self.new ≡ false → is_settled self.new ≡ is_settled self.old }
    {
        open_logs_keep_their_text(&self.log);
        let Err(fault) = self.log.extend(AHEAD) else {
            return Ok(());
        };
        if is_full(&fault) {
            return Err(fault);
        }
        Err(self.fail(fault))
    }

    /// Hands the lines of the buffer over to the log.
    fn hand_over(&mut self) -> Result<(), LogFault>
        requires { has_failed self.old ≡ false }
        ensures keeps { (sure all : List Bytes) → Keeps self.old sure all → Keeps self.new sure all }
        ensures handed { OnOk result (buffer_of self.new ≡ []) }
        ensures going { OnOk result (has_failed self.new ≡ false) }
        ensures failed { OnErr result (has_failed self.new ≡ true) }
        ensures full { IfErr result (λ fault. is_full fault ≡ true → has_failed self.new ≡ false) }
        ensures settled { OnOk result (is_settled self.new ≡ is_settled self.old) }
    {
        match self.log.append(self.buffer.bytes()) {
            Ok(()) => {
                self.buffer.clear();
                Ok(())
            }
            Err(fault) => Err(self.fail(fault)),
        }
    }

    /// Notes that the log has failed.
    fn fail(&mut self, fault: LogFault) -> LogFault
        ensures fault { result ≡ fault }
        ensures failed { has_failed self.new ≡ true }
        ensures settled { is_settled self.new ≡ false }
        ensures log { self.new.log ≡ self.old.log }
        ensures buffer { self.new.buffer ≡ self.old.buffer }
    {
        self.has_failed = true;
        self.is_settled = false;
        fault
    }

    /// Adds a line.
    pub(crate) fn add(&mut self, line: &[u8])
        requires room { length (buffer_of self.old) + 4097 ≤ 65536 }
        requires short { length line.now ≤ 4096 }
        requires going { has_failed self.old ≡ false }
        ensures { (sure all : List Bytes) → Keeps self.old sure all → IsPlain line.now → HasNoZero line.now
            → Keeps self.new sure (all ++ line.now ∷ []) }
    {
        self.buffer.add(line);
        self.is_settled = false;
    }

    /// Waits until all lines are on the disk. If it fails, the journal has failed.
    pub(crate) fn settle(&mut self) -> Result<(), LogFault>
        ensures keeps { (sure all : List Bytes) → Keeps self.old sure all → Keeps self.new sure all }
        ensures settled { OnOk result (is_settled self.new ≡ true) }
        ensures going { OnOk result (has_failed self.new ≡ false) }
        ensures failed { OnErr result (has_failed self.new ≡ true) }
    {
        if self.has_failed {
            return Err(LogFault::Closed);
        }
        if self.is_settled {
            return Ok(());
        }
        self.hand_over()?;
        self.sync()
    }

    fn sync(&mut self) -> Result<(), LogFault>
        requires handed { buffer_of self.old ≡ [] }
        requires going { has_failed self.old ≡ false }
        ensures keeps { (sure all : List Bytes) → Keeps self.old sure all → Keeps self.new sure all }
        ensures settled { OnOk result (is_settled self.new ≡ true) }
        ensures going { OnOk result (has_failed self.new ≡ false) }
        ensures failed { OnErr result (has_failed self.new ≡ true) }
    {
        open_logs_keep_their_text(&self.log);
        match self.log.sync() {
            Ok(()) => {
                self.is_settled = true;
                Ok(())
            }
            Err(fault) => Err(self.fail(fault)),
        }
    }

    /// A crash leaves all lines if it is settled.
    pub(crate) fn settled_lines_are_sure(&self)
        ensures { is_settled self.now ≡ true → (sure all : List Bytes) → Keeps self.now sure all → Keeps self.now all all }
    {
        open_logs_keep_their_text(&self.log);
    }

    /// Returns whether a call of the log has failed.
    pub(crate) fn has_failed(&self) -> bool
        ensures { result ≡ has_failed self.now }
    {
        self.has_failed
    }

    /// Returns whether all lines are on the disk.
    pub(crate) fn is_settled(&self) -> bool
        ensures { result ≡ is_settled self.now }
    {
        self.is_settled
    }
}

/// Returns whether the file can't grow, and all else is as before.
pub(crate) fn is_full(fault: &LogFault) -> bool
    ensures { result ≡ is_full fault.now }
{
    matches!(fault, LogFault::Full(_))
}
