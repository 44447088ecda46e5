//! Lines read from a source.

ghost use Rattle.std.specs.Prelude.{◌≡◌, ◌≢◌, ◌↔◌, ◌⊎◌, ℕ, ◌+◌, ◌*◌, ◌<◌, ◌≤◌, List, [], ◌∷◌, ◌++◌, length, All, true};
ghost use Rattle.std.specs.Prelude.{false, if◌then◌else◌, IfOk, OnOk, IfSome, IsErrOf, IsTrue, slice_range};
ghost use Rattle.std.specs.Io.KnownBytes.{Consumes, IsAtEnd, prepend_known};
ghost use Rattle.devices.specs.Clauses.Lines.{work_left, line_end};
ghost use Rattle.devices.specs.Clauses.Reading.{TookFewReads};
ghost use Rattle.adya_text.specs.Machinery.LongLines.{IsLonger, EndsLine};

use devices::{LineBuffer, Source, SourceFault};
use std::alloc::AllocError;
use std::marker::Model;
use thiserror::Error;

/// Why no line came.
#[derive(Clone, Copy, Debug, PartialEq, Eq, Error, Drop)]
pub(crate) enum LineFault {
    /// The source failed.
    #[error("read fault")]
    Device,
    /// Memory ran out.
    #[error("memory")]
    Memory,
}

impl From<SourceFault> for LineFault {
    ghost use Rattle.adya_text.specs.declared.lines.LineFault.TheVariants.{Device};

    ghost from_gives = { λ _ e. e ≡ Device };

    fn from(_: SourceFault) -> LineFault {
        LineFault::Device
    }
}

/// How far a line is read that is longer than any text has it at its place.
#[derive(Clone, Copy)]
pub(crate) enum LongLines {
    /// No further than to find that out.
    Cut,
    /// Up to its line feed, or to the end of the input.
    Whole,
}

/// The lines of a source, of which these bytes were read and not yet taken. It belongs to one source.
#[derive(Drop)]
pub(crate) struct Lines {
    buffer: LineBuffer,
}

impl Model for Lines {
    ghost use Rattle.std.specs.Prelude.{List, ℕ};

    ghost Value = { List ℕ };

    ghost view = { λ l. l.buffer };
}

impl Lines {
    /// The lines of a source of which nothing was read.
    pub(crate) fn new() -> Lines
        ensures { result ≡ [] }
    {
        Lines {
            buffer: LineBuffer::new(),
        }
    }

    /// Moves the bytes up to the next line feed to the end of `line`, and drops the line feed. Returns whether there was
    /// one.
    fn take_line(&mut self, line: &mut Vec<u8>) -> Result<bool, AllocError>
        ensures moved { IfOk result (λ ended. (taken : List ℕ) × (line.new.items ≡ line.old.items ++ taken)
            × All (λ x. x ≢ 10) taken × (self.old ≡ taken ++ line_end ended ++ self.new)) }
        ensures all { IfOk result (λ ended. ended ≡ false → self.new ≡ []) }
        ensures less { IfOk result (λ ended. ended ≡ true → length self.new < length self.old) }
        ensures short { OnOk result (length line.new.items ≤ length line.old.items + 8192) }
    {
        let (front, ended) = self.buffer.front();
        line.extend_from_slice(front)?;
        let count = front.len();
        self.buffer.take(count, ended);
        Ok(ended)
    }

    /// Drops the bytes up to the next line feed, and the line feed. Returns whether there was one.
    fn drop_piece(&mut self) -> bool
        ensures dropped { (dropped : List ℕ) × All (λ x. x ≢ 10) dropped × (self.old ≡ dropped ++ line_end result ++ self.new) }
        ensures all { result ≡ false → self.new ≡ [] }
    {
        let (front, ended) = self.buffer.front();
        let count = front.len();
        self.buffer.take(count, ended);
        ended
    }

    /// Reads up to the next line feed, or to the end of the input. Keeps nothing of it. `Device` if the source failed.
    fn drop_line<S: Source>(&mut self, source: &mut S) -> Result<(), LineFault>
        ensures ended { OnOk result (EndsLine (prepend_known self.old (S.remaining source.old)) (prepend_known self.new (S.remaining source.new))
            ⊎ ((self.new ≡ []) × IsAtEnd (S.remaining source.new))) }
        ensures fault { IsErrOf result LineFault.Device → S.is_failed source.new ≡ true }
        ensures memory { IsErrOf result LineFault.Memory → ⊥ }
        ensures unfailed { (IsErrOf result LineFault.Device → ⊥) → S.is_failed source.new ≡ S.is_failed source.old }
        ensures few { TookFewReads S.remaining S.left source.old source.new 1 }
        ensures stream { S.same source.old source.new }
    {
        loop {
            if self.drop_piece() {
                return Ok(());
            }
            if !self.buffer.fill(source)? {
                return Ok(());
            }
        }
    }

    /// Reads the next line, without its line feed, in place of what `line` held; it may have any length if `longest` is
    /// `None`. Returns false if the input ended before a line feed, or if more than `longest` bytes came without one;
    /// `line` then holds what was read after the last one, at most 8192 bytes more than `longest`. `Device` if the source
    /// failed, `Memory` if `line` could not grow. `work_left` falls with each line. Each read brings a byte at least, but for
    /// the last one of an input that has ended or failed.
    pub(crate) fn next_line<S: Source>(
        &mut self,
        source: &mut S,
        line: &mut Vec<u8>,
        longest: Option<usize>,
    ) -> Result<bool, LineFault>
        ensures bytes { IfOk result
            (λ ended. Consumes (prepend_known self.old (S.remaining source.old))
            (prepend_known self.new (S.remaining source.new)) (line.new.items ++ line_end ended)) }
        ensures plain { OnOk result (All (λ x. x ≢ 10) line.new.items) }
        ensures short { OnOk result (IfSome longest (λ most. length line.new.items ≤ most + 8192)) }
        ensures end { IfOk result (λ ended. ended ≡ false
            → IsLonger longest line.new.items ⊎ ((self.new ≡ []) × IsAtEnd (S.remaining source.new))) }
        ensures less { IfOk result (λ ended. ended ≡ true
            → work_left (S.left source.new) self.new < work_left (S.left source.old) self.old) }
        ensures few { TookFewReads S.remaining S.left source.old source.new 1 }
        ensures no_idle { IfOk result (λ ended. (ended ≡ true) ⊎ IsLonger longest line.new.items
            → TookFewReads S.remaining S.left source.old source.new 0) }
        ensures fault { IsErrOf result LineFault.Device → S.is_failed source.new ≡ true }
        ensures stream { S.same source.old source.new }
        ensures unfailed { (IsErrOf result LineFault.Device → ⊥) → S.is_failed source.new ≡ S.is_failed source.old }
        ensures works { (self.old ≡ []) ⊎ (S.is_failed source.old ≡ false)
            → OnOk result (S.is_failed source.new ≡ false) }
    {
        line.clear();
        loop {
            if self.take_line(line).map_err(|_| LineFault::Memory)? {
                return Ok(true);
            }
            if is_longer(line, longest) {
                return Ok(false);
            }
            if !self.buffer.fill(source)? {
                return Ok(false);
            }
        }
    }

    /// Reads on after the `start` of a line, if that has more than `longest` bytes and such lines are read whole: up to the
    /// line feed, or to the end of the input. Keeps nothing of it. `Device` if the source failed.
    pub(crate) fn pass_over<S: Source>(
        &mut self,
        source: &mut S,
        start: &[u8],
        longest: Option<usize>,
        long: LongLines,
    ) -> Result<(), LineFault>
        ensures ended { long ≡ LongLines.Whole → IsLonger longest start.now
            → OnOk result (EndsLine (prepend_known self.old (S.remaining source.old)) (prepend_known self.new (S.remaining source.new))
            ⊎ ((self.new ≡ []) × IsAtEnd (S.remaining source.new))) }
        ensures untouched { ((self.new ≡ self.old) × (source.new ≡ source.old)) ⊎ IsLonger longest start.now }
        ensures fault { IsErrOf result LineFault.Device → S.is_failed source.new ≡ true }
        ensures memory { IsErrOf result LineFault.Memory → ⊥ }
        ensures unfailed { (IsErrOf result LineFault.Device → ⊥) → S.is_failed source.new ≡ S.is_failed source.old }
        ensures few { TookFewReads S.remaining S.left source.old source.new 1 }
        ensures stream { S.same source.old source.new }
    {
        match long {
            LongLines::Whole if is_longer(start, longest) => self.drop_line(source),
            _ => Ok(()),
        }
    }
}

/// Returns whether these are more than `longest` bytes; false if that is `None`.
fn is_longer(bytes: &[u8], longest: Option<usize>) -> bool
    ensures { IsTrue result ↔ IsLonger longest bytes.now }
{
    match longest {
        Some(most) => most < bytes.len(),
        None => false,
    }
}
