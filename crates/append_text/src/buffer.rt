//! The bytes of a source, one piece at a time.

ghost use Rattle.std.specs.Prelude.{◌≡◌, ◌≤◌, ◌<◌, ◌+◌, ◌-◌, true, length, if◌then◌else◌, IfOk};
ghost use Rattle.append_text.specs.Machinery.Buffers.{work_left};

use crate::read_fault::ReadFault;
use crate::text_form::{TextForm, is_mark, text_form};
use devices::Source;
use memchr::memchr;
use std::alloc::AllocError;

/// The most bytes of one read.
const ROOM: usize = 8192;

/// The bytes that were read from a source, and not yet taken. One buffer belongs to one source.
#[derive(Drop)]
pub(crate) struct Buffer {
    bytes: [u8; ROOM],
    start: usize,
    end: usize,
    ghost ordered: { start ≤ end },
    ghost within: { end ≤ 8192 },
}

impl Buffer {
    ghost use Rattle.std.specs.Prelude.{◌⊎◌, ◌++◌, ℕ, List, [], Option, false, Some, IfErr, OnOk, take};
    ghost use Rattle.std.specs.Io.KnownBytes.{IsAtEnd};
    ghost use Rattle.append_text.specs.Meaning.Notations.{after_mark, notation_in};
    ghost use Rattle.append_text.specs.Machinery.BufferTexts.{AddsFront, HasLeft, TakesLine, pending_in};
    ghost use Rattle.append_text.specs.Machinery.JsonReading.{SaysNothing};

    /// A buffer for a source of which nothing was read.
    pub(crate) fn new() -> Buffer
        ensures pending { pending_in result ≡ [] }
        ensures start { result.start ≡ 0 }
        ensures end { result.end ≡ 0 }
    {
        Buffer {
            bytes: [0; ROOM],
            start: 0,
            end: 0,
        }
    }

    /// Returns the bytes.
    pub(crate) fn pending(&self) -> &[u8]
        ensures { result.now ≡ pending_in self.now }
    {
        &self.bytes[self.start..self.end]
    }

    /// Returns what the text is written in. Reads until that is decided; a text that ends before, or begins with 8192
    /// blanks, is one of EDN. `Device` if the source failed.
    pub(crate) fn form<S: Source>(&mut self, source: &mut S) -> Result<TextForm, ReadFault>
        ensures kept { (text : List ℕ) → HasLeft self.old (S.remaining source.old) text
            → OnOk result (HasLeft self.new (S.remaining source.new) text) }
        ensures form { (text : List ℕ) → self.old.start ≡ 0 → HasLeft self.old (S.remaining source.old) text
            → IfOk result (λ f. f ≡ notation_in text) }
        ensures start { self.new.start ≡ self.old.start }
        ensures fault { IfErr result (λ e. e ≡ ReadFault.Device) }
        ensures device { IfErr result (λ _. S.is_failed source.new ≡ true) }
    {
        loop {
            if let Some(form) = text_form(self.pending()) {
                return Ok(form);
            }
            if !self.read_more(source)? {
                return Ok(TextForm::Edn);
            }
        }
    }

    /// Reads until the buffer is full, or the source has no more. `Device` if the source failed.
    pub(crate) fn fill_up<S: Source>(&mut self, source: &mut S) -> Result<(), ReadFault>
        ensures kept { (text : List ℕ) → HasLeft self.old (S.remaining source.old) text
            → OnOk result (HasLeft self.new (S.remaining source.new) text) }
        ensures first { (text : List ℕ) → self.old.start ≡ 0 → HasLeft self.old (S.remaining source.old) text
            → OnOk result (pending_in self.new ≡ take 8192 text) }
        ensures fault { IfErr result (λ e. e ≡ ReadFault.Device) }
        ensures device { IfErr result (λ _. S.is_failed source.new ≡ true) }
    {
        loop {
            if !self.read_more(source)? {
                return Ok(());
            }
        }
    }

    /// Passes over a byte order mark, if the text begins with one. `Device` if the source failed.
    pub(crate) fn skip_mark<S: Source>(&mut self, source: &mut S) -> Result<(), ReadFault>
        ensures kept { (text : List ℕ) → self.old.start ≡ 0 → self.old.end ≡ 0 → HasLeft self.old (S.remaining source.old) text
            → OnOk result (HasLeft self.new (S.remaining source.new) (after_mark text)) }
        ensures start { self.new.start ≡ self.old.start }
        ensures fault { IfErr result (λ e. e ≡ ReadFault.Device) }
        ensures device { IfErr result (λ _. S.is_failed source.new ≡ true) }
    {
        while self.end < 3 {
            if !self.read_up_to(3, source)? {
                return Ok(());
            }
        }
        self.drop_mark();
        Ok(())
    }

    /// Drops the three bytes that are pending, if they are a byte order mark.
    fn drop_mark(&mut self)
        ensures kept { (left : Option (List ℕ)) (text : List ℕ) → self.old.start ≡ 0 → self.old.end ≡ 3
            → HasLeft self.old left text → HasLeft self.new left (after_mark text) }
        ensures start { self.new.start ≡ self.old.start }
    {
        if is_mark(self.pending()) {
            self.end = self.start;
        }
    }

    /// Reads more bytes behind those that are pending. Returns whether any came.
    fn read_more<S: Source>(&mut self, source: &mut S) -> Result<bool, ReadFault>
        ensures kept { (text : List ℕ) → HasLeft self.old (S.remaining source.old) text
            → OnOk result (HasLeft self.new (S.remaining source.new) text) }
        ensures end { IfOk result (λ some. some ≡ false
            → (pending_in self.new ≡ pending_in self.old) × ((length (pending_in self.old) + self.old.start ≡ 8192) ⊎ IsAtEnd (S.remaining source.new))) }
        ensures start { self.new.start ≡ self.old.start }
        ensures fault { IfErr result (λ e. e ≡ ReadFault.Device) }
        ensures device { IfErr result (λ _. S.is_failed source.new ≡ true) }
        ensures less { IfOk result (λ some. some ≡ true → S.left source.new < S.left source.old) }
        ensures work { IfOk result (λ _. work_left (S.left source.new) self.new.start self.new.end
            ≤ work_left (S.left source.old) self.old.start self.old.end) }
    {
        self.read_up_to(ROOM, source)
    }

    /// Reads more bytes behind those that are pending, up to this place. Returns whether any came.
    fn read_up_to<S: Source>(&mut self, most: usize, source: &mut S) -> Result<bool, ReadFault>
        requires room { self.old.end ≤ most }
        requires fits { most ≤ 8192 }
        ensures kept { (text : List ℕ) → HasLeft self.old (S.remaining source.old) text
            → OnOk result (HasLeft self.new (S.remaining source.new) text) }
        ensures end { IfOk result (λ some. some ≡ false
            → (pending_in self.new ≡ pending_in self.old) × ((length (pending_in self.old) + self.old.start ≡ most) ⊎ IsAtEnd (S.remaining source.new))) }
        ensures start { self.new.start ≡ self.old.start }
        ensures short { OnOk result (self.new.end ≤ most) }
        ensures fault { IfErr result (λ e. e ≡ ReadFault.Device) }
        ensures device { IfErr result (λ _. S.is_failed source.new ≡ true) }
        ensures less { IfOk result (λ some. some ≡ true → S.left source.new < S.left source.old) }
        ensures work { IfOk result (λ _. work_left (S.left source.new) self.new.start self.new.end
            ≤ work_left (S.left source.old) self.old.start self.old.end) }
    {
        match source.pull(&mut self.bytes[self.end..most]) {
            Ok(n) => {
                self.end += n;
                Ok(n != 0)
            }
            Err(_) => Err(ReadFault::Device),
        }
    }

    /// Reads more bytes after all were taken. Returns whether any came; `Device` if the source failed.
    pub(crate) fn fill<S: Source>(&mut self, source: &mut S) -> Result<bool, ReadFault>
        ensures kept { (text : List ℕ) → S.remaining source.old ≡ Some text
            → OnOk result (HasLeft self.new (S.remaining source.new) text) }
        ensures end { IfOk result (λ some. some ≡ false → (pending_in self.new ≡ []) × IsAtEnd (S.remaining source.new)) }
        ensures fault { IfErr result (λ e. e ≡ ReadFault.Device) }
        ensures device { IfErr result (λ _. S.is_failed source.new ≡ true) }
        ensures less { IfOk result (λ some. some ≡ true → S.left source.new < S.left source.old) }
        ensures work { IfOk result (λ _. work_left (S.left source.new) self.new.start self.new.end
            ≤ work_left (S.left source.old) self.old.start self.old.end) }
    {
        self.start = 0;
        self.end = 0;
        self.read_more(source)
    }

    /// Moves the bytes up to the next line feed to the end of `line`, and drops the line feed. Returns whether there was
    /// one; all bytes are taken if there was none.
    fn take_line(&mut self, line: &mut Vec<u8>) -> Result<bool, AllocError>
        ensures size { IfOk result (λ ended. (self.new.end - self.new.start) + length line.new.items + (if ended then 1 else 0)
            ≡ (self.old.end - self.old.start) + length line.old.items) }
        ensures front { IfOk result (λ ended. AddsFront ended (pending_in self.old) (pending_in self.new) line.old.items line.new.items) }
        ensures all { IfOk result (λ ended. ended ≡ false → pending_in self.new ≡ []) }
    {
        let pending = &self.bytes[self.start..self.end];
        match memchr(b'\n', pending) {
            Some(at) => {
                line.extend_from_slice(&pending[..at])?;
                self.start += at + 1;
                Ok(true)
            }
            None => {
                line.extend_from_slice(pending)?;
                self.start = self.end;
                Ok(false)
            }
        }
    }

    /// Reads the next line, without its line feed, in place of what `line` held. Returns false if there is none.
    pub(crate) fn next_line<S: Source>(
        &mut self,
        source: &mut S,
        line: &mut Vec<u8>,
    ) -> Result<bool, ReadFault>
        ensures line { (text : List ℕ) → HasLeft self.old (S.remaining source.old) text → IfOk result (λ some.
            (rest : List ℕ) × HasLeft self.new (S.remaining source.new) rest × TakesLine some text line.new.items rest) }
        ensures fault { IfErr result SaysNothing }
        ensures device { IfErr result (λ e. e ≡ ReadFault.Device → S.is_failed source.new ≡ true) }
        ensures less { IfOk result (λ some. some ≡ true → work_left (S.left source.new) self.new.start self.new.end
            < work_left (S.left source.old) self.old.start self.old.end) }
    {
        line.clear();
        loop {
            if self.take_line(line)? {
                return Ok(true);
            }
            if !self.fill(source)? {
                return Ok(!line.is_empty());
            }
        }
    }

    /// Reads to the end of the input, and adds all of it to `text`.
    pub(crate) fn read_to_end<S: Source>(
        &mut self,
        source: &mut S,
        text: &mut Vec<u8>,
    ) -> Result<(), ReadFault>
        ensures all { (rest : List ℕ) → HasLeft self.old (S.remaining source.old) rest
            → OnOk result (text.new.items ≡ text.old.items ++ rest) }
        ensures fault { IfErr result SaysNothing }
        ensures device { IfErr result (λ e. e ≡ ReadFault.Device → S.is_failed source.new ≡ true) }
    {
        loop {
            text.extend_from_slice(self.pending())?;
            if !self.fill(source)? {
                return Ok(());
            }
        }
    }
}
