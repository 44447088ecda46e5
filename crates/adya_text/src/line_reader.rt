//! Readers that are fed with the lines of a text.

ghost use Rattle.std.specs.Prelude.{◌≡◌, ◌≤◌, List, ℕ, suc, length, Result, Ok, Err, [], ◌∷◌, ◌++◌, OnOk, IfOk, IsErr, IsErrOf, MatchOption, true, false};
ghost use Rattle.std.specs.Bool.{OnTrue, OnFalse};
ghost use Rattle.adya_text.specs.Meaning.Texts.{with_ends};
ghost use Rattle.adya_text.specs.Clauses.Reading.{IsOfText};
ghost use Rattle.adya_text.specs.Clauses.Faults.{Begins, IsFaultLine};
ghost use Rattle.adya_text.specs.Machinery.LineReaders.{IsFed, Shows, BeginNone};
ghost use Rattle.adya_text.specs.Machinery.LongLines.{IsLonger, StartsNoLine};
ghost use Rattle.adya_text.specs.declared.read_fault.Text.{Text as Kind};
ghost use Rattle.adya_text.specs.declared.read_fault.ReadFault.{ReadFault as Fault};
ghost use Rattle.adya_text.specs.declared.read_fault.ReadFault.TheVariants.{Syntax, Device, Memory};

use crate::read_fault::{ReadFault, Text};
use std::alloc::AllocError;

/// What the lines of a text hold so far, each of them allowed where it came.
pub(crate) trait Draft: Drop {
    /// The value of a text.
    type Value;

    /// The kind of the texts.
    const TEXT: Text;

    // the kind of the texts
    ghost TEXT: { Kind };

    // the lines of a text
    ghost grammar: { List (List ℕ) → Type 0 };

    // these are the lines so far
    ghost has_lines: { Self → List (List ℕ) → Type 0 };

    // what was read of the text
    ghost reads: { List ℕ → Result Self.Value Fault → Type 0 };

    /// The lines so far begin a text. The call changes nothing: its contract is a law.
    fn begins(&self)
        ensures { (past : List (List ℕ)) → has_lines self.now past → Begins grammar past };

    /// Returns the number of the line that comes next.
    fn next_line(&self) -> usize
        ensures { (past : List (List ℕ)) → has_lines self.now past → result ≡ suc (length past) };

    /// Returns the most bytes that the next line of a text can have, without its line feed; `None` if it can have any
    /// number.
    fn longest_line(&self) -> Option<usize>
        ensures { (past : List (List ℕ)) → has_lines self.now past → (start : List ℕ) → IsLonger result start
            → StartsNoLine grammar past start };

    /// Takes the next line, without its line feed, and returns true. If no text goes on with it, returns false, and the lines
    /// stay those before it.
    fn take(&mut self, line: &[u8]) -> Result<bool, AllocError>
        ensures taken { IfOk result (λ taken. taken ≡ true → (past : List (List ℕ)) → has_lines self.old past
            → has_lines self.new (past ++ line.now ∷ [])) }
        ensures left { IfOk result (λ taken. taken ≡ false → (past : List (List ℕ)) → has_lines self.old past
            → has_lines self.new past) }
        ensures refused { IfOk result (λ taken. taken ≡ false → (past : List (List ℕ)) → has_lines self.old past
            → Begins grammar (past ++ line.now ∷ []) → ⊥) };

    /// Returns the value of the text that has the lines so far and no more; `None` if there is no such text.
    fn value(self) -> Option<Self::Value>
        ensures { (past : List (List ℕ)) → has_lines self past
            → MatchOption result (grammar past → ⊥) (λ v. reads (with_ends past) (Ok v)) };

    ghost faulty: { (text : List ℕ) (line : ℕ) → IsFaultLine grammar text line → reads text (Err (Syntax TEXT line)) };

    ghost no_memory: { (text : List ℕ) → reads text (Err Memory) };

    ghost no_device: { (text : List ℕ) → reads text (Err Device) };
}

/// A reader of one kind of text, which is fed line by line. Once the lines begin no text of its kind, its result is
/// final.
#[derive(Drop)]
pub(crate) struct LineReader<D> {
    draft: D,
    /// The number of the first line with which the lines begin no text.
    fault: Option<usize>,
}

impl<D: Draft> LineReader<D> {
    /// A reader that was fed with the lines of the draft.
    pub(crate) fn new(draft: D) -> LineReader<D>
        ensures { (past : List (List ℕ)) → D.has_lines draft past
            → IsFed D.grammar D.has_lines result.draft result.fault past }
    {
        LineReader { draft, fault: None }
    }

    /// Returns whether the lines so far begin no text.
    pub(crate) fn has_failed(&self) -> bool
        ensures begins { OnFalse result ((past : List (List ℕ))
            → IsFed D.grammar D.has_lines self.now.draft self.now.fault past → Begins D.grammar past) }
        ensures stops { OnTrue result ((past : List (List ℕ))
            → IsFed D.grammar D.has_lines self.now.draft self.now.fault past → Begins D.grammar past → ⊥) }
    {
        self.draft.begins();
        self.fault.is_some()
    }

    /// Returns the most bytes that the next line of a text can have, without its line feed: 0 if the lines so far begin
    /// none, and `None` if it can have any number.
    pub(crate) fn longest_line(&self) -> Option<usize>
        ensures { (past : List (List ℕ)) → IsFed D.grammar D.has_lines self.now.draft self.now.fault past
            → (start : List ℕ) → IsLonger result start → StartsNoLine D.grammar past start }
    {
        if self.fault.is_some() {
            return Some(0);
        }
        self.draft.longest_line()
    }

    /// Feeds the reader with the next line, without its line feed.
    pub(crate) fn line(&mut self, line: &[u8]) -> Result<(), AllocError>
        ensures { OnOk result ((past : List (List ℕ))
            → IsFed D.grammar D.has_lines self.old.draft self.old.fault past
            → IsFed D.grammar D.has_lines self.new.draft self.new.fault (past ++ line.now ∷ [])) }
    {
        if self.fault.is_some() {
            return Ok(());
        }
        if self.draft.take(line)? {
            return Ok(());
        }
        self.draft.begins();
        let line = self.draft.next_line();
        self.fault = Some(line);
        Ok(())
    }

    /// Returns the value of the text whose lines were fed; `rest` is what follows its last line feed, or the start of a
    /// line that is too long. `Syntax` with the line of the fault if there is no such value.
    pub(crate) fn finish(self, rest: &[u8]) -> Result<D::Value, ReadFault>
        ensures of_text { IsOfText result }
        ensures answer { (past : List (List ℕ)) → IsFed D.grammar D.has_lines self.draft self.fault past
            → (text : List ℕ) → Shows D.grammar text past rest.now → D.reads text result }
        ensures refused { (past : List (List ℕ)) → IsFed D.grammar D.has_lines self.draft self.fault past
            → BeginNone D.grammar past rest.now → IsErr result }
        ensures within { (k : ℕ) → IsErrOf result (ReadFault.Syntax D.TEXT k) → (past : List (List ℕ))
            → IsFed D.grammar D.has_lines self.draft self.fault past → k ≤ suc (length past) }
        ensures fed { (k : ℕ) → IsErrOf result (ReadFault.Syntax D.TEXT k) → (past : List (List ℕ))
            → IsFed D.grammar D.has_lines self.draft self.fault past → (Begins D.grammar past → ⊥) → k ≤ length past }
    {
        let text = D::TEXT;
        if let Some(line) = self.fault {
            return Err(ReadFault::Syntax { text, line });
        }
        self.draft.begins();
        let line = self.draft.next_line();
        if !rest.is_empty() {
            return Err(ReadFault::Syntax { text, line });
        }
        match self.draft.value() {
            Some(value) => Ok(value),
            None => Err(ReadFault::Syntax { text, line }),
        }
    }
}
