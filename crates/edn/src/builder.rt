//! Forms made of tokens.
//!
//! A function clears the room of all owned values that it may hold when it begins. So what holds such values, or is reached
//! by few tokens, is not inlined into what each token goes through.

ghost use Rattle.std.specs.Prelude.{◌≡◌, ◌≢◌, ◌∷◌, ◌++◌, ◌≤◌, ◌<◌, ◌+◌, ◌^◌, [], Some, None, Ok, length, reverse, take, vec_len, true, false, IfOk, IfErr, OnOk, OnErr, ◌⊎◌, sum_by, if◌then◌else◌};
ghost use Rattle.edn.specs.Meaning.Forms.{atom_of};
ghost use Rattle.edn.specs.Meaning.Keys.{name_in};
ghost use Rattle.edn.specs.Meaning.Tapes.{collection, first_of};
ghost use Rattle.edn.specs.Meaning.Nesting.{IsOpening};
ghost use Rattle.edn.specs.Meaning.Views.{form_of};
ghost use Rattle.edn.specs.Computing.Building as Spec;
ghost use Rattle.edn.specs.Computing.Building.{Refuses, frames, in_map, problem_left, row_frame, width};
ghost use Rattle.edn.specs.Machinery.Frames.{count_in, is_map, is_tag, to_leave};
ghost use Rattle.edn.specs.Machinery.TapeForms.{tape_forms};
ghost use Rattle.edn.specs.Machinery.Tapes.{is_fit};
ghost use Rattle.edn.specs.Computing.Tokens.{opening_of, token_of};

use crate::atom::Atom;
use crate::form::Form;
use crate::leaf::Leaf;
use crate::read_fault::{Problem, Refusal};
use crate::tape::{Row, Tape};
use crate::token::{Closing, Opening, Token};
use std::alloc::{AllocError, AllocFailed, Global};
use std::mem;

/// How deep collections, tags, `^` and `#_` may be nested.
pub const MAX_DEPTH: usize = 64;

/// What is open around the next token.
#[derive(Clone, Copy, Drop)]
enum Open {
    /// Nothing. So many forms are complete.
    Top(usize),
    /// A tag, or a `^` with its metadata, whose form is to come.
    Tag,
    /// A `^`, whose metadata is to come.
    Meta,
    /// A `#_`, whose form is to come.
    Discard,
    /// A collection that has so many forms, not counting the namespace of a map.
    Row(Row, usize),
}

/// Makes forms of tokens.
#[derive(Drop)]
pub(crate) struct Builder {
    /// All forms that are complete.
    forms: Tape,
    /// What is open around the next token, and what around that, the outermost first.
    inner: Open,
    outer: Vec<Open>,
    ghost counted: { count_in inner + sum_by count_in outer.items ≤ length (tape_forms forms) },
}

impl Builder {
    ghost use Rattle.edn.specs.Computing.Stacks.{made_if, stack_of, under};

    /// A builder that took no token.
    pub(crate) fn new(alloc: Global) -> Builder
        ensures { stack_of result ≡ Spec.top ∷ [] }
    {
        Builder {
            forms: Tape::new(alloc),
            inner: Open::Top(0),
            outer: Vec::new(alloc),
        }
    }

    /// Returns whether no form has been begun.
    pub(crate) fn is_idle(&self) -> bool
        ensures { result ≡ Spec.is_top (stack_of self.now) }
    {
        matches!(self.inner, Open::Top(_))
    }

    /// Returns the form that the last token has completed.
    pub(crate) fn form(&self) -> Form<'_>
        ensures { form_of result ≡ first_of (tape_forms self.now.forms) }
    {
        self.forms.last()
    }

    /// Drops the forms that are complete, if no other has been begun.
    pub(crate) fn clear(&mut self)
        ensures { stack_of self.new ≡ stack_of self.old }
    {
        if self.outer.is_empty() && self.is_idle() {
            self.forms.clear();
            self.inner = Open::Top(0);
        }
    }

    /// Takes the next token, with what is in its leaf. Returns whether it completes a form that is part of no other.
    #[tactic(auto, unfolding(crate::specs::Computing::Building::step))]
    #[inline(always)]
    pub(crate) fn take(&mut self, token: Token, leaf: &mut Leaf) -> Result<bool, Refusal>
        ensures ok { IfOk result (λ done. Spec.step (stack_of self.old) (token_of leaf.old token)
            ≡ Ok (stack_of self.new, made_if done self.new)) }
        ensures shallow { OnOk result (IsOpening (token_of leaf.old token) → length (stack_of self.old) ≤ 64) }
        ensures refused { IfErr result (λ e. Refuses (stack_of self.old) e (Spec.step (stack_of self.old) (token_of leaf.old token))) }
    {
        match token {
            Token::Open(bracket) => self.open(bracket, leaf),
            Token::Tag => self.begin(Open::Tag),
            Token::Meta => self.begin(Open::Meta),
            Token::Discard => self.begin(Open::Discard),
            Token::Close(bracket) => self.close(bracket),
            Token::Nil => Ok(self.add(Atom::Nil)?),
            Token::Integer(value) => Ok(self.add(Atom::Integer(value))?),
            Token::Keyword => Ok(self.add(Atom::ShortKeyword(leaf.name))?),
            Token::Leaf => Ok(self.add_leaf(&mut leaf.atom)?),
        }
    }

    /// Returns what is wrong if the text ends here, within a form.
    pub(crate) fn problem_at_end(&self) -> Problem
        ensures problem { result ≡ problem_left (stack_of self.now) }
        ensures shallow { result ≢ Problem.Depth }
    {
        match self.inner {
            Open::Tag | Open::Meta | Open::Discard => Problem::NoForm,
            _ => Problem::Unclosed,
        }
    }

    /// Begins a collection. Returns false.
    fn open(&mut self, bracket: Opening, leaf: &mut Leaf) -> Result<bool, Refusal>
        ensures ok { IfOk result (λ done. (done ≡ false)
            × (stack_of self.new ≡ Spec.opened (opening_of leaf.old bracket) ∷ stack_of self.old)) }
        ensures shallow { OnOk result (length (stack_of self.old) ≤ 64) }
        ensures refused { IfErr result (λ e. (e ≡ Refusal.Memory)
            ⊎ ((e ≡ Refusal.Problem Problem.Depth) × (65 ≤ length (stack_of self.old)))) }
    {
        match bracket {
            Opening::List => self.begin(Open::Row(Row::List, 0)),
            Opening::Vector => self.begin(Open::Row(Row::Vector, 0)),
            Opening::Set => self.begin(Open::Row(Row::Set, 0)),
            Opening::Map => self.begin(Open::Row(Row::Map, 0)),
            Opening::NamespacedMap => self.begin_within(&mut leaf.atom),
        }
    }

    /// Begins a map with this namespace, which becomes its first form. Returns false.
    #[inline(never)]
    fn begin_within(&mut self, namespace: &mut Atom) -> Result<bool, Refusal>
        ensures ok { IfOk result (λ done. (done ≡ false)
            × (stack_of self.new ≡ in_map (Some (name_in (atom_of namespace.old))) [] None ∷ stack_of self.old)) }
        ensures shallow { OnOk result (length (stack_of self.old) ≤ 64) }
        ensures refused { IfErr result (λ e. (e ≡ Refusal.Memory)
            ⊎ ((e ≡ Refusal.Problem Problem.Depth) × (65 ≤ length (stack_of self.old)))) }
    {
        self.forms.push(mem::replace(namespace, Atom::Nil))?;
        self.begin(Open::Row(Row::NamespacedMap, 0))
    }

    /// Begins a form. Returns false.
    #[inline(never)]
    fn begin(&mut self, inner: Open) -> Result<bool, Refusal>
        requires { count_in inner + (count_in self.old.inner + sum_by count_in self.old.outer.items)
            ≤ length (tape_forms self.old.forms) }
        ensures ok { IfOk result (λ done. (done ≡ false)
            × (stack_of self.new ≡ frames (inner ∷ self.old.inner ∷ reverse self.old.outer.items) (tape_forms self.old.forms))) }
        ensures shallow { OnOk result (length (stack_of self.old) ≤ 64) }
        ensures refused { IfErr result (λ e. (e ≡ Refusal.Memory)
            ⊎ ((e ≡ Refusal.Problem Problem.Depth) × (65 ≤ length (stack_of self.old)))) }
    {
        if self.outer.len() >= MAX_DEPTH {
            return Err(Refusal::Problem(Problem::Depth));
        }
        push(&mut self.outer, self.inner)?;
        self.inner = inner;
        Ok(false)
    }

    /// Ends the collection that is open.
    fn close(&mut self, bracket: Closing) -> Result<bool, Refusal>
        ensures ok { IfOk result (λ done. Spec.close (stack_of self.old) bracket
            ≡ Ok (stack_of self.new, made_if done self.new)) }
        ensures refused { IfErr result (λ e. Refuses (stack_of self.old) e (Spec.close (stack_of self.old) bracket)) }
    {
        match (self.inner, bracket) {
            (Open::Row(Row::List, count), Closing::Round) => Ok(self.end(Row::List, count)?),
            (Open::Row(Row::Vector, count), Closing::Square) => Ok(self.end(Row::Vector, count)?),
            (Open::Row(Row::Set, count), Closing::Curly) => Ok(self.end(Row::Set, count)?),
            (Open::Row(Row::Map, count), Closing::Curly) => self.end_map(Row::Map, count),
            (Open::Row(Row::NamespacedMap, count), Closing::Curly) => self.end_map(
                Row::NamespacedMap,
                count,
            ),
            (Open::Tag, _) => Err(Refusal::Problem(Problem::NoForm)),
            (Open::Meta, _) => Err(Refusal::Problem(Problem::NoForm)),
            (Open::Discard, _) => Err(Refusal::Problem(Problem::NoForm)),
            _ => Err(Refusal::Problem(Problem::Unopened)),
        }
    }

    /// Ends the map that is open and has so many keys and values.
    fn end_map(&mut self, row: Row, count: usize) -> Result<bool, Refusal>
        requires open { self.old.inner ≡ Open.Row row count }
        requires map { is_map row ≡ true }
        ensures ok { IfOk result (λ done. Spec.close (stack_of self.old) Closing.Curly
            ≡ Ok (stack_of self.new, made_if done self.new)) }
        ensures refused { IfErr result (λ e. Refuses (stack_of self.old) e (Spec.close (stack_of self.old) Closing.Curly)) }
    {
        if count % 2 == 1 {
            return Err(Refusal::Problem(Problem::NoValue));
        }
        Ok(self.end(row, count)?)
    }

    /// Ends this collection, which is open and has so many forms, not counting the namespace of a map.
    fn end(&mut self, row: Row, count: usize) -> Result<bool, AllocError>
        requires open { self.old.inner ≡ Open.Row row count }
        requires fit { is_fit row (width row count) ≡ true }
        ensures { IfOk result (λ done. Spec.put (Spec.or_top (Spec.outer_of (stack_of self.old)))
            (collection row (reverse (take (width row count) (tape_forms self.old.forms)))) ≡ (stack_of self.new, made_if done self.new)) }
    {
        self.forms.end(row, width(row, count))?;
        self.inner = self.outer.pop().unwrap_or(Open::Top(0));
        Ok(self.put())
    }

    /// Adds the form of a leaf.
    #[inline(never)]
    fn add_leaf(&mut self, leaf: &mut Atom) -> Result<bool, AllocError>
        ensures { IfOk result (λ done. Spec.put (stack_of self.old) (atom_of leaf.old) ≡ (stack_of self.new, made_if done self.new)) }
    {
        self.add(mem::replace(leaf, Atom::Nil))
    }

    /// Adds a form.
    #[inline(always)]
    fn add(&mut self, atom: Atom) -> Result<bool, AllocError>
        ensures { IfOk result (λ done. Spec.put (stack_of self.old) (atom_of atom) ≡ (stack_of self.new, made_if done self.new)) }
    {
        self.forms.push(atom)?;
        Ok(self.put())
    }

    /// Puts the last form, which is part of no collection yet, where it belongs. Returns whether it is part of no other.
    #[tactic(auto, unfolding(crate::specs::Computing::Building::put))]
    #[inline(always)]
    fn put(&mut self) -> bool
        requires { count_in self.old.inner + sum_by count_in self.old.outer.items < length (tape_forms self.old.forms) }
        ensures { Spec.put (under self.old) (first_of (tape_forms self.old.forms)) ≡ (stack_of self.new, made_if result self.new) }
    {
        self.leave_tags();
        self.count()
    }

    /// Goes on with what is open around the tags. Their form has come.
    fn leave_tags(&mut self)
        ensures under { under self.new ≡ Spec.leave_tags (under self.old) }
        ensures tag { is_tag self.new.inner ≡ false }
        ensures forms { self.new.forms ≡ self.old.forms }
        ensures counted { count_in self.new.inner + sum_by count_in self.new.outer.items
            ≡ count_in self.old.inner + sum_by count_in self.old.outer.items }
    {
        while matches!(self.inner, Open::Tag) {
            self.inner = self.outer.pop().unwrap_or(Open::Top(0));
        }
    }

    /// Counts the last form where it belongs, behind whose tags this is.
    fn count(&mut self) -> bool
        requires tag { is_tag self.old.inner ≡ false }
        requires more { count_in self.old.inner + sum_by count_in self.old.outer.items < length (tape_forms self.old.forms) }
        ensures { Spec.into_stack (under self.old) (first_of (tape_forms self.old.forms)) ≡ (stack_of self.new, made_if result self.new) }
    {
        match self.inner {
            Open::Row(row, count) => {
                self.inner = Open::Row(row, count + 1);
                false
            }
            Open::Discard => {
                self.forms.drop_last();
                self.inner = self.outer.pop().unwrap_or(Open::Top(0));
                false
            }
            Open::Top(count) => {
                self.inner = Open::Top(count + 1);
                true
            }
            Open::Meta => {
                self.forms.drop_last();
                self.inner = Open::Tag;
                false
            }
            Open::Tag => true,
        }
    }
}

/// Returns how many forms a collection has if it has so many beside the namespace of a map.
fn width(row: Row, count: usize) -> usize
    requires { width row count < 2 ^ 64 }
    ensures { result ≡ width row count }
{
    match row {
        Row::NamespacedMap => count + 1,
        _ => count,
    }
}

/// Adds what is open at the end.
fn push(outer: &mut Vec<Open>, inner: Open) -> Result<(), AllocError>
    ensures pushed { OnOk result (outer.new.items ≡ outer.old.items ++ inner ∷ []) }
    ensures refused { OnErr result (outer.new.items ≡ outer.old.items) }
{
    match outer.push(inner) {
        Ok(()) => Ok(()),
        Err(_) => Err(AllocError),
    }
}
