//! Reading a text form by form.

ghost use Rattle.std.specs.Prelude.{◌≡◌, ◌≢◌, ◌⊎◌, ◌<◌, ◌++◌, ◌∷◌, [], List, ℕ, Option, Some, Ok as OkSpec, Err as ErrSpec, true, false, IfOk, IfErr, IsErrAnd, OnOk};
ghost use Rattle.std.specs.Io.KnownBytes.{prepend_known};
ghost use Rattle.edn.specs.Meaning.Forms.{Form as Plain};
ghost use Rattle.edn.specs.Meaning.Views.{form_of};
ghost use Rattle.edn.specs.Meaning.Faults.{IsOfDepth, IsOfText};
ghost use Rattle.edn.specs.Meaning.Blame.{IsFaultOf};
ghost use Rattle.edn.specs.Meaning.Lines.{IsAt, NamesLine};
ghost use Rattle.edn.specs.Meaning.Texts.{HasEnded, HasFailed, HasNotFailed, HasRead, IsNoText, IsText};
ghost use Rattle.edn.specs.Meaning.Readers.{BeginsForm, BeginsTooDeep, EndsHere, HasNoForm, IsOver, IsReady, IsTooDeep, ReadsForm, form_read, left_to_do, line_read, text_left};
ghost use Rattle.edn.specs.Computing.Building.{is_top, top};
ghost use Rattle.edn.specs.Computing.Stacks.{made_if, stack_of};
ghost use Rattle.edn.specs.Computing.Stages.{Built, IsUnfinished, Refused, Stops, Takes};
ghost use Rattle.edn.specs.Computing.Tokens.{token_of};
ghost use Rattle.edn.specs.declared.reader.Stage.TheVariants.{Start, Elements};

use crate::builder::Builder;
use crate::form::Form;
use crate::input::Input;
use crate::leaf::Leaf;
use crate::read_fault::{Problem, ReadFault, Refusal, syntax};
use crate::token::{Closing, Opening, Token};
use devices::Source;
use std::alloc::{AllocError, Global};

/// What a text turned out to be.
#[derive(Clone, Copy)]
enum Stage {
    /// No token was read.
    Start,
    /// Forms, one after another.
    Forms,
    /// One vector, which is open.
    Elements,
    /// One vector, which is closed.
    Closed,
    /// No text of EDN, or none that could be read.
    Failed(ReadFault),
}

/// Reads a text form by form. If the text begins with `[`, it has to be one vector, and its elements are read one by one;
/// else they are the forms of the text, one after another. It keeps the form that it reads and one piece of the text.
/// One reader belongs to one source.
#[derive(Drop)]
pub struct Reader {
    input: Input,
    builder: Builder,
    stage: Stage,
}

impl Reader {
    /// A reader for a source of which nothing was read.
    pub fn new(alloc: Global) -> Reader
        ensures ready { (left : Option (List ℕ)) → IsReady result left }
        ensures text { (left : Option (List ℕ)) → text_left result left ≡ left }
        ensures begins { (text : List ℕ) → HasRead text [] result (Some text) }
    {
        Reader::of(alloc, Input::new(alloc))
    }

    /// A reader for a source of which these bytes, the first ones of its text, were read before.
    pub fn after(alloc: Global, front: &[u8]) -> Result<Reader, AllocError>
        ensures ready { IfOk result (λ r. (left : Option (List ℕ)) → IsReady r left) }
        ensures text { IfOk result (λ r. (left : Option (List ℕ)) → text_left r left ≡ prepend_known front.now left) }
        ensures begins { IfOk result (λ r. (text : List ℕ) → HasRead (front.now ++ text) [] r (Some text)) }
    {
        Ok(Reader::of(alloc, Input::after(alloc, front)?))
    }

    /// Returns the line, counted from 1, on which the last form ended; after a `Syntax` fault, its line. If a text has more
    /// lines than 64 bits can count, it stays at the greatest number.
    pub fn line(&self) -> u64
        ensures { result ≡ line_read self.now }
    {
        self.input.line()
    }

    /// Reads the next form from what the source has left; [`form`](Reader::form) returns it. Returns whether there is one:
    /// false after the last one, and from then on, `Syntax` with the line if the text is none of EDN there, `Device` if the source failed,
    /// `Memory` if memory ran out. After a fault, and only then, it returns that fault again and reads no more. What it reads is the form
    /// with which the text that is left begins: its tokens follow one another there, with white space and comments between
    /// them. If a form is there, it is read: false says that the text doesn't begin with one, and so does `Syntax`, unless
    /// its problem is `Depth`: then more than 64 forms are nested there, which no read passes over. False says also that only discarded forms, the
    /// bracket that closes the vector, white space and comments were left of the text: the forms that were read are those
    /// of the whole text. After `Syntax`, unless its problem is `Depth`, the whole text is none of EDN, and the fault is the
    /// first that it has. Unless `Device` is returned, the source has failed only if it had before.
    pub fn read<S: Source>(&mut self, source: &mut S) -> Result<bool, ReadFault>
        ensures less { IfOk result (λ some. some ≡ true
            → left_to_do (S.left source.new) self.new < left_to_do (S.left source.old) self.old) }
        ensures form { IsReady self.old (S.remaining source.old) → IfOk result (λ some. some ≡ true →
            ReadsForm self.old.stage self.new.stage (text_left self.old (S.remaining source.old))
            (text_left self.new (S.remaining source.new)) (form_read self.new)) }
        ensures only { IsReady self.old (S.remaining source.old) → IfOk result (λ some. some ≡ true → (g : Plain)
            → BeginsForm self.old.stage (text_left self.old (S.remaining source.old)) g → g ≡ form_read self.new) }
        ensures ready { IsReady self.old (S.remaining source.old) → OnOk result (IsReady self.new (S.remaining source.new)) }
        ensures none { IsReady self.old (S.remaining source.old) → IfOk result (λ some. some ≡ false
            → HasNoForm self.old.stage (text_left self.old (S.remaining source.old))) }
        ensures end { IsReady self.old (S.remaining source.old) → IfOk result (λ some. some ≡ false
            → IsOver self.old.stage (text_left self.old (S.remaining source.old))) }
        ensures refused { IsReady self.old (S.remaining source.old) → IfErr result (λ e. IsOfText e
            → HasNoForm self.old.stage (text_left self.old (S.remaining source.old))) }
        ensures deep { IsReady self.old (S.remaining source.old) → IfErr result (λ e. IsOfDepth e
            → (self.old.stage ≡ Stage.Failed e) ⊎ IsTooDeep self.old.stage (text_left self.old (S.remaining source.old))) }
        ensures extends { (text : List ℕ) (fs : List Plain) → HasRead text fs self.old (S.remaining source.old) → IfOk result
            (λ some. some ≡ true → HasRead text (fs ++ form_read self.new ∷ []) self.new (S.remaining source.new)) }
        ensures whole { (text : List ℕ) (fs : List Plain) → HasRead text fs self.old (S.remaining source.old) → IfOk result
            (λ some. some ≡ false → IsText text fs) }
        ensures refuses { (text : List ℕ) (fs : List Plain) → HasRead text fs self.old (S.remaining source.old)
            → IfErr result (λ e. IsOfText e → IsNoText text) }
        ensures faulty { (text : List ℕ) (fs : List Plain) → HasRead text fs self.old (S.remaining source.old)
            → IfErr result (IsFaultOf text) }
        ensures line { IfErr result (λ e. HasFailed self.old e ⊎ NamesLine (line_read self.new) e) }
        ensures nested { IsReady self.old (S.remaining source.old)
            → BeginsTooDeep self.old.stage (text_left self.old (S.remaining source.old)) → IsErrAnd result (λ e. ¬ IsOfText e) }
        ensures fault { IfErr result (λ e. e ≡ ReadFault.Device
            → HasFailed self.old e ⊎ (S.is_failed source.new ≡ true)) }
        ensures unfailed { OnOk result (HasNotFailed self.new) }
        ensures kept { result ≢ ErrSpec ReadFault.Device → S.is_failed source.new ≡ S.is_failed source.old }
        ensures ended { IfOk result (λ some. some ≡ false → HasEnded self.new) }
        ensures again { HasEnded self.old → (result ≡ OkSpec false) × HasEnded self.new × (source.new ≡ source.old) }
        ensures failed { IfErr result (HasFailed self.new) }
        ensures stays { (fault : ReadFault) → HasFailed self.old fault → (result ≡ ErrSpec fault) × (self.new ≡ self.old)
            × (source.new ≡ source.old) }
    {
        if let Stage::Failed(fault) = self.stage {
            return Err(fault);
        }
        let read = self.read_form(source);
        if let Err(fault) = &read {
            self.stage = Stage::Failed(*fault);
        }
        read
    }

    /// Returns the form that was read last. `nil` if none was.
    pub fn form(&self) -> Form<'_>
        ensures { form_of result ≡ form_read self.now }
    {
        self.builder.form()
    }

    /// A reader of which this is the input, and which took no token.
    fn of(alloc: Global, input: Input) -> Reader
        ensures input { result.input ≡ input }
        ensures stage { result.stage ≡ Start }
        ensures idle { stack_of result.builder ≡ top ∷ [] }
    {
        Reader {
            input,
            builder: Builder::new(alloc),
            stage: Stage::Start,
        }
    }

    fn read_form<S: Source>(&mut self, source: &mut S) -> Result<bool, ReadFault>
        requires { (fault : ReadFault) → HasFailed self.old fault → ⊥ }
        ensures less { IfOk result (λ some. some ≡ true
            → left_to_do (S.left source.new) self.new < left_to_do (S.left source.old) self.old) }
        ensures form { IsReady self.old (S.remaining source.old) → IfOk result (λ some. some ≡ true →
            ReadsForm self.old.stage self.new.stage (text_left self.old (S.remaining source.old))
            (text_left self.new (S.remaining source.new)) (form_read self.new)) }
        ensures only { IsReady self.old (S.remaining source.old) → IfOk result (λ some. some ≡ true → (g : Plain)
            → BeginsForm self.old.stage (text_left self.old (S.remaining source.old)) g → g ≡ form_read self.new) }
        ensures ready { IsReady self.old (S.remaining source.old) → OnOk result (IsReady self.new (S.remaining source.new)) }
        ensures none { IsReady self.old (S.remaining source.old) → IfOk result (λ some. some ≡ false
            → HasNoForm self.old.stage (text_left self.old (S.remaining source.old))) }
        ensures end { IsReady self.old (S.remaining source.old) → IfOk result (λ some. some ≡ false
            → IsOver self.old.stage (text_left self.old (S.remaining source.old))) }
        ensures refused { IsReady self.old (S.remaining source.old) → IfErr result (λ e. IsOfText e
            → HasNoForm self.old.stage (text_left self.old (S.remaining source.old))) }
        ensures deep { IsReady self.old (S.remaining source.old) → IfErr result (λ e. IsOfDepth e
            → (self.old.stage ≡ Stage.Failed e) ⊎ IsTooDeep self.old.stage (text_left self.old (S.remaining source.old))) }
        ensures other { IsReady self.old (S.remaining source.old) → IfErr result (λ e. IsOfText e
            → ¬ EndsHere self.old.stage (text_left self.old (S.remaining source.old))) }
        ensures line { (text : List ℕ) → IsAt text (text_left self.old (S.remaining source.old)) (line_read self.old)
            → IfOk result (λ some. some ≡ true
            → IsAt text (text_left self.new (S.remaining source.new)) (line_read self.new)) }
        ensures faulty { (text : List ℕ) (fs : List Plain) → HasRead text fs self.old (S.remaining source.old)
            → IfErr result (IsFaultOf text) }
        ensures named { IfErr result (NamesLine (line_read self.new)) }
        ensures nested { IsReady self.old (S.remaining source.old)
            → BeginsTooDeep self.old.stage (text_left self.old (S.remaining source.old)) → IsErrAnd result (λ e. ¬ IsOfText e) }
        ensures fault { IfErr result (λ e. e ≡ ReadFault.Device → S.is_failed source.new ≡ true) }
        ensures unfailed { OnOk result (HasNotFailed self.new) }
        ensures kept { result ≢ ErrSpec ReadFault.Device → S.is_failed source.new ≡ S.is_failed source.old }
        ensures ended { IfOk result (λ some. some ≡ false → HasEnded self.new) }
        ensures again { HasEnded self.old → (result ≡ OkSpec false) × (source.new ≡ source.old) }
    {
        self.builder.clear();
        let mut leaf = Leaf::new();
        'token: while let Some(token) = self.input.next_token(source, &mut leaf)? {
            if self.take(token, &mut leaf)? {
                return Ok(true);
            }
        }
        self.end()?;
        Ok(false)
    }

    /// Takes the next token. Returns whether a form ends with it. Integers are taken by code of their own, since there are
    /// many.
    #[inline(always)]
    fn take(&mut self, token: Token, leaf: &mut Leaf) -> Result<bool, ReadFault>
        ensures input { self.new.input ≡ self.old.input }
        ensures takes { IfOk result (λ done. Takes self.old.stage (token_of leaf.old token) self.new.stage
            (stack_of self.old.builder) (stack_of self.new.builder) (made_if done self.new.builder)) }
        ensures stops { IfErr result (Stops self.old.stage (token_of leaf.old token) (stack_of self.old.builder)) }
        ensures named { IfErr result (λ e. HasFailed self.old e ⊎ NamesLine self.old.input.line e) }
    {
        match token {
            Token::Integer(value) => self.take_any(Token::Integer(value), leaf),
            _ => self.take_any(token, leaf),
        }
    }

    #[inline(always)]
    fn take_any(&mut self, token: Token, leaf: &mut Leaf) -> Result<bool, ReadFault>
        ensures input { self.new.input ≡ self.old.input }
        ensures takes { IfOk result (λ done. Takes self.old.stage (token_of leaf.old token) self.new.stage
            (stack_of self.old.builder) (stack_of self.new.builder) (made_if done self.new.builder)) }
        ensures stops { IfErr result (Stops self.old.stage (token_of leaf.old token) (stack_of self.old.builder)) }
        ensures named { IfErr result (λ e. HasFailed self.old e ⊎ NamesLine self.old.input.line e) }
    {
        let forms = matches!(self.stage, Stage::Forms | Stage::Elements);
        if forms && !self.builder.is_idle() {
            return self.build(token, leaf);
        }
        self.take_between(token, leaf)
    }

    /// Takes a token between forms.
    #[inline(never)]
    fn take_between(&mut self, token: Token, leaf: &mut Leaf) -> Result<bool, ReadFault>
        ensures input { self.new.input ≡ self.old.input }
        ensures takes { IfOk result (λ done. Takes self.old.stage (token_of leaf.old token) self.new.stage
            (stack_of self.old.builder) (stack_of self.new.builder) (made_if done self.new.builder)) }
        ensures stops { IfErr result (Stops self.old.stage (token_of leaf.old token) (stack_of self.old.builder)) }
        ensures named { IfErr result (λ e. HasFailed self.old e ⊎ NamesLine self.old.input.line e) }
    {
        match self.stage {
            Stage::Start => self.take_first(token, leaf),
            Stage::Elements => self.take_in_vector(token, leaf),
            Stage::Closed => Err(syntax(self.input.line(), Problem::AfterVector)),
            Stage::Forms => self.build(token, leaf),
            Stage::Failed(fault) => Err(fault),
        }
    }

    #[inline(never)]
    fn take_first(&mut self, token: Token, leaf: &mut Leaf) -> Result<bool, ReadFault>
        ensures input { self.new.input ≡ self.old.input }
        ensures takes { IfOk result (λ done. Takes Start (token_of leaf.old token) self.new.stage
            (stack_of self.old.builder) (stack_of self.new.builder) (made_if done self.new.builder)) }
        ensures stops { IfErr result (Stops Start (token_of leaf.old token) (stack_of self.old.builder)) }
        ensures named { IfErr result (NamesLine self.old.input.line) }
    {
        if matches!(token, Token::Open(Opening::Vector)) {
            self.stage = Stage::Elements;
            return Ok(false);
        }
        self.stage = Stage::Forms;
        self.build(token, leaf)
    }

    #[inline(never)]
    fn take_in_vector(&mut self, token: Token, leaf: &mut Leaf) -> Result<bool, ReadFault>
        ensures input { self.new.input ≡ self.old.input }
        ensures takes { self.old.stage ≡ Elements → IfOk result (λ done. Takes Elements (token_of leaf.old token) self.new.stage
            (stack_of self.old.builder) (stack_of self.new.builder) (made_if done self.new.builder)) }
        ensures stops { IfErr result (Stops Elements (token_of leaf.old token) (stack_of self.old.builder)) }
        ensures named { IfErr result (NamesLine self.old.input.line) }
    {
        if self.builder.is_idle() && matches!(token, Token::Close(Closing::Square)) {
            self.stage = Stage::Closed;
            return Ok(false);
        }
        self.build(token, leaf)
    }

    #[inline(always)]
    fn build(&mut self, token: Token, leaf: &mut Leaf) -> Result<bool, ReadFault>
        ensures input { self.new.input ≡ self.old.input }
        ensures stage { self.new.stage ≡ self.old.stage }
        ensures built { IfOk result (λ done. Built (stack_of self.old.builder) (token_of leaf.old token)
            (stack_of self.new.builder) (made_if done self.new.builder)) }
        ensures refused { IfErr result (Refused (stack_of self.old.builder) (token_of leaf.old token)) }
        ensures named { IfErr result (NamesLine self.old.input.line) }
    {
        match self.builder.take(token, leaf) {
            Ok(done) => Ok(done),
            Err(Refusal::Problem(problem)) => Err(syntax(self.input.line(), problem)),
            Err(Refusal::Memory) => Err(ReadFault::Memory),
        }
    }

    /// Returns the fault of a text that ends here, if it is none.
    fn end(&self) -> Result<(), ReadFault>
        ensures idle { OnOk result (is_top (stack_of self.now.builder) ≡ true) }
        ensures closed { OnOk result (self.now.stage ≢ Elements) }
        ensures shallow { IfErr result (λ e. ¬ IsOfDepth e) }
        ensures fault { IfErr result (λ e. e ≢ ReadFault.Device) }
        ensures unfinished { IfErr result (IsUnfinished self.now.stage (stack_of self.now.builder)) }
        ensures named { IfErr result (NamesLine self.now.input.line) }
    {
        if !self.builder.is_idle() {
            return Err(syntax(self.input.line(), self.builder.problem_at_end()));
        }
        match self.stage {
            Stage::Elements => Err(syntax(self.input.line(), Problem::Unclosed)),
            _ => Ok(()),
        }
    }
}
