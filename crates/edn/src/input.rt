//! Tokens read from a source.

ghost use Rattle.std.specs.Prelude.{◌≡◌, ◌≢◌, ◌≤◌, ◌<◌, ◌+◌, ◌-◌, ◌^◌, ◌++◌, ℕ, List, [], Option, None, Ok as OkSpec, Err as ErrSpec, true, drop, take, length, min, IfOk, IfErr, IfSome, IfNone, OnOk, IsSome};
ghost use Rattle.std.specs.Io.KnownBytes.{Consumes, prepend_known};
ghost use Rattle.edn.specs.Meaning.Lexing.{IsGap};
ghost use Rattle.edn.specs.Meaning.Faults.{IsOfDepth, IsOfText};
ghost use Rattle.edn.specs.Meaning.Lines.{IsAt, NamesLine, feeds, line_after};
ghost use Rattle.edn.specs.Meaning.Reading.{IsLinked, ReadsToken, HasNoToken, IsBlankLeft, IsKnownBlank};
ghost use Rattle.edn.specs.Computing.Gaps.{after_gap_in};
ghost use Rattle.edn.specs.Computing.Stages.{IsBadIn};
ghost use Rattle.edn.specs.Computing.Tokens.{token_of};
ghost use Rattle.edn.specs.Machinery.Inputs.{IsSpent, work_left, to_meet};
ghost use Rattle.edn.specs.declared.token.Beyond.TheVariants.{Unread};

use crate::gap::after_gap;
use crate::leaf::Leaf;
use crate::pending::Pending;
use crate::plain::plain_integer;
use crate::read_fault::{ReadFault, syntax};
use crate::token::{Beyond, Lexed, Token, read_token};
use devices::Source;
use std::alloc::{AllocError, Global};

/// The most bytes of one read.
const ROOM: usize = 8192;

/// What was read from a source, and not yet taken as tokens. One input belongs to one source.
#[derive(Drop)]
pub(crate) struct Input {
    alloc: Global,
    pending: Pending,
    beyond: Beyond,
    /// The line, counted from 1, up to which tokens, and what is between them, were taken.
    line: u64,
    piece: [u8; ROOM],
}

impl Input {
    /// The input of a source of which nothing was read.
    pub(crate) fn new(alloc: Global) -> Input
        ensures beyond { result.beyond ≡ Unread }
        ensures pending { result.pending ≡ [] }
        ensures line { result.line ≡ 1 }
    {
        Input {
            alloc,
            pending: Pending::new(alloc),
            beyond: Beyond::Unread,
            line: 1,
            piece: [0; ROOM],
        }
    }

    /// The input of a source of which these bytes, the first ones of its text, were read before.
    pub(crate) fn after(alloc: Global, front: &[u8]) -> Result<Input, AllocError>
        ensures { IfOk result (λ i. (i.beyond ≡ Unread) × (i.pending ≡ front.now) × (i.line ≡ 1)) }
    {
        let mut input = Input::new(alloc);
        input.pending.add(alloc, front)?;
        Ok(input)
    }

    /// Returns the line, counted from 1, up to which tokens were taken.
    pub(crate) fn line(&self) -> u64
        ensures { result ≡ self.now.line }
    {
        self.line
    }

    /// Reads the next token, and puts the form of a leaf into `leaf`. Returns `None` if the text ends before it, `Syntax` if
    /// no token begins so, `Device` if the source failed, `Memory` if memory ran out. The text begins with no token if `None`
    /// or `Syntax` is returned; if `None`, it has white space and comments alone.
    pub(crate) fn next_token<S: Source>(
        &mut self,
        source: &mut S,
        leaf: &mut Leaf,
    ) -> Result<Option<Token>, ReadFault>
        ensures less { IfOk result (λ o. IsSome o
            → work_left (S.left source.new) self.new.pending < work_left (S.left source.old) self.old.pending) }
        ensures token { IsLinked self.old.beyond (S.remaining source.old) → IfOk result (λ o. IfSome o
            (λ t. ReadsToken (prepend_known self.old.pending (S.remaining source.old))
            (prepend_known self.new.pending (S.remaining source.new)) (token_of leaf.new t))) }
        ensures linked { IsLinked self.old.beyond (S.remaining source.old)
            → OnOk result (IsLinked self.new.beyond (S.remaining source.new)) }
        ensures none { IsLinked self.old.beyond (S.remaining source.old)
            → IfOk result (λ o. IfNone o (HasNoToken (prepend_known self.old.pending (S.remaining source.old)))) }
        ensures blank { IsLinked self.old.beyond (S.remaining source.old)
            → IfOk result (λ o. IfNone o (IsBlankLeft (prepend_known self.old.pending (S.remaining source.old)))) }
        ensures refused { IsLinked self.old.beyond (S.remaining source.old)
            → IfErr result (λ e. IsOfText e → HasNoToken (prepend_known self.old.pending (S.remaining source.old))) }
        ensures other { IsLinked self.old.beyond (S.remaining source.old)
            → IfErr result (λ e. IsOfText e → ¬ IsKnownBlank (prepend_known self.old.pending (S.remaining source.old))) }
        ensures shallow { IfErr result (λ e. ¬ IsOfDepth e) }
        ensures fault { IfErr result (λ e. e ≡ ReadFault.Device → S.is_failed source.new ≡ true) }
        ensures kept { result ≢ ErrSpec ReadFault.Device → S.is_failed source.new ≡ S.is_failed source.old }
        ensures spent { IfOk result (λ o. IfNone o (IsSpent self.new.beyond self.new.pending)) }
        ensures again { IsSpent self.old.beyond self.old.pending → (result ≡ OkSpec None) × (source.new ≡ source.old) }
        ensures line { (text : List ℕ) → IsAt text (prepend_known self.old.pending (S.remaining source.old)) self.old.line
            → IfOk result (λ o. IsSome o → IsAt text (prepend_known self.new.pending (S.remaining source.new)) self.new.line) }
        ensures last { (text : List ℕ) → IsLinked self.old.beyond (S.remaining source.old)
            → IsAt text (prepend_known self.old.pending (S.remaining source.old)) self.old.line
            → IfOk result (λ o. IfNone o (self.new.line ≡ line_after text)) }
        ensures named { IfErr result (NamesLine self.new.line) }
        ensures bad { (text : List ℕ) → IsLinked self.old.beyond (S.remaining source.old)
            → IsAt text (prepend_known self.old.pending (S.remaining source.old)) self.old.line
            → IfErr result (IsBadIn text (prepend_known self.old.pending (S.remaining source.old))) }
    {
        loop {
            self.pass_gap();
            if let Some((value, rest)) = plain_integer(self.pending.bytes()) {
                let len = self.pending.bytes().len() - rest.len();
                self.pass(len);
                return Ok(Some(Token::Integer(value)));
            }
            match read_token(self.alloc, self.pending.bytes(), self.beyond, leaf)? {
                Lexed::Token(token, rest) => {
                    let len = self.pending.bytes().len() - rest.len();
                    self.pass_token(token, len);
                    return Ok(Some(token));
                }
                Lexed::End => return Ok(None),
                Lexed::More => self.fill(source)?,
                Lexed::Bad(problem) => return Err(syntax(self.line(), problem)),
            }
        }
    }

    /// Takes the white space and the comments at the front.
    fn pass_gap(&mut self)
        ensures beyond { self.new.beyond ≡ self.old.beyond }
        ensures within { length self.new.pending ≤ length self.old.pending }
        ensures passed { (gap : List ℕ) × IsGap gap × (self.old.pending ≡ gap ++ self.new.pending) }
        ensures all { after_gap_in None self.new.pending ≡ self.new.pending }
        ensures rest { self.new.pending ≡ after_gap_in None self.old.pending }
        ensures line { (text : List ℕ) (left : Option (List ℕ)) → IsAt text (prepend_known self.old.pending left) self.old.line
            → IsAt text (prepend_known self.new.pending left) self.new.line }
    {
        let bytes = self.pending.bytes();
        let gap = bytes.len() - after_gap(bytes).len();
        self.pass_lines(gap);
    }

    /// Takes this many bytes from the front, which may have line feeds.
    #[inline(always)]
    fn pass_lines(&mut self, count: usize)
        requires { count ≤ length self.old.pending }
        ensures rest { self.new.pending ≡ drop count self.old.pending }
        ensures beyond { self.new.beyond ≡ self.old.beyond }
        ensures line { self.new.line ≡ min (self.old.line + feeds (take count self.old.pending)) (2 ^ 64 - 1) }
    {
        let passed = &self.pending.bytes()[..count];
        self.line = self.line.saturating_add(line_feeds(passed));
        self.pass(count);
    }

    /// Takes the bytes of this token from the front.
    #[inline(always)]
    fn pass_token(&mut self, token: Token, count: usize)
        requires { count ≤ length self.old.pending }
        ensures rest { self.new.pending ≡ drop count self.old.pending }
        ensures beyond { self.new.beyond ≡ self.old.beyond }
        ensures leaf { token ≡ Token.Leaf
            → self.new.line ≡ min (self.old.line + feeds (take count self.old.pending)) (2 ^ 64 - 1) }
        ensures other { token ≢ Token.Leaf → self.new.line ≡ self.old.line }
    {
        match token {
            // a string may have line feeds
            Token::Leaf => self.pass_lines(count),
            _ => self.pass(count),
        }
    }

    /// Takes this many bytes from the front.
    fn pass(&mut self, count: usize)
        requires { count ≤ length self.old.pending }
        ensures rest { self.new.pending ≡ drop count self.old.pending }
        ensures beyond { self.new.beyond ≡ self.old.beyond }
        ensures line { self.new.line ≡ self.old.line }
    {
        self.pending.take(count);
    }

    /// Reads until at least twice as many bytes are pending as were, so that a long token is looked at few times.
    #[inline(never)]
    fn fill<S: Source>(&mut self, source: &mut S) -> Result<(), ReadFault>
        requires { self.old.beyond ≡ Unread }
        ensures work { OnOk result (work_left (S.left source.new) self.new.pending ≤ work_left (S.left source.old) self.old.pending) }
        ensures left { OnOk result (S.left source.new + to_meet self.new.beyond < S.left source.old + 1) }
        ensures same { OnOk result (Consumes (prepend_known self.old.pending (S.remaining source.old))
            (prepend_known self.new.pending (S.remaining source.new)) []) }
        ensures linked { OnOk result (IsLinked self.new.beyond (S.remaining source.new)) }
        ensures text { IfErr result (λ e. ¬ IsOfText e) }
        ensures shallow { IfErr result (λ e. ¬ IsOfDepth e) }
        ensures fault { IfErr result (λ e. e ≡ ReadFault.Device → S.is_failed source.new ≡ true) }
        ensures kept { result ≢ ErrSpec ReadFault.Device → S.is_failed source.new ≡ S.is_failed source.old }
        ensures line { self.new.line ≡ self.old.line }
    {
        let enough = 2 * self.pending.bytes().len();
        loop {
            self.pull(source)?;
            if matches!(self.beyond, Beyond::Nothing) || self.pending.bytes().len() > enough {
                return Ok(());
            }
        }
    }

    /// Reads once from the source.
    fn pull<S: Source>(&mut self, source: &mut S) -> Result<(), ReadFault>
        requires { self.old.beyond ≡ Unread }
        ensures work { OnOk result (work_left (S.left source.new) self.new.pending ≤ work_left (S.left source.old) self.old.pending) }
        ensures left { OnOk result (S.left source.new + to_meet self.new.beyond < S.left source.old + 1) }
        ensures same { OnOk result (Consumes (prepend_known self.old.pending (S.remaining source.old))
            (prepend_known self.new.pending (S.remaining source.new)) []) }
        ensures linked { OnOk result (IsLinked self.new.beyond (S.remaining source.new)) }
        ensures text { IfErr result (λ e. ¬ IsOfText e) }
        ensures shallow { IfErr result (λ e. ¬ IsOfDepth e) }
        ensures fault { IfErr result (λ e. e ≡ ReadFault.Device → S.is_failed source.new ≡ true) }
        ensures kept { result ≢ ErrSpec ReadFault.Device → S.is_failed source.new ≡ S.is_failed source.old }
        ensures line { self.new.line ≡ self.old.line }
    {
        match source.pull(&mut self.piece) {
            Ok(0) => self.beyond = Beyond::Nothing,
            Ok(n) => {
                self.pending.add(self.alloc, &self.piece[..n])?;
            }
            Err(_) => return Err(ReadFault::Device),
        }
        Ok(())
    }
}

/// Returns how many line feeds these bytes have.
fn line_feeds(bytes: &[u8]) -> u64
    ensures { result ≡ feeds bytes.now }
{
    match bytes {
        // what mostly stands between two tokens
        [] | [b' '] => 0,
        _ => count_feeds(bytes) as u64,
    }
}

fn count_feeds(bytes: &[u8]) -> usize
    ensures { result ≡ feeds bytes.now }
{
    let mut count = 0;
    'bytes: for byte in bytes {
        if *byte == b'\n' {
            count += 1;
        }
    }
    count
}
