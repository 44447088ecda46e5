//! Tokens.

ghost use Rattle.std.specs.Prelude.{◌≡◌, ◌≤◌, ◌<◌, ◌+◌, ◌∷◌, ℕ, List, length, take, drop, IfOk, IfErr};
ghost use Rattle.std.specs.List.{prefix_len};
ghost use Rattle.edn.specs.Meaning.Bytes.{is_word_byte};
ghost use Rattle.edn.specs.Computing.Tokens as Spec;
ghost use Rattle.edn.specs.declared.leaf.Leaf.{Leaf as LeafValue};
ghost use Rattle.edn.specs.Computing.Tokens.{lexed_of, token_of, BeginsComment, IsRest, IsWithin};

use crate::atom::Atom;
use crate::bytes::word_len;
use crate::character::is_character;
use crate::leaf::Leaf;
use crate::names::{is_name, is_tag};
use crate::number::is_symbolic;
use crate::plain::{plain_keyword, plain_nil};
use crate::read_fault::Problem;
use crate::string::{Quoted, string};
use crate::word::word;
use std::alloc::{AllocError, Global};

/// A bracket that opens a collection.
#[derive(Clone, Copy)]
pub(crate) enum Opening {
    /// `(`
    List,
    /// `[`
    Vector,
    /// `#{`
    Set,
    /// `{`
    Map,
    /// `#:`, a namespace and `{`; whoever reads the token says where to put the namespace, as a symbol.
    NamespacedMap,
}

/// A bracket that closes a collection.
#[derive(Clone, Copy)]
pub(crate) enum Closing {
    /// `)`
    Round,
    /// `]`
    Square,
    /// `}`
    Curly,
}

/// A part of a text that has no parts.
#[derive(Clone, Copy)]
pub(crate) enum Token {
    Open(Opening),
    Close(Closing),
    /// `#_`
    Discard,
    /// `#` and a symbol
    Tag,
    /// `^` or `#^`
    Meta,
    /// `nil`
    Nil,
    /// An integer of 64 bits.
    Integer(i64),
    /// A keyword with a short name; whoever reads the token says where to put the name.
    Keyword,
    /// Any other form that is no collection; whoever reads the token says where to put it.
    Leaf,
}

/// What comes after the bytes that have been read.
#[derive(Clone, Copy)]
pub(crate) enum Beyond {
    /// It hasn't been read yet.
    Unread,
    /// The text ends there.
    Nothing,
}

/// What the front of some bytes is.
#[derive(Clone, Copy)]
pub(crate) enum Lexed<'a> {
    /// A token, and what follows it.
    Token(Token, &'a [u8]),
    /// No token; the text ends.
    End,
    /// What is to be read decides.
    More,
    /// No token begins so.
    Bad(Problem),
}

/// Reads the token at the front of the bytes, which don't begin with white space. If it has a form or the name of a
/// keyword, that is put into `leaf`.
#[tactic(auto, unfolding(crate::specs::Computing::Tokens::token_at))]
#[inline(always)]
pub(crate) fn read_token<'a>(
    alloc: Global,
    bytes: &'a [u8],
    beyond: Beyond,
    leaf: &mut Leaf,
) -> Result<Lexed<'a>, AllocError>
    ensures exact { IfOk result (λ l. lexed_of leaf.new l ≡ Spec.token_at beyond bytes.now) }
    ensures within { IfOk result (IsRest beyond bytes.now) }
    ensures refused { IfErr result (λ _. ¬ BeginsComment bytes.now) }
{
    match bytes {
        [] | [b';', ..] => Ok(no_token(beyond)),
        [b'"', text @ ..] => quoted(alloc, text, beyond, leaf),
        [b'\\', text @ ..] => character(alloc, text, beyond, leaf),
        [b'#', text @ ..] => dispatched(alloc, text, beyond, leaf),
        [b'(', rest @ ..] => Ok(Lexed::Token(Token::Open(Opening::List), rest)),
        [b'[', rest @ ..] => Ok(Lexed::Token(Token::Open(Opening::Vector), rest)),
        [b'{', rest @ ..] => Ok(Lexed::Token(Token::Open(Opening::Map), rest)),
        [b')', rest @ ..] => Ok(Lexed::Token(Token::Close(Closing::Round), rest)),
        [b']', rest @ ..] => Ok(Lexed::Token(Token::Close(Closing::Square), rest)),
        [b'}', rest @ ..] => Ok(Lexed::Token(Token::Close(Closing::Curly), rest)),
        [b'^', rest @ ..] => Ok(Lexed::Token(Token::Meta, rest)),
        _ => word_token(alloc, bytes, beyond, leaf),
    }
}

fn no_token<'a>(beyond: Beyond) -> Lexed<'a>
    ensures exact { (f : LeafValue) → lexed_of f result ≡ Spec.no_token beyond }
    ensures within { (bytes : List ℕ) → BeginsComment bytes → IsRest beyond bytes result }
{
    match beyond {
        Beyond::Unread => Lexed::More,
        Beyond::Nothing => Lexed::End,
    }
}

/// What a token is that goes up to the end of the bytes, unless more of it is to be read.
fn unfinished<'a>(beyond: Beyond) -> Lexed<'a>
    ensures exact { (f : LeafValue) → lexed_of f result ≡ Spec.unfinished beyond }
    ensures within { (bytes : List ℕ) → IsWithin beyond bytes result }
{
    match beyond {
        Beyond::Unread => Lexed::More,
        Beyond::Nothing => Lexed::Bad(Problem::Unclosed),
    }
}

/// Returns whether a word before `rest` may go on beyond the bytes that were read.
fn may_go_on(rest: &[u8], beyond: Beyond) -> bool
    ensures { result ≡ Spec.may_go_on rest.now beyond }
{
    match beyond {
        Beyond::Unread => rest.is_empty(),
        Beyond::Nothing => false,
    }
}

/// Puts the form into this place.
fn put(place: &mut Atom, atom: Atom)
    ensures { place.new ≡ atom }
{
    *place = atom;
}

/// Reads a string after its opening quote.
#[inline(never)]
fn quoted<'a>(
    alloc: Global,
    text: &'a [u8],
    beyond: Beyond,
    leaf: &mut Leaf,
) -> Result<Lexed<'a>, AllocError>
    ensures exact { IfOk result (λ l. lexed_of leaf.new l ≡ Spec.string_token beyond text.now) }
    ensures within { IfOk result (IsWithin beyond text.now) }
{
    let mut bytes = Vec::new(alloc);
    match string(text, &mut bytes)? {
        Quoted::Closed(rest) => {
            put(&mut leaf.atom, Atom::String(bytes));
            Ok(Lexed::Token(Token::Leaf, rest))
        }
        Quoted::Open => Ok(unfinished(beyond)),
        Quoted::Bad => Ok(Lexed::Bad(Problem::Token)),
    }
}

/// Reads a character after its backslash.
#[inline(never)]
fn character<'a>(
    alloc: Global,
    text: &'a [u8],
    beyond: Beyond,
    leaf: &mut Leaf,
) -> Result<Lexed<'a>, AllocError>
    ensures exact { IfOk result (λ l. lexed_of leaf.new l ≡ Spec.character_token beyond text.now) }
    ensures within { IfOk result (IsWithin beyond text.now) }
{
    let [_, others @ ..] = text else {
        return Ok(unfinished(beyond));
    };
    let (name, rest) = text.split_at(word_len(others) + 1);
    if may_go_on(rest, beyond) {
        return Ok(Lexed::More);
    }
    if !is_character(name) {
        return Ok(Lexed::Bad(Problem::Token));
    }
    put(&mut leaf.atom, Atom::Character(name.to_vec(alloc)?));
    Ok(Lexed::Token(Token::Leaf, rest))
}

/// Reads what begins with `#`, after it.
#[inline(never)]
fn dispatched<'a>(
    alloc: Global,
    text: &'a [u8],
    beyond: Beyond,
    leaf: &mut Leaf,
) -> Result<Lexed<'a>, AllocError>
    ensures exact { IfOk result (λ l. lexed_of leaf.new l ≡ Spec.dispatched beyond text.now) }
    ensures within { IfOk result (IsWithin beyond text.now) }
{
    match text {
        [] => Ok(unfinished(beyond)),
        [b'{', rest @ ..] => Ok(Lexed::Token(Token::Open(Opening::Set), rest)),
        [b'_', rest @ ..] => Ok(Lexed::Token(Token::Discard, rest)),
        [b'^', rest @ ..] => Ok(Lexed::Token(Token::Meta, rest)),
        [b'#', text @ ..] => symbolic(alloc, text, beyond, leaf),
        [b':', text @ ..] => namespace(alloc, text, beyond, leaf),
        _ => Ok(tag(text, beyond)),
    }
}

/// Reads the namespace of a map after `#:`, and the bracket that opens the map right behind it.
fn namespace<'a>(
    alloc: Global,
    text: &'a [u8],
    beyond: Beyond,
    leaf: &mut Leaf,
) -> Result<Lexed<'a>, AllocError>
    ensures exact { IfOk result (λ l. lexed_of leaf.new l ≡ Spec.namespace_token beyond text.now) }
    ensures within { IfOk result (IsWithin beyond text.now) }
{
    let (name, rest) = text.split_at(word_len(text));
    if may_go_on(rest, beyond) {
        return Ok(Lexed::More);
    }
    if !is_name(name) {
        return Ok(Lexed::Bad(Problem::Token));
    }
    match rest {
        [b'{', rest @ ..] => {
            put(&mut leaf.atom, Atom::Symbol(name.to_vec(alloc)?));
            Ok(Lexed::Token(Token::Open(Opening::NamespacedMap), rest))
        }
        _ => Ok(Lexed::Bad(Problem::Token)),
    }
}

/// Reads an infinity, or what is no number, after its `##`.
fn symbolic<'a>(
    alloc: Global,
    text: &'a [u8],
    beyond: Beyond,
    leaf: &mut Leaf,
) -> Result<Lexed<'a>, AllocError>
    ensures exact { IfOk result (λ l. lexed_of leaf.new l ≡ Spec.symbolic_token beyond text.now) }
    ensures within { IfOk result (IsWithin beyond text.now) }
{
    let (name, rest) = text.split_at(word_len(text));
    if may_go_on(rest, beyond) {
        return Ok(Lexed::More);
    }
    if !is_symbolic(name) {
        return Ok(Lexed::Bad(Problem::Token));
    }
    put(&mut leaf.atom, Atom::Number(after_hashes(alloc, name)?));
    Ok(Lexed::Token(Token::Leaf, rest))
}

/// Returns the name after `##`.
fn after_hashes(alloc: Global, name: &[u8]) -> Result<Vec<u8>, AllocError>
    ensures { IfOk result (λ v. v.items ≡ 35 ∷ 35 ∷ name.now) }
{
    let mut text = Vec::new(alloc);
    text.push(b'#')?;
    text.push(b'#')?;
    text.extend_from_slice(name)?;
    Ok(text)
}

/// Reads a tag after its `#`.
fn tag(text: &[u8], beyond: Beyond) -> Lexed<'_>
    ensures exact { (f : LeafValue) → lexed_of f result ≡ Spec.tag_token beyond text.now }
    ensures within { IsWithin beyond text.now result }
{
    let (name, rest) = text.split_at(word_len(text));
    if may_go_on(rest, beyond) {
        return Lexed::More;
    }
    if !is_tag(name) {
        return Lexed::Bad(Problem::Token);
    }
    Lexed::Token(Token::Tag, rest)
}

/// Reads the word at the front.
#[inline(always)]
fn word_token<'a>(
    alloc: Global,
    bytes: &'a [u8],
    beyond: Beyond,
    leaf: &mut Leaf,
) -> Result<Lexed<'a>, AllocError>
    ensures exact { IfOk result (λ l. lexed_of leaf.new l ≡ Spec.word_token beyond bytes.now) }
    ensures within { IfOk result (IsWithin beyond bytes.now) }
{
    if let Some((name, rest)) = plain_keyword(bytes) {
        leaf.name = name;
        return Ok(Lexed::Token(Token::Keyword, rest));
    }
    if let Some(rest) = plain_nil(bytes) {
        return Ok(Lexed::Token(Token::Nil, rest));
    }
    any_word(alloc, bytes, beyond, leaf)
}

/// Reads the word at the front, of whichever kind it is.
#[inline(never)]
fn any_word<'a>(
    alloc: Global,
    bytes: &'a [u8],
    beyond: Beyond,
    leaf: &mut Leaf,
) -> Result<Lexed<'a>, AllocError>
    ensures exact { IfOk result (λ l. lexed_of leaf.new l ≡ Spec.word_token beyond bytes.now) }
    ensures within { IfOk result (IsWithin beyond bytes.now) }
{
    let (name, rest) = bytes.split_at(word_len(bytes));
    if may_go_on(rest, beyond) {
        return Ok(Lexed::More);
    }
    match word(alloc, name)? {
        Some(Atom::Integer(value)) => Ok(Lexed::Token(Token::Integer(value), rest)),
        Some(Atom::ShortKeyword(name)) => {
            leaf.name = name;
            Ok(Lexed::Token(Token::Keyword, rest))
        }
        Some(atom) => {
            put(&mut leaf.atom, atom);
            Ok(Lexed::Token(Token::Leaf, rest))
        }
        None => Ok(Lexed::Bad(Problem::Token)),
    }
}
