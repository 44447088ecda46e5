//! The operations of a text.

ghost use Rattle.std.specs.Prelude.{◌≡◌, Result, Some as SomeSpec, map, option_map, if◌then◌else◌, false};
ghost use Rattle.std.specs.Option.{option_and_then, option_map_or};
ghost use Rattle.append_text.specs.Meaning.Data as Seen;
ghost use Rattle.append_text.specs.Meaning.Numbers.{IsNumber};
ghost use Rattle.append_text.specs.Meaning.Operations as Spec;
ghost use Rattle.append_text.specs.Machinery.Readings.{AreNumbers, AreSteps, IsOpIfAny, IsStepValue, Reads};

use crate::data::{Data, is_text};
use crate::history::Label;
use crate::name::Names;
use crate::read_fault::{Problem, Refusal};
use append_values::Operation;
use std::alloc::{AllocError, Global};

/// What an operation says of its transaction.
#[derive(Clone, Copy, PartialEq, Eq)]
pub(crate) enum Kind {
    /// It begins.
    Invoke,
    /// It committed.
    Ok,
    /// It aborted.
    Fail,
    /// Nobody knows how it ended.
    Info,
}

/// An operation of a transaction.
#[derive(Drop)]
pub(crate) struct Op {
    pub(crate) kind: Kind,
    pub(crate) label: Label,
    /// The steps. A read of `nil` has no elements.
    pub(crate) steps: Vec<Operation>,
}

/// Reads the operation of this number in its text. Returns `None` if it is none of a transaction: if its process is no integer, as that of a nemesis,
/// or its `:f` isn't `:txn`.
pub(crate) fn operation<'a, D: Data<'a>>(
    alloc: Global,
    names: &mut Names,
    number: u64,
    datum: D,
) -> Result<Option<Op>, Refusal>
    ensures { Reads result names.old.kept.keys names.new.kept.keys (Spec.said D.notation number (D.form datum)) IsOpIfAny }
{
    let Some(fields) = datum.fields() else {
        return Err(Refusal::Problem(Problem::Map));
    };
    let Some(process) = process_in(fields.f, fields.process) else {
        return Ok(None);
    };
    let Some(kind) = kind_in(fields.kind) else {
        return Err(Refusal::Problem(Problem::Type));
    };
    let label = Label {
        index: index_in(number, fields.index),
        process,
    };
    let steps = steps_in(alloc, names, kind, fields.value)?;
    Ok(Some(Op { kind, label, steps }))
}

/// Returns whether this is a map whose `:f` is `:txn`.
pub(crate) fn is_of_txn<'a, D: Data<'a>>(datum: D) -> bool
    ensures { result ≡ Spec.is_of_txn D.notation (D.form datum) }
{
    match datum.fields() {
        Some(fields) => is_word(fields.f, b"txn"),
        None => false,
    }
}

/// Returns whether the field is the word.
fn is_word<'a, D: Data<'a>>(field: Option<D>, word: &[u8]) -> bool
    ensures { result ≡ option_map_or (Seen.is_word D.notation word.now) (option_map D.form field) false }
{
    match field {
        Some(data) => match data.word() {
            Some(known) => is_text(known, word),
            None => false,
        },
        None => false,
    }
}

fn integer_in<'a, D: Data<'a>>(field: Option<D>) -> Option<i64>
    ensures { result ≡ option_and_then Seen.integer_in (option_map D.form field) }
{
    match field {
        Some(data) => data.integer(),
        None => None,
    }
}

/// Returns the process of an operation with these fields `:f` and `:process`, if it is one of a transaction.
fn process_in<'a, D: Data<'a>>(f: Option<D>, process: Option<D>) -> Option<i64>
    ensures { result ≡ Spec.process_in D.notation (option_map D.form f) (option_map D.form process) }
{
    if is_word(f, b"txn") {
        return process_number(process);
    }
    None
}

/// Returns the number of the process, if the field has one.
fn process_number<'a, D: Data<'a>>(process: Option<D>) -> Option<i64>
    ensures { result ≡ option_and_then (Seen.process_number D.notation) (option_map D.form process) }
{
    match process {
        Some(data) => data.process(),
        None => None,
    }
}

/// Returns the index of an operation of this number in its text.
fn index_in<'a, D: Data<'a>>(number: u64, field: Option<D>) -> u64
    ensures { result ≡ Spec.index_in number (option_map D.form field) }
{
    match integer_in(field) {
        Some(integer) => index_of(number, integer),
        None => number,
    }
}

/// Returns the integer, if it is one from 0 up, else the number.
fn index_of(number: u64, integer: i64) -> u64
    ensures { result ≡ Spec.index_of number (SomeSpec integer) }
{
    match u64::try_from(integer) {
        Ok(index) => index,
        Err(_) => number,
    }
}

fn kind_in<'a, D: Data<'a>>(field: Option<D>) -> Option<Kind>
    ensures { result ≡ Spec.kind_in D.notation (option_map D.form field) }
{
    match field {
        Some(data) => match data.word() {
            Some(word) => kind_of(word),
            None => None,
        },
        None => None,
    }
}

fn kind_of(word: &[u8]) -> Option<Kind>
    ensures { result ≡ Spec.kind_of word.now }
{
    if is_text(word, b"invoke") {
        return Some(Kind::Invoke);
    }
    if is_text(word, b"ok") {
        return Some(Kind::Ok);
    }
    if is_text(word, b"fail") {
        return Some(Kind::Fail);
    }
    if is_text(word, b"info") {
        return Some(Kind::Info);
    }
    None
}

/// Reads the steps of an operation. A `:fail` and an `:info` may have none, or a `:value` that is no list.
fn steps_in<'a, D: Data<'a>>(
    alloc: Global,
    names: &mut Names,
    kind: Kind,
    value: Option<D>,
) -> Result<Vec<Operation>, Refusal>
    ensures { Reads result names.old.kept.keys names.new.kept.keys (Spec.steps D.notation kind (option_map D.form value)) AreSteps }
{
    match value {
        Some(value) => steps_of(alloc, names, kind, value),
        None => no_steps(alloc, names, kind),
    }
}

/// Reads the steps of an operation with this value.
fn steps_of<'a, D: Data<'a>>(
    alloc: Global,
    names: &mut Names,
    kind: Kind,
    value: D,
) -> Result<Vec<Operation>, Refusal>
    ensures { Reads result names.old.kept.keys names.new.kept.keys (Spec.steps D.notation kind (SomeSpec (D.form value))) AreSteps }
{
    let Some(listed) = value.elements(alloc)? else {
        return no_steps(alloc, names, kind);
    };
    steps(alloc, names, &listed)
}

/// Returns no steps, if the operation may have none.
fn no_steps(alloc: Global, names: &mut Names, kind: Kind) -> Result<Vec<Operation>, Refusal>
    ensures { Reads result names.old.kept.keys names.new.kept.keys (Spec.no_steps kind) AreSteps }
{
    match kind {
        Kind::Fail | Kind::Info => Ok(Vec::new(alloc)),
        Kind::Invoke | Kind::Ok => Err(Refusal::Problem(Problem::Step)),
    }
}

/// Reads the steps that are listed.
fn steps<'a, D: Data<'a>>(
    alloc: Global,
    names: &mut Names,
    listed: &[D],
) -> Result<Vec<Operation>, Refusal>
    ensures { Reads result names.old.kept.keys names.new.kept.keys (Spec.each (Spec.step D.notation) (map D.form listed.now)) AreSteps }
{
    let mut steps = Vec::with_capacity(alloc, listed.len())?;
    for datum in listed {
        steps.push(step(alloc, names, *datum)?)?;
    }
    Ok(steps)
}

/// Reads one step.
fn step<'a, D: Data<'a>>(alloc: Global, names: &mut Names, datum: D) -> Result<Operation, Refusal>
    ensures { Reads result names.old.kept.keys names.new.kept.keys (Spec.step D.notation (D.form datum)) IsStepValue }
{
    let Some(step) = datum.step() else {
        return Err(Refusal::Problem(Problem::Step));
    };
    let Some(word) = step.f.word() else {
        return Err(Refusal::Problem(Problem::Step));
    };
    step_of(alloc, names, word, step.key, step.value)
}

/// Reads the step that begins with this word.
fn step_of<'a, D: Data<'a>>(
    alloc: Global,
    names: &mut Names,
    word: &[u8],
    key: D,
    value: D,
) -> Result<Operation, Refusal>
    ensures { Reads result names.old.kept.keys names.new.kept.keys
        (Spec.step_of (SomeSpec word.now) (D.form key) (D.form value)) IsStepValue }
{
    if is_text(word, b"append") {
        return append(names, key, value);
    }
    if is_text(word, b"r") {
        return read(alloc, names, key, value);
    }
    Err(Refusal::Problem(Problem::Step))
}

fn append<'a, D: Data<'a>>(names: &mut Names, key: D, value: D) -> Result<Operation, Refusal>
    ensures { Reads result names.old.kept.keys names.new.kept.keys (Spec.append_of (D.form key) (D.form value)) IsStepValue }
{
    let key = number(names, key)?;
    let element = number(names, value)?;
    Ok(Operation::Append { key, element })
}

fn read<'a, D: Data<'a>>(
    alloc: Global,
    names: &mut Names,
    key: D,
    value: D,
) -> Result<Operation, Refusal>
    ensures { Reads result names.old.kept.keys names.new.kept.keys (Spec.read_of (D.form key) (D.form value)) IsStepValue }
{
    let key = number(names, key)?;
    let elements = elements(alloc, names, value)?;
    Ok(Operation::Read { key, elements })
}

/// Reads the elements of a list. `nil` is the empty one.
fn elements<'a, D: Data<'a>>(
    alloc: Global,
    names: &mut Names,
    datum: D,
) -> Result<Vec<u64>, Refusal>
    ensures { Reads result names.old.kept.keys names.new.kept.keys (Spec.names (D.form datum)) AreNumbers }
{
    if datum.is_nil() {
        return Ok(Vec::new(alloc));
    }
    if let Some(numbers) = datum.numbers(alloc)? {
        return Ok(numbers);
    }
    let Some(listed) = datum.elements(alloc)? else {
        return Err(Refusal::Problem(Problem::Step));
    };
    numbers(alloc, names, &listed)
}

/// Returns the numbers of the elements that are listed.
fn numbers<'a, D: Data<'a>>(
    alloc: Global,
    names: &mut Names,
    listed: &[D],
) -> Result<Vec<u64>, Refusal>
    ensures { Reads result names.old.kept.keys names.new.kept.keys (Spec.each Spec.name (map D.form listed.now)) AreNumbers }
{
    let mut numbers = Vec::with_capacity(alloc, listed.len())?;
    for datum in listed {
        numbers.push(number(names, *datum)?)?;
    }
    Ok(numbers)
}

/// Returns the number of the key or the element that this names.
fn number<'a, D: Data<'a>>(names: &mut Names, datum: D) -> Result<u64, Refusal>
    ensures { Reads result names.old.kept.keys names.new.kept.keys (Spec.name (D.form datum)) IsNumber }
{
    if let Some(number) = datum.number() {
        return Ok(number);
    }
    match datum.name() {
        Some(name) => Ok(names.number(name)?),
        None => Err(Refusal::Problem(Problem::Name)),
    }
}
