//! Values of JSON as data.

ghost use Rattle.std.specs.Prelude.{◌≡◌, ◌≢◌, ◌∷◌, [], map, option_map, length, IfOk, IfSome, IfNone};
ghost use Rattle.std.specs.Option.{option_and_then, option_or};
ghost use Rattle.serde_json.specs.Find.{get};
ghost use Rattle.serde_json.specs.View.{view};
ghost use Rattle.append_text.specs.declared.text_form.TextForm.TheVariants.{Json};
ghost use Rattle.append_text.specs.Meaning.Data as Seen;
ghost use Rattle.append_text.specs.Meaning.Json.{form_of};

use crate::data::{Data, Fields, Step};
use crate::name::{Name, number_of_integer};
use serde_json::Value;
use std::alloc::{AllocError, Global};

impl<'a> Data<'a> for &'a Value {
    ghost notation = { Json };

    ghost form = { λ v. form_of (view v.now) };

    fn fields(self) -> Option<Fields<&'a Value>> {
        if !self.is_object() {
            return None;
        }
        Some(Fields {
            kind: field_of(self, "type", ":type"),
            f: field_of(self, "f", ":f"),
            value: field_of(self, "value", ":value"),
            process: field_of(self, "process", ":process"),
            index: field_of(self, "index", ":index"),
        })
    }

    fn elements(self, alloc: Global) -> Result<Option<Vec<&'a Value>>, AllocError> {
        match self.as_array() {
            Some(values) => Ok(Some(each_of(alloc, values)?)),
            None => Ok(None),
        }
    }

    fn step(self) -> Option<Step<&'a Value>> {
        match self.as_array() {
            Some(values) => step_of(values),
            None => None,
        }
    }

    fn numbers(self, _alloc: Global) -> Result<Option<Vec<u64>>, AllocError> {
        Ok(None)
    }

    fn integer(self) -> Option<i64> {
        self.as_i64()
    }

    fn process(self) -> Option<i64> {
        match self.as_str() {
            Some(text) => process_in(text.as_bytes()),
            None => self.as_i64(),
        }
    }

    fn word(self) -> Option<&'a [u8]> {
        match self.as_str() {
            Some(text) => Some(without_colon(text.as_bytes())),
            None => None,
        }
    }

    fn is_nil(self) -> bool {
        self.is_null()
    }

    fn number(self) -> Option<u64> {
        match self.as_i64() {
            Some(integer) => number_of_integer(integer),
            None => None,
        }
    }

    fn name(self) -> Option<Name<'a>> {
        if let Some(text) = self.as_str() {
            return Some(Name::String(text.as_bytes()));
        }
        match self.as_i64() {
            Some(integer) => Some(Name::Integer(integer)),
            None => None,
        }
    }
}

/// Returns the value of the member of this name, or else of the other.
fn field_of<'a>(object: &'a Value, name: &str, other: &str) -> Option<&'a Value>
    ensures { option_map (λ v. view v.now) result ≡ option_or (get name.now (view object.now)) (get other.now (view object.now)) }
{
    match object.get(name) {
        Some(value) => Some(value),
        None => object.get(other),
    }
}

/// Returns what follows the colon at the front, if there is one.
fn without_colon(word: &[u8]) -> &[u8]
    ensures { result.now ≡ Seen.without_colon word.now }
{
    if let [first, rest @ ..] = word {
        if *first == b':' {
            return rest;
        }
    }
    word
}

/// Returns the number of the process that the digits write.
fn process_in(digits: &[u8]) -> Option<i64>
    ensures { result ≡ option_and_then Seen.integer_of (Seen.number_in digits.now) }
{
    match number_in(digits) {
        Some(number) => integer_of(number),
        None => None,
    }
}

fn integer_of(number: u64) -> Option<i64>
    ensures { result ≡ Seen.integer_of number }
{
    match i64::try_from(number) {
        Ok(integer) => Some(integer),
        Err(_) => None,
    }
}

/// Returns the number that the decimal digits write, if it is below 10^18.
fn number_in(digits: &[u8]) -> Option<u64>
    ensures { result ≡ Seen.number_in digits.now }
{
    if digits.is_empty() {
        return None;
    }
    let mut number = 0u64;
    let mut rest = digits;
    while let [first, others @ ..] = rest {
        let Some(more) = with_digit(number, *first) else {
            return None;
        };
        number = more;
        rest = others;
    }
    Some(number)
}

/// Returns the number with one decimal digit more, if that is below 10^18.
fn with_digit(number: u64, byte: u8) -> Option<u64>
    ensures { result ≡ Seen.with_digit number byte }
{
    if number < 100_000_000_000_000_000 && b'0' <= byte && byte <= b'9' {
        return Some(number * 10 + u64::from(byte - b'0'));
    }
    None
}

/// Returns the values, each by reference.
fn each_of(alloc: Global, values: &[Value]) -> Result<Vec<&Value>, AllocError>
    ensures { IfOk result (λ v. map (λ r. r.now) v.items ≡ values.now) }
{
    let mut each = Vec::with_capacity(alloc, values.len())?;
    for value in values {
        each.push(value)?;
    }
    Ok(each)
}

/// Returns the values, if there are three.
fn step_of(values: &[Value]) -> Option<Step<&Value>>
    ensures some { IfSome result (λ s. values.now ≡ s.f.now ∷ s.key.now ∷ s.value.now ∷ []) }
    ensures none { IfNone result (length values.now ≢ 3) }
{
    match values {
        [f, key, value] => Some(Step { f, key, value }),
        _ => None,
    }
}
