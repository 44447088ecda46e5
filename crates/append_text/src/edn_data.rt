//! Forms of EDN as data.

ghost use Rattle.std.specs.Prelude.{◌≡◌, ◌∷◌, [], ℕ, List, Some as SomeSpec, ◌%◌, false, nat_eq, codes, map, take, option_map, length, IfOk, IfSome, IfNone};
ghost use Rattle.std.specs.List.{AllZip};
ghost use Rattle.std.specs.Cmp.Lexicographic.{pointwise};
ghost use Rattle.edn.specs.Meaning.Forms.{Form as Plain, Pairs, list, pair, pairs_of, forms_of as plain};
ghost use Rattle.edn.specs.Meaning.Views.{form_of, forms_of};
ghost use Rattle.append_text.specs.declared.name.Kept.{Kept};
ghost use Rattle.append_text.specs.declared.text_form.TextForm.TheVariants.{Edn};
ghost use Rattle.append_text.specs.Meaning.Data as Seen;
ghost use Rattle.append_text.specs.Meaning.Numbers.{IsNumber};
ghost use Rattle.append_text.specs.Meaning.Operations as Spec;
ghost use Rattle.append_text.specs.Machinery.EdnMaps.{IsNoWord, entries_of, extra, key_of};
ghost use Rattle.append_text.specs.Machinery.Readings.{HasFields, Says};

use crate::data::{Data, Fields, Step, is_text};
use crate::name::{Name, number_of_integer};
use edn::{Form, Forms, Kind};
use std::alloc::{AllocError, Global};

/// How the keys of a map stand in a text.
#[derive(Clone, Copy)]
enum Keys {
    /// As they are.
    Written,
    /// Within a namespace, which comes before them.
    Within,
}

impl<'a> Data<'a> for Form<'a> {
    ghost notation = { Edn };

    ghost form = { form_of };

    fn fields(self) -> Option<Fields<Form<'a>>> {
        match self.kind() {
            Kind::Map(forms) => Some(fields_in(forms, Keys::Written)),
            Kind::NamespacedMap(forms) => Some(fields_in(forms, Keys::Within)),
            _ => None,
        }
    }

    fn elements(self, alloc: Global) -> Result<Option<Vec<Form<'a>>>, AllocError> {
        match forms_in(self) {
            Some(forms) => Ok(Some(elements_in(alloc, forms)?)),
            None => Ok(None),
        }
    }

    fn step(self) -> Option<Step<Form<'a>>> {
        match forms_in(self) {
            Some(forms) => step_in(forms),
            None => None,
        }
    }

    fn numbers(self, alloc: Global) -> Result<Option<Vec<u64>>, AllocError> {
        match self.kind() {
            Kind::Vector(forms) => numbers_in(alloc, forms),
            _ => Ok(None),
        }
    }

    fn integer(self) -> Option<i64> {
        match self.kind() {
            Kind::Integer(number) => Some(number),
            _ => None,
        }
    }

    fn process(self) -> Option<i64> {
        self.integer()
    }

    fn word(self) -> Option<&'a [u8]> {
        match self.kind() {
            Kind::Keyword(name) => Some(name),
            _ => None,
        }
    }

    fn is_nil(self) -> bool {
        matches!(self.kind(), Kind::Nil)
    }

    fn number(self) -> Option<u64> {
        match self.kind() {
            Kind::Integer(number) => number_of_integer(number),
            _ => None,
        }
    }

    fn name(self) -> Option<Name<'a>> {
        match self.kind() {
            Kind::Integer(number) => Some(Name::Integer(number)),
            Kind::String(bytes) => Some(Name::String(bytes)),
            Kind::Keyword(name) => Some(Name::Keyword(name)),
            _ => None,
        }
    }
}

/// Returns what stands in a vector or a list.
fn forms_in(form: Form<'_>) -> Option<Forms<'_>>
    ensures { option_map forms_of result ≡ Seen.elements (form_of form.entry) }
{
    match form.kind() {
        Kind::Vector(forms) => Some(forms),
        Kind::List(forms) => Some(forms),
        _ => None,
    }
}

/// Returns what stands in a list; nothing if this is none.
pub(crate) fn listed_in(form: Form<'_>) -> Option<Forms<'_>>
    ensures some { IfSome result (λ fs. form_of form.entry ≡ list (plain (forms_of fs))) }
    ensures none { IfNone result (Seen.parts (form_of form.entry) ≡ form_of form.entry ∷ []) }
{
    match form.kind() {
        Kind::List(forms) => Some(forms),
        _ => None,
    }
}

/// Returns the fields of an operation, which a map with these forms says. The entries come from the last one back, so the
/// first one of a name stays.
fn fields_in<'a>(forms: Forms<'a>, keys: Keys) -> Fields<Form<'a>>
    requires { length (forms_of forms) % 2 ≡ extra keys }
    ensures { HasFields Edn form_of result (pairs_of (entries_of keys (forms_of forms.entry))) }
{
    let mut left = forms;
    let mut fields = Fields {
        kind: None,
        f: None,
        value: None,
        process: None,
        index: None,
    };
    while let Some(value) = left.next_back() {
        let Some(key) = left.next_back() else {
            return fields;
        };
        if let Some(name) = word_of(key, keys) {
            set_field(&mut fields, name, value);
        }
    }
    fields
}

/// Returns the word that a key of a map is. The namespace of the map isn't asked for: a key that has it is no word without
/// a slash.
fn word_of<'a>(key: Form<'a>, keys: Keys) -> Option<&'a [u8]>
    ensures some { IfSome result (λ w. (namespace : List ℕ)
        → Seen.word Edn (key_of keys namespace (form_of key.entry)) ≡ SomeSpec w.now) }
    ensures none { IfNone result ((namespace : List ℕ) → IsNoWord (key_of keys namespace (form_of key.entry))) }
{
    let name = key.word()?;
    match keys {
        Keys::Written => Some(name),
        Keys::Within => after_blank(name),
    }
}

/// Returns what follows the namespace `_`, if the name has that one.
fn after_blank(name: &[u8]) -> Option<&[u8]>
    ensures some { IfSome result (λ rest. name.now ≡ 95 ∷ 47 ∷ rest.now) }
    ensures none { IfNone result (pointwise nat_eq (take 2 name.now) (codes "_/") ≡ false) }
{
    match name {
        [b'_', b'/', rest @ ..] => Some(rest),
        _ => None,
    }
}

/// Gives the field with this name, if there is one, this value.
fn set_field<'a>(fields: &mut Fields<Form<'a>>, name: &[u8], value: Form<'a>)
    ensures { (key : Plain) (ps : Pairs) → Seen.word Edn key ≡ SomeSpec name.now → HasFields Edn form_of fields.old ps
        → HasFields Edn form_of fields.new (pair key (form_of value.entry) ps) }
{
    if is_text(name, b"type") {
        fields.kind = Some(value);
    } else if is_text(name, b"f") {
        fields.f = Some(value);
    } else if is_text(name, b"value") {
        fields.value = Some(value);
    } else if is_text(name, b"process") {
        fields.process = Some(value);
    } else if is_text(name, b"index") {
        fields.index = Some(value);
    }
}

/// Returns the forms in the order of the text.
pub(crate) fn elements_in<'a>(alloc: Global, forms: Forms<'a>) -> Result<Vec<Form<'a>>, AllocError>
    ensures { IfOk result (λ v. map form_of v.items ≡ forms_of forms.entry) }
{
    let mut left = forms;
    let mut elements = Vec::with_capacity(alloc, forms.len())?;
    while let Some(form) = left.next_back() {
        elements.push(form)?;
    }
    elements.reverse();
    Ok(elements)
}

/// Returns the forms, if there are three.
fn step_in(forms: Forms<'_>) -> Option<Step<Form<'_>>>
    ensures some { IfSome result (λ s. forms_of forms.entry ≡ form_of s.f ∷ form_of s.key ∷ form_of s.value ∷ []) }
    ensures none { IfNone result ((f key value : Plain) → forms_of forms.entry ≡ f ∷ key ∷ value ∷ [] → ⊥) }
{
    if forms.len() != 3 {
        return None;
    }
    let mut left = forms;
    let value = left.next_back()?;
    let key = left.next_back()?;
    let f = left.next_back()?;
    Some(Step { f, key, value })
}

/// Returns the numbers of the forms in the order of the text, if all are integers from 0 up.
fn numbers_in(alloc: Global, forms: Forms<'_>) -> Result<Option<Vec<u64>>, AllocError>
    ensures { IfOk result (λ o. IfSome o (λ v. (kept : List Kept)
        → Says (Spec.each Spec.name (forms_of forms.entry)) (λ names. AllZip (IsNumber kept) names v.items))) }
{
    let mut left = forms;
    let mut place = forms.len();
    let mut numbers = Vec::from_elem(alloc, 0, place)?;
    while let Some(form) = left.next_back() {
        let Some(number) = form.number() else {
            return Ok(None);
        };
        place -= 1;
        numbers[place] = number;
    }
    Ok(Some(numbers))
}
