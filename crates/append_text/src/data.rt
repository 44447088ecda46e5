//! What the forms of EDN and the values of JSON have in common.

ghost use Rattle.std.specs.Prelude.{◌≡◌, ℕ, List, Ok as OkSpec, Err as ErrSpec, None as NoneSpec, nat_eq, map, option_map, IfOk, IfSome, IfNone};
ghost use Rattle.std.specs.List.{AllZip};
ghost use Rattle.std.specs.Cmp.Lexicographic.{pointwise};
ghost use Rattle.edn.specs.Meaning.Forms.{Form as Plain};
ghost use Rattle.append_text.specs.declared.name.Kept.{Kept};
ghost use Rattle.append_text.specs.declared.read_fault.Problem.TheVariants as problem;
ghost use Rattle.append_text.specs.declared.text_form.TextForm.{TextForm};
ghost use Rattle.append_text.specs.Meaning.Data.{elements, entries_in, integer_in, is_nil, name_in, process_number, word};
ghost use Rattle.append_text.specs.Meaning.Names.{name_of};
ghost use Rattle.append_text.specs.Meaning.Numbers.{IsNumber};
ghost use Rattle.append_text.specs.Meaning.Operations as Spec;
ghost use Rattle.append_text.specs.Machinery.Readings.{AreFields, IsTriple, Says};

use crate::name::Name;
use std::alloc::{AllocError, Global};

/// The elements of a vector of three.
#[derive(Clone, Copy)]
pub(crate) struct Step<D: Copy> {
    pub(crate) f: D,
    pub(crate) key: D,
    pub(crate) value: D,
}

/// What a map says of an operation. Of a field that comes twice, this is the first.
#[derive(Clone, Copy)]
pub(crate) struct Fields<D: Copy> {
    pub(crate) kind: Option<D>,
    pub(crate) f: Option<D>,
    pub(crate) value: Option<D>,
    pub(crate) process: Option<D>,
    pub(crate) index: Option<D>,
}

/// A form of EDN or a value of JSON.
pub(crate) trait Data<'a>: Copy {
    /// What it is written in, and the form that it is or stands for.
    ghost notation: { TextForm };

    ghost form: { Self → Plain };

    /// Returns the fields of an operation, if this is a map.
    fn fields(self) -> Option<Fields<Self>>
        ensures some { IfSome result (λ x. AreFields notation form x (form self)) }
        ensures none { IfNone result (entries_in (form self) ≡ NoneSpec) };

    /// Returns the elements, if this is a vector.
    fn elements(self, alloc: Global) -> Result<Option<Vec<Self>>, AllocError>
        ensures { IfOk result (λ o. option_map (λ v. map form v.items) o ≡ elements (form self)) };

    /// Returns the three elements, if this is a vector that has three.
    fn step(self) -> Option<Step<Self>>
        ensures some { IfSome result (λ s. IsTriple form s (form self)) }
        ensures none { IfNone result (Spec.step notation (form self) ≡ ErrSpec problem.Step) };

    /// Returns the numbers of the elements, if this is a vector of EDN whose elements are integers from 0 up.
    fn numbers(self, alloc: Global) -> Result<Option<Vec<u64>>, AllocError>
        ensures { IfOk result (λ o. IfSome o (λ v. (kept : List Kept)
            → Says (Spec.names (form self)) (λ names. AllZip (IsNumber kept) names v.items))) };

    /// Returns the number, if this is an integer of 64 bits.
    fn integer(self) -> Option<i64>
        ensures { result ≡ integer_in (form self) };

    /// Returns the number of a process: of an integer of 64 bits, or of a string of JSON that writes one.
    fn process(self) -> Option<i64>
        ensures { result ≡ process_number notation (form self) };

    /// Returns the text of a word: of a keyword, or of a string of JSON.
    fn word(self) -> Option<&'a [u8]>
        ensures { option_map (λ w. w.now) result ≡ word notation (form self) };

    /// Returns whether this is `nil` or `null`.
    fn is_nil(self) -> bool
        ensures { result ≡ is_nil (form self) };

    /// Returns the number of the name, if this is an integer from 0 up.
    fn number(self) -> Option<u64>
        ensures { IfSome result (λ n. (kept : List Kept) → Says (Spec.name (form self)) (λ name. IsNumber kept name n)) };

    /// Returns the name of a key or an element, if this is one.
    fn name(self) -> Option<Name<'a>>
        ensures { option_map name_of result ≡ name_in (form self) };
}

/// Returns whether the texts are the same.
pub(crate) fn is_text(some: &[u8], other: &[u8]) -> bool
    ensures { result ≡ pointwise nat_eq some.now other.now }
{
    some == other
}
