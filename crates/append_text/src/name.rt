//! Names of keys and elements.

ghost use Rattle.std.specs.Prelude.{◌≡◌, ℕ, ◌+◌, ◌*◌, List, false, option_map, IfOk, IfSome, IfNone, OnOk};
ghost use Rattle.append_text.specs.declared.name.Kept.{Kept as KeptValue};
ghost use Rattle.append_text.specs.Meaning.Names.{integer as as_name, is_counted, kept_name, name_of, named};
ghost use Rattle.append_text.specs.Meaning.Numbers.{IsNumber, IsOneToOne, Keeps};

use indexmap::IndexSet;
use std::alloc::{AllocError, Global};

/// A key or an element, as the text has it. `1`, `"1"` and `:1` are three names.
#[derive(Clone, Copy, PartialEq, Eq)]
pub enum Name<'a> {
    /// An integer.
    Integer(i64),
    /// The bytes of a string.
    String(&'a [u8]),
    /// The name of a keyword, without its colon.
    Keyword(&'a [u8]),
}

/// A name that isn't an integer from 0 up.
#[derive(PartialEq, Eq, Hash, Drop)]
enum Kept {
    /// An integer below 0.
    Integer(i64),
    /// The bytes of a string.
    String(Vec<u8>),
    /// The name of a keyword.
    Keyword(Vec<u8>),
}

/// The names of a history. The number of an integer from 0 up is twice the integer. Other names have odd numbers, in the
/// order in which the text first has them; keys and elements are numbered together.
#[derive(Drop)]
pub struct Names {
    alloc: Global,
    kept: IndexSet<Kept>,
    pub ghost one_to_one: { IsOneToOne kept.keys },
}

impl Names {
    /// No names.
    pub(crate) fn new(alloc: Global) -> Names {
        Names {
            alloc,
            kept: IndexSet::new(alloc),
        }
    }

    /// Returns the number of the name, which may be new. Out of memory too if there are more names than numbers.
    pub(crate) fn number(&mut self, name: Name<'_>) -> Result<u64, AllocError>
        ensures number { IfOk result (λ n. IsNumber self.new.kept.keys (name_of name.entry) n) }
        ensures keeps { OnOk result (Keeps self.old.kept.keys self.new.kept.keys) }
    {
        match name {
            Name::Integer(integer) => match number_of_integer(integer) {
                Some(number) => Ok(number),
                None => self.keep(Kept::Integer(integer)),
            },
            Name::String(bytes) => self.keep(Kept::String(bytes.to_vec(self.alloc)?)),
            Name::Keyword(bytes) => self.keep(Kept::Keyword(bytes.to_vec(self.alloc)?)),
        }
    }

    /// Returns the number of a name that may be new.
    #[inline(never)]
    fn keep(&mut self, name: Kept) -> Result<u64, AllocError>
        requires { is_counted (kept_name name) ≡ false }
        ensures number { IfOk result (λ n. IsNumber self.new.kept.keys (kept_name name) n) }
        ensures keeps { OnOk result (Keeps self.old.kept.keys self.new.kept.keys) }
    {
        let (place, _) = self.kept.insert_full(name)?;
        number_at(place)
    }

    /// Returns the name with this number. `None` if it is odd and no name of the history has it.
    pub fn name(&self, number: u64) -> Option<Name<'_>>
        ensures { option_map name_of result ≡ named self.now.kept.keys number }
    {
        if number % 2 == 0 {
            return Some(Name::Integer((number / 2) as i64));
        }
        match self.kept.get_index((number / 2) as usize) {
            Some(kept) => Some(kept.name()),
            None => None,
        }
    }
}

/// Returns the number of the name that is kept at the place.
fn number_at(place: usize) -> Result<u64, AllocError>
    ensures { IfOk result (λ n. n ≡ 2 * place + 1) }
{
    match (place as u64).checked_mul(2) {
        Some(twice) => Ok(twice + 1),
        None => Err(AllocError),
    }
}

/// Returns the number of an integer from 0 up.
pub(crate) fn number_of_integer(integer: i64) -> Option<u64>
    ensures some { IfSome result (λ n. (kept : List KeptValue) → IsNumber kept (as_name integer) n) }
    ensures none { IfNone result (is_counted (as_name integer) ≡ false) }
{
    match u64::try_from(integer) {
        Ok(size) => Some(size * 2),
        Err(_) => None,
    }
}

impl Kept {
    fn name(&self) -> Name<'_>
        ensures { name_of result ≡ kept_name self.now }
    {
        match self {
            Kept::Integer(integer) => Name::Integer(*integer),
            Kept::String(bytes) => Name::String(bytes.as_slice()),
            Kept::Keyword(bytes) => Name::Keyword(bytes.as_slice()),
        }
    }
}
