//! What forms are.

ghost use Rattle.std.specs.Prelude.{◌≡◌};
ghost use Rattle.edn.specs.Meaning.Forms.{atom_of};
ghost use Rattle.edn.specs.Meaning.Views.{IsPaired, kind_of};

use crate::atom::Atom;
use crate::form::Forms;

/// What a form is.
#[derive(Clone, Copy)]
pub enum Kind<'a> {
    /// `nil`
    Nil,
    /// `true` and `false`
    Boolean(bool),
    /// An integer of 64 bits, in whichever radix it is written, with or without the suffix `N`.
    Integer(i64),
    /// Every other number, as it is written: a float, a ratio, `##Inf`, `##-Inf`, `##NaN`, or an integer beyond 64 bits.
    Number(&'a [u8]),
    /// The bytes of a string, its escapes resolved.
    String(&'a [u8]),
    /// What stands behind the backslash of a character, as it is written: `c`, `newline`, `u03a9` or `o101`.
    Character(&'a [u8]),
    /// The name of a keyword, without its colon.
    Keyword(&'a [u8]),
    /// The name of a symbol.
    Symbol(&'a [u8]),
    /// `(..)`
    List(Forms<'a>),
    /// `[..]`
    Vector(Forms<'a>),
    /// The elements of a set in the order of the text, also one that comes twice.
    Set(Forms<'a>),
    /// The keys and values of a map in turn, in the order of the text, also a key that comes twice.
    Map(Forms<'a>),
    /// `#:a{..}`: the namespace as a symbol, and then the keys and values of the map in turn, as they are written, in the
    /// order of the text. In the map, a keyword or symbol without a namespace has this one (`:b` is the key `:a/b`), and one
    /// whose namespace is `_` has none (`:_/b` is the key `:b`).
    NamespacedMap(Forms<'a>),
}

/// Returns what a form is that is no collection.
pub(crate) fn kind_of_atom(atom: &Atom) -> Kind<'_>
    ensures kind { kind_of result ≡ atom_of atom.now }
    ensures paired { IsPaired result }
{
    match atom {
        Atom::Nil => Kind::Nil,
        Atom::Boolean(value) => Kind::Boolean(*value),
        Atom::Integer(value) => Kind::Integer(*value),
        Atom::Number(text) => Kind::Number(text),
        Atom::String(text) => Kind::String(text),
        Atom::Character(name) => Kind::Character(name),
        Atom::Keyword(name) => Kind::Keyword(name),
        Atom::ShortKeyword(name) => Kind::Keyword(name.as_slice()),
        Atom::Symbol(name) => Kind::Symbol(name),
    }
}
