//! Forms that are no collections.

use crate::short::Short;

/// A form that is no collection.
#[derive(Drop)]
pub(crate) enum Atom {
    /// `nil`
    Nil,
    /// `true` and `false`
    Boolean(bool),
    /// An integer of 64 bits, in whichever radix it is written, with or without the suffix `N`.
    Integer(i64),
    /// Every other number, as it is written: a float, a ratio, `##Inf`, `##-Inf`, `##NaN`, or an integer beyond 64 bits.
    Number(Vec<u8>),
    /// The bytes of a string, its escapes resolved.
    String(Vec<u8>),
    /// What stands behind the backslash of a character, as it is written: `c`, `newline`, `u03a9` or `o101`.
    Character(Vec<u8>),
    /// The name of a keyword of more than 16 bytes, without its colon.
    Keyword(Vec<u8>),
    /// The name of a keyword of at most 16 bytes, without its colon.
    ShortKeyword(Short),
    /// The name of a symbol.
    Symbol(Vec<u8>),
}
