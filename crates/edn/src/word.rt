//! Forms that are written as one word.

ghost use Rattle.std.specs.Prelude.{◌≡◌, IfOk, option_map};
ghost use Rattle.edn.specs.Meaning.Forms.{atom_of};
ghost use Rattle.edn.specs.Meaning.Words.{word_of, keyword_of, symbol_of, named};

use crate::atom::Atom;
use crate::character::is_text;
use crate::names::{is_keyword, is_symbol};
use crate::number::{begins_number, number};
use crate::short::Short;
use std::alloc::{AllocError, Global};

/// Reads the form that is all of the text: a number, a keyword, a symbol, `nil`, `true` or `false`. Returns `None` if the
/// text is that of no such form.
pub(crate) fn word(alloc: Global, text: &[u8]) -> Result<Option<Atom>, AllocError>
    ensures { IfOk result (λ o. option_map atom_of o ≡ word_of text.now) }
{
    match text {
        [] => Ok(None),
        [b':', name @ ..] => keyword(alloc, name),
        _ => {
            if begins_number(text) {
                return number(alloc, text);
            }
            symbol(alloc, text)
        }
    }
}

fn keyword(alloc: Global, name: &[u8]) -> Result<Option<Atom>, AllocError>
    ensures { IfOk result (λ o. option_map atom_of o ≡ keyword_of name.now) }
{
    if !is_keyword(name) {
        return Ok(None);
    }
    match Short::front(name, name.len()) {
        Some(name) => Ok(Some(Atom::ShortKeyword(name))),
        None => Ok(Some(Atom::Keyword(name.to_vec(alloc)?))),
    }
}

fn symbol(alloc: Global, text: &[u8]) -> Result<Option<Atom>, AllocError>
    ensures { IfOk result (λ o. option_map atom_of o ≡ symbol_of text.now) }
{
    if !is_symbol(text) {
        return Ok(None);
    }
    Ok(Some(named(alloc, text)?))
}

#[tactic(auto, unfolding(crate::specs::Meaning::Words::named))]
fn named(alloc: Global, text: &[u8]) -> Result<Atom, AllocError>
    ensures { IfOk result (λ f. atom_of f ≡ named text.now) }
{
    if is_text(text, b"nil") {
        return Ok(Atom::Nil);
    }
    if is_text(text, b"true") {
        return Ok(Atom::Boolean(true));
    }
    if is_text(text, b"false") {
        return Ok(Atom::Boolean(false));
    }
    Ok(Atom::Symbol(text.to_vec(alloc)?))
}
