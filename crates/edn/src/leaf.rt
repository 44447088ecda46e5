//! Forms that are no collections.

use crate::atom::Atom;
use crate::short::Short;

/// Where the form of a token is put. The token says whether it is a keyword with this name or this form.
#[derive(Drop)]
pub(crate) struct Leaf {
    pub(crate) name: Short,
    pub(crate) atom: Atom,
}

impl Leaf {
    /// A place for forms to come.
    pub(crate) fn new() -> Leaf {
        Leaf {
            name: Short::empty(),
            atom: Atom::Nil,
        }
    }
}
