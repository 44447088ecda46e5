//! What is read from a text.

ghost use Rattle.std.specs.Prelude.{◌≡◌, ◌≤◌, ◌++◌, [], ◌∷◌, true, length, reverse, take, IfSome, IfNone};
ghost use Rattle.edn.specs.Meaning.Tapes.{collection, first_of, forms_in};
ghost use Rattle.edn.specs.Machinery.Tapes.{is_fit, is_sound};

use crate::atom::Atom;
use crate::kind::{Kind, kind_of_atom};
use crate::tape::{Node, Row, before};

/// A form of EDN. A tagged value is read as the value that follows the tag; nothing is kept of the tag, nor of metadata.
#[derive(Clone, Copy)]
pub struct Form<'a> {
    nodes: &'a [Node],
    ghost sound: { is_sound (reverse nodes.now) ≡ true },
}

/// The forms of a collection that are left, from the last one back.
#[derive(Clone, Copy)]
pub struct Forms<'a> {
    nodes: &'a [Node],
    left: usize,
    ghost sound: { is_sound (reverse nodes.now) ≡ true },
    ghost within: { left ≤ length (forms_in nodes.now) },
}

impl<'a> Form<'a> {
    ghost use Rattle.edn.specs.Meaning.Views.{IsPaired, form_of, kind_of};

    /// The last form of these nodes; `nil` if there is none.
    pub(crate) fn at_end(nodes: &'a [Node]) -> Form<'a>
        requires { is_sound (reverse nodes.now) ≡ true }
        ensures { form_of result ≡ first_of (forms_in nodes.now) }
    {
        Form { nodes }
    }

    /// Returns what the form is.
    pub fn kind(self) -> Kind<'a>
        ensures form { kind_of result ≡ form_of self.entry }
        ensures paired { IsPaired result }
    {
        match self.nodes {
            [] => Kind::Nil,
            [.., Node::Atom(atom)] => kind_of_atom(atom),
            [front @ .., Node::End(row, count, _)] => Forms::of(front, *count).in_row(*row),
        }
    }
}

impl<'a> Forms<'a> {
    ghost use Rattle.edn.specs.Meaning.Views.{IsPaired, form_of, forms_of, kind_of};

    /// The last forms of these nodes, so many of them.
    fn of(nodes: &'a [Node], left: usize) -> Forms<'a>
        requires sound { is_sound (reverse nodes.now) ≡ true }
        requires within { left ≤ length (forms_in nodes.now) }
        ensures forms { forms_of result ≡ reverse (take left (forms_in nodes.now)) }
        ensures left { result.left ≡ left }
    {
        Forms { nodes, left }
    }

    fn in_row(self, row: Row) -> Kind<'a>
        requires { is_fit row self.left ≡ true }
        ensures kind { kind_of result ≡ collection row (forms_of self.entry) }
        ensures paired { IsPaired result }
    {
        match row {
            Row::List => Kind::List(self),
            Row::Vector => Kind::Vector(self),
            Row::Set => Kind::Set(self),
            Row::Map => Kind::Map(self),
            Row::NamespacedMap => Kind::NamespacedMap(self),
        }
    }

    /// Returns how many forms are left.
    pub fn len(&self) -> usize
        ensures { result ≡ length (forms_of self.now) }
    {
        self.left
    }

    /// Takes the last form that is left.
    pub fn next_back(&mut self) -> Option<Form<'a>>
        ensures some { IfSome result (λ f. forms_of self.old ≡ forms_of self.new ++ form_of f ∷ []) }
        ensures none { IfNone result ((forms_of self.old ≡ []) × (self.new ≡ self.old)) }
    {
        if self.left == 0 {
            return None;
        }
        let form = Form::at_end(self.nodes);
        *self = Forms::of(before(self.nodes), self.left - 1);
        Some(form)
    }
}
