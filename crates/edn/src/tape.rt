//! Forms in one list of nodes: a collection stands behind the forms that it has.

ghost use Rattle.std.specs.Prelude.{◌≡◌, ◌≤◌, ◌++◌, [], ◌∷◌, true, drop, take, length, reverse, OnOk, OnErr};
ghost use Rattle.edn.specs.Meaning.Forms.{atom_of};
ghost use Rattle.edn.specs.Meaning.Tapes.{collection, first_of};
ghost use Rattle.edn.specs.Machinery.Tapes.{are_atoms, is_fit, is_sound, skip};

use crate::atom::Atom;
use crate::form::Form;
use std::alloc::{AllocError, AllocFailed, Global};

/// A collection of forms.
#[derive(Clone, Copy)]
pub(crate) enum Row {
    List,
    Vector,
    Set,
    /// Keys and values in turn.
    Map,
    /// A namespace, and then keys and values in turn.
    NamespacedMap,
}

/// A form that is no collection, or the end of one.
#[derive(Drop)]
pub(crate) enum Node {
    Atom(Atom),
    /// The end of a collection of so many forms. The nodes before this place are no part of it.
    End(Row, usize, usize),
}

/// Forms, in the order of the text.
#[derive(Drop)]
pub(crate) struct Tape {
    nodes: Vec<Node>,
    /// So many of the last nodes are no ends of collections, perhaps more.
    atoms: usize,
    ghost sound: { is_sound (reverse nodes.items) ≡ true },
    ghost flat: { are_atoms (take atoms (reverse nodes.items)) ≡ true },
    ghost few: { atoms ≤ length nodes.items },
}

impl Tape {
    ghost use Rattle.edn.specs.Machinery.TapeForms.{tape_forms};
    ghost use Rattle.edn.specs.Meaning.Views.{form_of};

    /// No forms.
    pub(crate) fn new(alloc: Global) -> Tape
        ensures { tape_forms result ≡ [] }
    {
        Tape {
            nodes: Vec::new(alloc),
            atoms: 0,
        }
    }

    /// Adds a form. If memory runs out, nothing changes.
    pub(crate) fn push(&mut self, atom: Atom) -> Result<(), AllocError>
        ensures pushed { OnOk result (tape_forms self.new ≡ atom_of atom ∷ tape_forms self.old) }
        ensures refused { OnErr result (tape_forms self.new ≡ tape_forms self.old) }
    {
        push(&mut self.nodes, Node::Atom(atom))?;
        self.atoms += 1;
        Ok(())
    }

    /// Makes a collection of the last forms, so many of them. If memory runs out, nothing changes.
    pub(crate) fn end(&mut self, row: Row, count: usize) -> Result<(), AllocError>
        requires within { count ≤ length (tape_forms self.old) }
        requires fit { is_fit row count ≡ true }
        ensures ended { OnOk result (tape_forms self.new
            ≡ collection row (reverse (take count (tape_forms self.old))) ∷ drop count (tape_forms self.old)) }
        ensures refused { OnErr result (tape_forms self.new ≡ tape_forms self.old) }
    {
        let start = self.start_of(count);
        push(&mut self.nodes, Node::End(row, count, start))?;
        self.atoms = 0;
        Ok(())
    }

    /// Returns how many nodes come before the last forms, if there are so many of them.
    fn start_of(&self, count: usize) -> usize
        ensures { result ≡ length (skip (reverse self.now.nodes.items) count) }
    {
        if count <= self.atoms {
            return self.nodes.len() - count;
        }
        start_of(&self.nodes, count)
    }

    /// Drops the last form, if there is one.
    pub(crate) fn drop_last(&mut self)
        ensures { tape_forms self.new ≡ drop 1 (tape_forms self.old) }
    {
        let left = before(&self.nodes).len();
        self.nodes.truncate(left);
        self.atoms = 0;
    }

    /// Drops all forms.
    pub(crate) fn clear(&mut self)
        ensures { tape_forms self.new ≡ [] }
    {
        self.nodes.clear();
        self.atoms = 0;
    }

    /// Returns the last form; `nil` if there is none.
    pub(crate) fn last(&self) -> Form<'_>
        ensures { form_of result ≡ first_of (tape_forms self.now) }
    {
        Form::at_end(&self.nodes)
    }
}

/// Returns the nodes without those of the last form, if there is one.
pub(crate) fn before(nodes: &[Node]) -> &[Node]
    requires { is_sound (reverse nodes.now) ≡ true }
    ensures before { reverse result.now ≡ skip (reverse nodes.now) 1 }
    ensures sound { is_sound (reverse result.now) ≡ true }
{
    let [front @ .., last] = nodes else {
        return nodes;
    };
    match last {
        Node::Atom(_) => front,
        Node::End(_, _, start) => &front[..*start],
    }
}

/// Returns how many nodes come before the last forms, if there are so many of them.
fn start_of(nodes: &[Node], count: usize) -> usize
    requires { is_sound (reverse nodes.now) ≡ true }
    ensures { result ≡ length (skip (reverse nodes.now) count) }
{
    let mut rest = nodes;
    for _ in 0..count {
        rest = before(rest);
    }
    rest.len()
}

/// Adds a node at the end.
fn push(nodes: &mut Vec<Node>, node: Node) -> Result<(), AllocError>
    ensures pushed { OnOk result (nodes.new.items ≡ nodes.old.items ++ node ∷ []) }
    ensures refused { OnErr result (nodes.new.items ≡ nodes.old.items) }
{
    match nodes.push(node) {
        Ok(()) => Ok(()),
        Err(failed) => Err(no_room(failed)),
    }
}

/// Drops what found no room.
#[cold]
#[inline(never)]
fn no_room(_failed: AllocFailed<Node>) -> AllocError {
    AllocError
}
