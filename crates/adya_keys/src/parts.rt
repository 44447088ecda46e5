//! Lists, packed into one.

ghost use Rattle.std.specs.Prelude.{◌≡◌, ◌<◌, ◌≤◌, ◌-◌, ◌+◌, ◌++◌, ◌∷◌, ◌^◌, ℕ, [], true, Some, length, slice_get, IfOk, IsOk, OnOk, OnErr};
ghost use Rattle.adya_keys.specs.Machinery.Within.{part};
ghost use Rattle.adya_keys.specs.Machinery.Ends.{are_ends, end_before};
ghost use Rattle.adya_keys.specs.Machinery.Indices.{indices_in};

use crate::Indices;
use std::alloc::{AllocError, Global};

/// So many lists can be counted. Memory is refused long before.
const MOST_PARTS: usize = (1 << 60) - 1;

/// Lists of elements, one after the other in one list, and where each of them ends.
#[derive(Drop)]
pub(crate) struct Parts<T> {
    all: Vec<T>,
    ends: Indices,
    pub ghost valid: { are_ends (length all.items) (indices_in ends) 0 ≡ true },
    pub ghost few: { length (indices_in ends) < 2 ^ 60 },
}

impl<T: Copy> Parts<T> {
    ghost use Rattle.adya_keys.specs.Machinery.Parts.{parts_of, HasRoom};

    /// Makes that of no lists. It takes no memory.
    pub(crate) fn new(alloc: Global) -> Parts<T>
        ensures { parts_of result ≡ [] }
    {
        Parts {
            all: Vec::new(alloc),
            ends: Indices::new(alloc),
        }
    }

    /// Makes room for so many more lists of so many elements in all. The lists stay, also if memory is refused.
    pub(crate) fn reserve(&mut self, parts: usize, elements: usize) -> Result<(), AllocError>
        ensures room { OnOk result (HasRoom self.new parts elements) }
        ensures same { parts_of self.new ≡ parts_of self.old }
        ensures succeeds { HasRoom self.old parts elements → IsOk result }
        ensures keeps { (n m : ℕ) → elements ≤ m → HasRoom self.old n m → HasRoom self.new n m }
    {
        if parts > MOST_PARTS - self.ends.len() {
            return Err(AllocError);
        }
        self.all.reserve(elements)?;
        self.ends.reserve(parts, self.all.len() + elements)
    }

    /// Adds a list at the end. If memory is refused, the lists stay as they were.
    pub(crate) fn push(&mut self, part: &[T]) -> Result<(), AllocError>
        ensures ok { OnOk result (parts_of self.new ≡ parts_of self.old ++ part.now ∷ []) }
        ensures err { OnErr result (parts_of self.new ≡ parts_of self.old) }
        ensures succeeds { HasRoom self.old 1 (length part.now) → IsOk result }
        ensures room { (n m : ℕ) → HasRoom self.old (n + 1) (m + length part.now) → HasRoom self.new n m }
    {
        if self.ends.len() == MOST_PARTS {
            return Err(AllocError);
        }
        self.ends
            .reserve(1, self.all.len().saturating_add(part.len()))?;
        self.all.extend_from_slice(part)?;
        self.ends.push_reserved(self.all.len());
        Ok(())
    }

    /// Returns equal lists.
    pub(crate) fn copy(&self, alloc: Global) -> Result<Parts<T>, AllocError>
        ensures { IfOk result (λ p. parts_of p ≡ parts_of self.now) }
    {
        Ok(Parts {
            all: Vec::from_slice(alloc, &self.all)?,
            ends: self.ends.copy(alloc)?,
        })
    }

    /// Returns how many lists there are.
    #[inline(always)]
    pub(crate) fn len(&self) -> usize
        ensures length { result ≡ length (parts_of self.now) }
        ensures near { result < 2 ^ 60 }
    {
        self.ends.len()
    }

    /// Returns where the list at the index begins.
    #[inline(always)]
    fn begin(&self, i: usize) -> usize
        requires { i < length (parts_of self.now) }
        ensures { result ≡ end_before (indices_in self.now.ends) 0 i }
    {
        if i == 0 {
            return 0;
        }
        self.ends.at(i - 1)
    }

    /// Returns the list at the index, counted from 0.
    #[inline(always)]
    pub(crate) fn at(&self, i: usize) -> &[T]
        requires { i < length (parts_of self.now) }
        ensures { slice_get (parts_of self.now) i ≡ Some result.now }
    {
        between(&self.all, self.begin(i), self.ends.at(i))
    }

    pub(crate) fn allocator(&self) -> Global {
        self.ends.allocator()
    }
}

/// Returns the elements from one place up to another.
#[inline(always)]
fn between<T>(all: &[T], from: usize, to: usize) -> &[T]
    requires order { from ≤ to }
    requires within { to ≤ length all.now }
    ensures { result.now ≡ part from (to - from) all.now }
{
    &all[from..to]
}
