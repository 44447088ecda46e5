//! Lists of numbers that take four bytes each while all of them fit.

ghost use Rattle.std.specs.Prelude.{◌≡◌, ◌<◌, ◌≤◌, ◌^◌, ◌+◌, ◌++◌, ◌∷◌, ◌==◌, ℕ, Some, [], not, true, length, replicate, set, slice_get, slice_range, IfOk, IsOk, OnErr, OnOk};
ghost use Rattle.std.specs.List.{list_all};

use std::alloc::{AllocError, Global};

/// Numbers by their indices, counted from 0. Indices and places are below 4,294,967,296 in all but the longest histories, and take
/// half the memory then.
pub enum Indices {
    /// None of them is larger than 32 bits can say.
    Small(Vec<u32>),
    /// Any numbers.
    Large(Vec<usize>),
}

// Written out, so that what drops one makes a call and no cases.
impl Drop for Indices {
    fn drop(self) {
        match self {
            Indices::Small(numbers) => drop(numbers),
            Indices::Large(numbers) => drop(numbers),
        }
    }
}

impl Indices {
    ghost use Rattle.adya_keys.specs.Machinery.Indices.{capacity_in, count_in, fits_in, indices_in, CanPush};

    /// Makes an empty list. It takes no memory.
    pub fn new(alloc: Global) -> Indices
        ensures { indices_in result ≡ [] }
    {
        Indices::Small(Vec::new(alloc))
    }

    /// Makes an empty list that has room for so many numbers which fit into 32 bits. The only error is that memory is refused.
    pub fn with_capacity(alloc: Global, len: usize) -> Result<Indices, AllocError>
        ensures numbers { IfOk result (λ n. indices_in n ≡ []) }
        ensures room { IfOk result (λ n. CanPush n len 4294967295) }
    {
        Ok(Indices::Small(Vec::with_capacity(alloc, len)?))
    }

    /// Returns equal numbers. The only error is that memory is refused.
    pub fn copy(&self, alloc: Global) -> Result<Indices, AllocError>
        ensures { IfOk result (λ n. indices_in n ≡ indices_in self.now) }
    {
        match self {
            Indices::Small(numbers) => Ok(Indices::Small(Vec::from_slice(alloc, numbers)?)),
            Indices::Large(numbers) => Ok(Indices::Large(Vec::from_slice(alloc, numbers)?)),
        }
    }

    /// Returns how many numbers there are.
    #[inline(always)]
    pub fn len(&self) -> usize
        ensures length { result ≡ length (indices_in self.now) }
        ensures near { result < 2 ^ 61 }
    {
        match self {
            Indices::Small(numbers) => numbers.as_slice().len(),
            Indices::Large(numbers) => numbers.as_slice().len(),
        }
    }

    /// Returns the number at the index, which is below the length.
    #[inline(always)]
    pub fn at(&self, i: usize) -> usize
        requires { i < length (indices_in self.now) }
        ensures { slice_get (indices_in self.now) i ≡ Some result }
    {
        match self {
            Indices::Small(numbers) => numbers[i] as usize,
            Indices::Large(numbers) => numbers[i],
        }
    }

    /// Returns the number at the index, if there is one.
    pub fn get(&self, at: usize) -> Option<usize>
        ensures { result ≡ slice_get (indices_in self.now) at }
    {
        match self {
            Indices::Small(numbers) => match numbers.get(at) {
                Some(number) => Some(*number as usize),
                None => None,
            },
            Indices::Large(numbers) => numbers.get(at).copied(),
        }
    }

    /// Returns whether each number from the one index up to the other, which is no lower and not past the length, differs from 0.
    pub fn none_is_zero(&self, from: usize, to: usize) -> bool
        requires order { from ≤ to }
        requires within { to ≤ length (indices_in self.now) }
        ensures { result ≡ list_all (λ n. not (n == 0)) (slice_range (indices_in self.now) from to) }
    {
        match self {
            Indices::Small(numbers) => numbers[from..to].iter().all(|n| *n != 0),
            Indices::Large(numbers) => numbers[from..to].iter().all(|n| *n != 0),
        }
    }

    /// Makes room for so many more numbers, none of which is above `most`. The numbers stay, also if memory is refused, which is the
    /// only error.
    pub fn reserve(&mut self, count: usize, most: usize) -> Result<(), AllocError>
        ensures room { OnOk result (CanPush self.new count most) }
        ensures same { indices_in self.new ≡ indices_in self.old }
        ensures succeeds { CanPush self.old count most → IsOk result }
        ensures keeps { (n m : ℕ) → most ≤ m → CanPush self.old n m → CanPush self.new n m }
    {
        let alloc = self.allocator();
        self.widen(alloc, count, most)?;
        self.grow(count)
    }

    /// Adds a number at the end. If memory is refused, which is the only error, the numbers stay as they were. It isn't refused if
    /// [`reserve`](Indices::reserve) has made room.
    pub fn push(&mut self, number: usize) -> Result<(), AllocError>
        ensures ok { OnOk result (indices_in self.new ≡ indices_in self.old ++ number ∷ []) }
        ensures err { OnErr result (indices_in self.new ≡ indices_in self.old) }
        ensures succeeds { (n m : ℕ) → number ≤ m → CanPush self.old (n + 1) m → IsOk result }
        ensures room { (n m : ℕ) → number ≤ m → CanPush self.old (n + 1) m → CanPush self.new n m }
    {
        self.reserve(1, number)?;
        self.push_reserved(number);
        Ok(())
    }

    /// Adds a number at the end, for which there is room.
    pub(crate) fn push_reserved(&mut self, number: usize)
        requires { CanPush self.old 1 number }
        ensures items { indices_in self.new ≡ indices_in self.old ++ number ∷ [] }
        ensures room { (n m : ℕ) → CanPush self.old (n + 1) m → CanPush self.new n m }
    {
        match self {
            Indices::Small(numbers) => numbers.push_reserved(number as u32),
            Indices::Large(numbers) => numbers.push_reserved(number),
        }
    }

    /// Adds so many zeros at the end. If memory is refused, which is the only error, the numbers stay as they were.
    pub fn add_zeros(&mut self, count: usize) -> Result<(), AllocError>
        requires { count < 2 ^ 61 }
        ensures ok { OnOk result (indices_in self.new ≡ indices_in self.old ++ replicate count 0) }
        ensures err { OnErr result (indices_in self.new ≡ indices_in self.old) }
    {
        match self {
            Indices::Small(numbers) => numbers.resize(numbers.len() + count, 0),
            Indices::Large(numbers) => numbers.resize(numbers.len() + count, 0),
        }
    }

    /// Replaces the number at the index, if there is one. If memory is refused, which is the only error, the numbers stay as they
    /// were.
    pub fn set(&mut self, alloc: Global, at: usize, number: usize) -> Result<(), AllocError>
        ensures ok { OnOk result (indices_in self.new ≡ set (indices_in self.old) at number) }
        ensures err { OnErr result (indices_in self.new ≡ indices_in self.old) }
    {
        self.widen(alloc, 0, number)?;
        self.put(at, number);
        Ok(())
    }

    pub(crate) fn allocator(&self) -> Global {
        match self {
            Indices::Small(numbers) => *numbers.allocator(),
            Indices::Large(numbers) => *numbers.allocator(),
        }
    }

    /// Makes the list one that can hold the number, with room for so many more if it couldn't. The numbers stay, also if memory is
    /// refused.
    fn widen(&mut self, alloc: Global, more: usize, number: usize) -> Result<(), AllocError>
        ensures ok { OnOk result (fits_in self.new number ≡ true) }
        ensures same { indices_in self.new ≡ indices_in self.old }
        ensures kept { fits_in self.old number ≡ true → (self.new ≡ self.old) × IsOk result }
    {
        if !self.fits(number) {
            *self = Indices::Large(self.widened(alloc, more)?);
        }
        Ok(())
    }

    /// Makes room for so many more numbers that the list can hold.
    fn grow(&mut self, count: usize) -> Result<(), AllocError>
        ensures room { OnOk result (count_in self.new + count ≤ capacity_in self.new) }
        ensures same { indices_in self.new ≡ indices_in self.old }
        ensures count { count_in self.new ≡ count_in self.old }
        ensures capacity { capacity_in self.old ≤ capacity_in self.new }
        ensures succeeds { count_in self.old + count ≤ capacity_in self.old → IsOk result }
        ensures fits { (n : ℕ) → fits_in self.new n ≡ fits_in self.old n }
    {
        match self {
            Indices::Small(numbers) => numbers.reserve(count),
            Indices::Large(numbers) => numbers.reserve(count),
        }
    }

    fn fits(&self, number: usize) -> bool
        ensures { result ≡ fits_in self.now number }
    {
        match self {
            Indices::Small(_) => number <= u32::MAX as usize,
            Indices::Large(_) => true,
        }
    }

    /// Returns the same numbers with room for larger ones, and for so many more.
    fn widened(&self, alloc: Global, more: usize) -> Result<Vec<usize>, AllocError>
        ensures { IfOk result (λ v. v.items ≡ indices_in self.now) }
    {
        match self {
            Indices::Small(numbers) => {
                let mut wide = Vec::with_capacity(alloc, numbers.len().saturating_add(more))?;
                for number in numbers.as_slice() {
                    wide.push(*number as usize)?;
                }
                Ok(wide)
            }
            Indices::Large(numbers) => Vec::from_slice(alloc, numbers),
        }
    }

    fn put(&mut self, at: usize, number: usize)
        requires { fits_in self.old number ≡ true }
        ensures { indices_in self.new ≡ set (indices_in self.old) at number }
    {
        match self {
            Indices::Small(numbers) => {
                if let Some(place) = numbers.get_mut(at) {
                    *place = number as u32;
                }
            }
            Indices::Large(numbers) => {
                if let Some(place) = numbers.get_mut(at) {
                    *place = number;
                }
            }
        }
    }
}
