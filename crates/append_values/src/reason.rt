//! Why no order explains a history.

/// A read: the place of its transaction in the history, and its place among the steps of the transaction, both from 0.
#[derive(Clone, Copy, Debug, PartialEq, Eq)]
pub struct Read {
    /// The place of the transaction in the history.
    pub transaction: u32,
    /// The place of the read among the steps of the transaction.
    pub step: usize,
}

/// Why one transaction has to come before another: its kind of dependency (Adya 1999, section 3.1), and the read that
/// shows it.
#[derive(Clone, Copy, Debug, PartialEq, Eq)]
pub enum Kind {
    /// The second one read an element of the first one, by this read: a read dependency.
    WriteRead(Read),
    /// The first one read a list that lacks an element of the second one, by this read: an anti-dependency.
    ReadWrite(Read),
    /// A part of what this read returned, from its beginning on, has an element of the first one and lacks one of the
    /// second one: a write dependency.
    WriteWrite(Read),
}

/// A transaction that has to come before another. Both are places in the history.
#[derive(Clone, Copy, Debug, PartialEq, Eq)]
pub struct Link {
    /// The one that has to come first.
    pub from: u32,
    /// The one that has to come later.
    pub to: u32,
    /// Why.
    pub kind: Kind,
}

/// Why no order explains a history. The reads are those of committed transactions.
#[derive(Drop)]
pub enum Reason {
    /// The read doesn't end with what its own transaction appended before it.
    Internal(Read),
    /// The second read of a transaction returned something else than the first, with what it appended in between.
    Unrepeatable(Read, Read),
    /// The read returned the element twice.
    Twice(Read, u64),
    /// The read returned an element that nobody appended, or only aborted transactions: an aborted read (G1a).
    Unwritten(Read, u64),
    /// The read returned the first element, which only aborted transactions appended, and later the second one, which a
    /// committed transaction appended: the committed one built on the aborted one (a dirty update).
    DirtyUpdate(Read, u64, u64),
    /// The read returned an element that its own transaction appended only afterwards.
    Future(Read, u64),
    /// The read returned an element of this transaction, which didn't abort, and not all that this one appended, side by
    /// side: an intermediate read (G1b).
    Intermediate(Read, u32),
    /// The transactions of these reads, which differ, left lists of which neither begins with the other.
    Incompatible(Read, Read),
    /// Each of these has to come before the next one, and the last before the first. Each is there once, and none of them
    /// aborted.
    Cycle(Vec<Link>),
}

/// A reason, and how many of its kind were found in the history.
#[derive(Drop)]
pub struct Counted {
    /// One of them.
    pub reason: Reason,
    /// How many there are.
    pub times: u64,
}
