//! What goes wrong in a history, and its name.

ghost use Rattle.std.specs.Prelude.{◌≡◌};
ghost use Rattle.std.specs.List.{list_any};
ghost use Rattle.lists_verdicts.specs.Meaning.Phenomena as Spec;

use append_check::{Kind, Link, Operation, Outcome, Read, Reason, Transaction};

/// What goes wrong in a history that no order explains.
#[derive(Clone, Copy, Debug, PartialEq, Eq)]
pub enum Phenomenon {
    /// A read doesn't end with what its own transaction appended before it.
    Internal,
    /// A second read of a transaction found something else than its first one.
    Unrepeatable,
    /// A read found an element twice.
    DuplicateElements,
    /// A read found an element that nobody appended.
    Unwritten,
    /// A read found an element of an aborted transaction: G1a.
    AbortedRead,
    /// A read found an element of an aborted transaction before one of a committed one.
    DirtyUpdate,
    /// A read found an element before its own transaction appended it.
    Future,
    /// A read found a part of what a transaction appended: G1b.
    IntermediateRead,
    /// Two transactions left lists of which neither begins with the other.
    IncompatibleOrder,
    /// Two transactions read the same list, and both appended to it.
    LostUpdate,
    /// A cycle of write dependencies: G0.
    WriteCycle,
    /// A cycle of write and read dependencies: G1c.
    InformationCycle,
    /// A cycle with one anti-dependency: G-single.
    SingleAntiDependency,
    /// A cycle with more anti-dependencies than one: G2-item, since a read names one key and no predicate.
    AntiDependencies,
}

impl Phenomenon {
    /// Returns what the reason for which no order explains the history is an instance of. A cycle's links decide: those
    /// of Adya (1999, sections 3.1 and 4.2).
    pub fn of(transactions: &[Transaction], reason: &Reason) -> Phenomenon
        ensures { result ≡ Spec.phenomenon_of transactions.now reason.now }
    {
        match reason {
            Reason::Internal(_) => Phenomenon::Internal,
            Reason::Unrepeatable(_, _) => Phenomenon::Unrepeatable,
            Reason::Twice(_, _) => Phenomenon::DuplicateElements,
            Reason::Unwritten(read, element) => of_unwritten(transactions, *read, *element),
            Reason::DirtyUpdate(_, _, _) => Phenomenon::DirtyUpdate,
            Reason::Future(_, _) => Phenomenon::Future,
            Reason::Intermediate(_, _) => Phenomenon::IntermediateRead,
            Reason::Incompatible(one, other) => of_incompatible(transactions, *one, *other),
            Reason::Cycle(links) => of_cycle(links.as_slice()),
        }
    }

    /// Returns the name: that of Adya or of Elle if it has one there.
    pub fn name(self) -> &'static str
        ensures { result.now ≡ Spec.name_of self }
    {
        match self {
            Phenomenon::Internal => "internal",
            Phenomenon::Unrepeatable => "unrepeatable",
            Phenomenon::DuplicateElements => "duplicate elements",
            Phenomenon::Unwritten => "unwritten",
            Phenomenon::AbortedRead => "G1a",
            Phenomenon::DirtyUpdate => "dirty update",
            Phenomenon::Future => "future",
            Phenomenon::IntermediateRead => "G1b",
            Phenomenon::IncompatibleOrder => "incompatible order",
            Phenomenon::LostUpdate => "lost update",
            Phenomenon::WriteCycle => "G0",
            Phenomenon::InformationCycle => "G1c",
            Phenomenon::SingleAntiDependency => "G-single",
            Phenomenon::AntiDependencies => "G2-item",
        }
    }

    /// Returns what one instance is called. More of them get an `s` at the end.
    pub fn noun(self) -> &'static str
        ensures { result.now ≡ Spec.noun_of self }
    {
        match self {
            Phenomenon::Internal => "internal read",
            Phenomenon::Unrepeatable => "unrepeatable read",
            Phenomenon::DuplicateElements => "duplicate read",
            Phenomenon::Unwritten => "unwritten read",
            Phenomenon::AbortedRead => "aborted read",
            Phenomenon::DirtyUpdate => "dirty update",
            Phenomenon::Future => "future read",
            Phenomenon::IntermediateRead => "intermediate read",
            Phenomenon::IncompatibleOrder => "incompatible order",
            Phenomenon::LostUpdate => "lost update",
            Phenomenon::WriteCycle => "write cycle",
            Phenomenon::InformationCycle => "circular information flow",
            Phenomenon::SingleAntiDependency => "single anti-dependency cycle",
            Phenomenon::AntiDependencies => "anti-dependency cycle",
        }
    }
}

fn of_incompatible(transactions: &[Transaction], one: Read, other: Read) -> Phenomenon
    ensures { result ≡ Spec.of_incompatible transactions.now one other }
{
    if elements_read(transactions, one) == elements_read(transactions, other) {
        Phenomenon::LostUpdate
    } else {
        Phenomenon::IncompatibleOrder
    }
}

/// Returns what the read returned: nothing, if there is none at this place.
fn elements_read(transactions: &[Transaction], read: Read) -> &[u64]
    ensures { result.now ≡ Spec.elements_read transactions.entry.now read }
{
    let Some(transaction) = transactions.get(read.transaction as usize) else {
        return &[];
    };
    match transaction.operations.get(read.step) {
        Some(Operation::Read { elements, .. }) => elements.as_slice(),
        _ => &[],
    }
}

fn of_unwritten(transactions: &[Transaction], read: Read, element: u64) -> Phenomenon
    ensures { result ≡ Spec.of_unwritten transactions.now read element }
{
    let Some(key) = key_read(transactions, read) else {
        return Phenomenon::Unwritten;
    };
    if is_aborted_append(transactions, key, element) {
        Phenomenon::AbortedRead
    } else {
        Phenomenon::Unwritten
    }
}

/// Returns the key of the read.
fn key_read(transactions: &[Transaction], read: Read) -> Option<u64>
    ensures { result ≡ Spec.key_read transactions.now read }
{
    let transaction = transactions.get(read.transaction as usize)?;
    let operation = transaction.operations.get(read.step)?;
    match operation {
        Operation::Read { key, .. } => Some(*key),
        Operation::Append { .. } | Operation::LostRead { .. } => None,
    }
}

/// Returns whether an aborted transaction appends the element to the list of the key.
fn is_aborted_append(transactions: &[Transaction], key: u64, element: u64) -> bool
    ensures { result ≡ list_any (Spec.is_aborted_append key element) transactions.now }
{
    transactions
        .iter()
        .any(|transaction| appends_in_vain(transaction, key, element))
}

/// Returns whether the transaction aborted, and appends the element to the list of the key.
pub fn appends_in_vain(transaction: &Transaction, key: u64, element: u64) -> bool
    ensures { result ≡ Spec.is_aborted_append key element transaction.now }
{
    is_aborted(transaction.outcome) && is_appended(transaction.operations.as_slice(), key, element)
}

fn is_aborted(outcome: Outcome) -> bool
    ensures { result ≡ Spec.is_aborted outcome }
{
    match outcome {
        Outcome::Aborted => true,
        Outcome::Committed | Outcome::Unknown => false,
    }
}

fn is_appended(operations: &[Operation], key: u64, element: u64) -> bool
    ensures { result ≡ list_any (Spec.appends key element) operations.now }
{
    operations
        .iter()
        .any(|operation| appends(operation, key, element))
}

/// Returns whether the step appends the element to the list of the key.
pub fn appends(operation: &Operation, key: u64, element: u64) -> bool
    ensures { result ≡ Spec.appends key element operation.now }
{
    match operation {
        Operation::Append {
            key: to,
            element: x,
        } => *to == key && *x == element,
        Operation::Read { .. } | Operation::LostRead { .. } => false,
    }
}

fn of_cycle(links: &[Link]) -> Phenomenon
    ensures { result ≡ Spec.of_cycle links.now }
{
    let anti = links.iter().filter(|link| is_anti(link)).count();
    let reads = links.iter().filter(|link| is_read(link)).count();
    match (anti, reads) {
        (0, 0) => Phenomenon::WriteCycle,
        (0, _) => Phenomenon::InformationCycle,
        (1, _) => Phenomenon::SingleAntiDependency,
        _ => Phenomenon::AntiDependencies,
    }
}

fn is_anti(link: &Link) -> bool
    ensures { result ≡ Spec.is_anti link.now }
{
    match link.kind {
        Kind::ReadWrite(_) => true,
        Kind::WriteRead(_) | Kind::WriteWrite(_) => false,
    }
}

fn is_read(link: &Link) -> bool
    ensures { result ≡ Spec.is_read link.now }
{
    match link.kind {
        Kind::WriteRead(_) => true,
        Kind::ReadWrite(_) | Kind::WriteWrite(_) => false,
    }
}

/// Returns the name of a link by its kind: `ww` from a writer to the next one, `wr` from a writer to a reader, `rw` from
/// a reader to a later writer.
pub fn name_of_link(link: &Link) -> &'static str
    ensures { result.now ≡ Spec.name_of_kind link.now.kind }
{
    match link.kind {
        Kind::WriteWrite(_) => "ww",
        Kind::WriteRead(_) => "wr",
        Kind::ReadWrite(_) => "rw",
    }
}
