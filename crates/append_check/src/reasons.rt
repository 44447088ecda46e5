//! Whether a reason against all orders is there.

ghost use Rattle.std.specs.Prelude.{◌≡◌, ◌≢◌, ◌<◌, ◌≤◌, ◌==◌, ◌∷◌, ◌++◌, ℕ, List, [], true, false, Some, length, map, count_by, slice_get, Contains, IfOk, IfSome};
ghost use Rattle.append_values.specs.declared.transaction.Outcome.TheVariants.{Aborted};
ghost use Rattle.append_values.specs.declared.reason.Reason.TheVariants.{Internal, Unrepeatable, Twice, Unwritten, DirtyUpdate, Future, Intermediate, Incompatible};
ghost use Rattle.append_values.specs.declared.reason.Kind.TheVariants.{WriteRead, ReadWrite, WriteWrite};
ghost use Rattle.append_values.specs.Meaning.Histories.{operation_of, transaction_of, outcome};
ghost use Rattle.append_values.specs.Meaning.Reads.{appended, own};
ghost use Rattle.append_values.specs.Meaning.Reasons.{IsDue, IsRound, IsSimple, AreKept, Holds};
ghost use Rattle.append_check.specs.Meaning.Verdicts.{history_of};
ghost use Rattle.append_check.specs.Machinery.Precedences.{IsNoWriteRead, IsNoReadWrite, IsNoWriteWrite};

use crate::arcs::is_aborted;
use crate::pieces::{
    begins_with, ends_with, first_of, has, has_block, lacks, meet, same, stands_before, times,
};
use crate::replay::listed;
use crate::seen::{Seen, look_at, own};
use crate::writers::{aborted_writer, committed_writer, writer_of};
use append_values::{Kind, Link, Operation, Outcome, Read, Reason, Transaction, appended};
use std::alloc::{AllocError, Global};

/// Returns true if the reason is there.
pub(crate) fn holds(
    alloc: Global,
    transactions: &[Transaction],
    reason: &Reason,
) -> Result<bool, AllocError>
    ensures { IfOk result (λ b. b ≡ true → Holds (history_of transactions.now) reason.now) }
{
    match reason {
        Reason::Internal(read) => internal(alloc, transactions, *read),
        Reason::Unrepeatable(first, second) => unrepeatable(alloc, transactions, *first, *second),
        Reason::Twice(read, element) => Ok(twice(transactions, *read, *element)),
        Reason::Unwritten(read, element) => Ok(unwritten(transactions, *read, *element)),
        Reason::DirtyUpdate(read, aborted, element) => {
            Ok(dirty_update(transactions, *read, *aborted, *element))
        }
        Reason::Future(read, element) => future(alloc, transactions, *read, *element),
        Reason::Intermediate(read, writer) => intermediate(alloc, transactions, *read, *writer),
        Reason::Incompatible(one, other) => incompatible(alloc, transactions, *one, *other),
        Reason::Cycle(links) => cycle(alloc, transactions, links.as_slice()),
    }
}

fn internal(alloc: Global, transactions: &[Transaction], read: Read) -> Result<bool, AllocError>
    ensures { IfOk result (λ b. b ≡ true → Holds (history_of transactions.now) (Internal read)) }
{
    let Some(seen) = look_at(transactions, read) else {
        return Ok(false);
    };
    let own = appended(alloc, seen.key, seen.before)?;
    let ends = ends_with(seen.elements, own.as_slice());
    Ok(!ends)
}

fn unrepeatable(
    alloc: Global,
    transactions: &[Transaction],
    first: Read,
    second: Read,
) -> Result<bool, AllocError>
    ensures { IfOk result (λ b. b ≡ true → Holds (history_of transactions.now) (Unrepeatable first second)) }
{
    let Some(one) = look_at(transactions, first) else {
        return Ok(false);
    };
    let Some(other) = look_at(transactions, second) else {
        return Ok(false);
    };
    if first.transaction != second.transaction || one.key != other.key {
        return Ok(false);
    }
    if other.before.len() <= first.step {
        return Ok(false);
    }
    let (_, rest) = other.before.split_at(first.step);
    let Some((_, between)) = rest.split_first() else {
        return Ok(false);
    };
    let appended = appended(alloc, one.key, between)?;
    let mut wanted = Vec::from_slice(alloc, one.elements)?;
    wanted.extend_from_slice(appended.as_slice())?;
    let unchanged = same(wanted.as_slice(), other.elements);
    Ok(!unchanged)
}

fn twice(transactions: &[Transaction], read: Read, element: u64) -> bool
    ensures { result ≡ true → Holds (history_of transactions.now) (Twice read element) }
{
    let Some(seen) = look_at(transactions, read) else {
        return false;
    };
    let often = times(seen.elements, element);
    often > 1
}

fn unwritten(transactions: &[Transaction], read: Read, element: u64) -> bool
    ensures { result ≡ true → Holds (history_of transactions.now) (Unwritten read element) }
{
    let Some(seen) = look_at(transactions, read) else {
        return false;
    };
    if !has(seen.elements, element) {
        return false;
    }
    nobody_appends(transactions, seen.key, element)
}

/// Returns true if no transaction appends the element to the list of the key but aborted ones.
fn nobody_appends(transactions: &[Transaction], key: u64, element: u64) -> bool
    ensures { let h = history_of transactions.now in
        result ≡ true → (u : ℕ) → Contains (own h key u) element → ⊥ }
{
    match writer_of(transactions, key, element) {
        Some(_) => false,
        None => true,
    }
}

fn dirty_update(transactions: &[Transaction], read: Read, aborted: u64, element: u64) -> bool
    ensures { result ≡ true → Holds (history_of transactions.now) (DirtyUpdate read aborted element) }
{
    let Some(seen) = look_at(transactions, read) else {
        return false;
    };
    if !stands_before(seen.elements, aborted, element) {
        return false;
    }
    if !nobody_appends(transactions, seen.key, aborted) {
        return false;
    }
    let Some(_) = aborted_writer(transactions, seen.key, aborted) else {
        return false;
    };
    match committed_writer(transactions, seen.key, element) {
        Some(_) => true,
        None => false,
    }
}

fn future(
    alloc: Global,
    transactions: &[Transaction],
    read: Read,
    element: u64,
) -> Result<bool, AllocError>
    ensures { IfOk result (λ b. b ≡ true → Holds (history_of transactions.now) (Future read element)) }
{
    let Some(seen) = look_at(transactions, read) else {
        return Ok(false);
    };
    if !has(seen.elements, element) {
        return Ok(false);
    }
    let later_ones = appended(alloc, seen.key, seen.after)?;
    let is_later = has(later_ones.as_slice(), element);
    Ok(is_later)
}

fn intermediate(
    alloc: Global,
    transactions: &[Transaction],
    read: Read,
    writer: u32,
) -> Result<bool, AllocError>
    ensures { IfOk result (λ b. b ≡ true → Holds (history_of transactions.now) (Intermediate read writer)) }
{
    let Some(seen) = look_at(transactions, read) else {
        return Ok(false);
    };
    if writer == read.transaction {
        return Ok(false);
    }
    let block = own(alloc, transactions, seen.key, writer)?;
    let block = block.as_slice();
    if !meet(seen.elements, block) {
        return Ok(false);
    }
    let whole = has_block(seen.elements, block);
    Ok(!whole)
}

fn incompatible(
    alloc: Global,
    transactions: &[Transaction],
    one: Read,
    other: Read,
) -> Result<bool, AllocError>
    ensures { IfOk result (λ b. b ≡ true → Holds (history_of transactions.now) (Incompatible one other)) }
{
    let Some(first) = look_at(transactions, one) else {
        return Ok(false);
    };
    let Some(second) = look_at(transactions, other) else {
        return Ok(false);
    };
    if first.key != second.key || one.transaction == other.transaction {
        return Ok(false);
    }
    let mine = left(alloc, &first)?;
    let theirs = left(alloc, &second)?;
    let mine = mine.as_slice();
    let theirs = theirs.as_slice();
    if begins_with(mine, theirs) {
        return Ok(false);
    }
    let begins = begins_with(theirs, mine);
    Ok(!begins)
}

/// Returns what the transaction left in the list.
fn left(alloc: Global, seen: &Seen<'_>) -> Result<Vec<u64>, AllocError>
    ensures { IfOk result (λ v. v.items ≡ seen.now.elements.now ++ appended seen.now.key (map operation_of seen.now.after.now)) }
{
    let mut left = Vec::from_slice(alloc, seen.elements)?;
    let later = appended(alloc, seen.key, seen.after)?;
    left.extend_from_slice(later.as_slice())?;
    Ok(left)
}

fn cycle(alloc: Global, transactions: &[Transaction], links: &[Link]) -> Result<bool, AllocError>
    ensures { let h = history_of transactions.now in
        IfOk result (λ b. b ≡ true → IsRound h links.now × IsSimple links.now × AreKept h links.now) }
{
    let closes = closes(alloc, transactions, links)?;
    if !closes {
        return Ok(false);
    }
    let simple = is_simple(alloc, transactions, links)?;
    Ok(simple)
}

/// Returns true if there is a link, each one is due, and each leaves the transaction that the one before enters, the first
/// one the transaction that the last enters.
fn closes(alloc: Global, transactions: &[Transaction], links: &[Link]) -> Result<bool, AllocError>
    ensures { IfOk result (λ b. b ≡ true → IsRound (history_of transactions.now) links.now) }
{
    let Some((first, _)) = links.split_first() else {
        return Ok(false);
    };
    let mut at = first.from;
    'links: for link in links {
        if link.from != at {
            return Ok(false);
        }
        let due = is_due(alloc, transactions, link)?;
        if !due {
            return Ok(false);
        }
        at = link.to;
    }
    Ok(at == first.from)
}

/// Returns true if each transaction begins one of the links at most, and no aborted one does.
fn is_simple(
    alloc: Global,
    transactions: &[Transaction],
    links: &[Link],
) -> Result<bool, AllocError>
    ensures { IfOk result (λ b. b ≡ true → IsSimple links.now × AreKept (history_of transactions.now) links.now) }
{
    let starts = starts(alloc, links)?;
    let starts = starts.as_slice();
    if one_aborted(transactions, starts) {
        return Ok(false);
    }
    let listed = listed(alloc, transactions.len(), starts)?;
    match listed {
        Some(_) => Ok(true),
        None => Ok(false),
    }
}

/// Returns the transactions that begin the links.
fn starts(alloc: Global, links: &[Link]) -> Result<Vec<u32>, AllocError>
    ensures { IfOk result (λ v. v.items ≡ map (λ link. link.from) links.now) }
{
    let mut starts = Vec::new(alloc);
    'links: for link in links {
        starts.push(link.from)?;
    }
    Ok(starts)
}

/// Returns whether one of the transactions aborted.
fn one_aborted(transactions: &[Transaction], places: &[u32]) -> bool
    ensures { let h = history_of transactions.now in
        result ≡ false → (t : ℕ) → Contains places.now t → outcome h t ≡ Aborted → ⊥ }
{
    'places: for place in places {
        if is_aborted(transactions, *place) {
            return true;
        }
    }
    false
}

/// Returns true if the link's first transaction has to come before its second one, as its kind says.
fn is_due(alloc: Global, transactions: &[Transaction], link: &Link) -> Result<bool, AllocError>
    ensures { IfOk result (λ b. b ≡ true → IsDue (history_of transactions.now) link.now.from link.now.to link.now.kind) }
{
    if link.from == link.to {
        return Ok(false);
    }
    match link.kind {
        Kind::WriteRead(read) => write_read(alloc, transactions, link.from, link.to, read),
        Kind::ReadWrite(read) => read_write(alloc, transactions, link.from, link.to, read),
        Kind::WriteWrite(read) => write_write(alloc, transactions, link.from, link.to, read),
    }
}

/// Returns true if the second transaction read an element of the first one, by this read.
pub(crate) fn write_read(
    alloc: Global,
    transactions: &[Transaction],
    from: u32,
    to: u32,
    read: Read,
) -> Result<bool, AllocError>
    ensures yes { IfOk result (λ b. b ≡ true → from ≢ to → IsDue (history_of transactions.now) from to (WriteRead read)) }
    ensures no { IfOk result (λ b. b ≡ false → IsNoWriteRead (history_of transactions.now) from to read) }
{
    let Some(seen) = look_at(transactions, read) else {
        return Ok(false);
    };
    let block = own(alloc, transactions, seen.key, from)?;
    if read.transaction != to {
        return Ok(false);
    }
    let shows = meet(seen.elements, block.as_slice());
    Ok(shows)
}

/// Returns true if the first transaction read a list that lacks an element of the second one, by this read.
pub(crate) fn read_write(
    alloc: Global,
    transactions: &[Transaction],
    from: u32,
    to: u32,
    read: Read,
) -> Result<bool, AllocError>
    ensures yes { IfOk result (λ b. b ≡ true → from ≢ to → IsDue (history_of transactions.now) from to (ReadWrite read)) }
    ensures no { IfOk result (λ b. b ≡ false → IsNoReadWrite (history_of transactions.now) from to read) }
{
    let Some(seen) = look_at(transactions, read) else {
        return Ok(false);
    };
    let block = own(alloc, transactions, seen.key, to)?;
    if read.transaction != from {
        return Ok(false);
    }
    let shows = lacks(seen.elements, block.as_slice());
    Ok(shows)
}

/// Returns true if this read returned an element of the first transaction, and none of the second one before it.
pub(crate) fn write_write(
    alloc: Global,
    transactions: &[Transaction],
    from: u32,
    to: u32,
    read: Read,
) -> Result<bool, AllocError>
    ensures yes { IfOk result (λ b. b ≡ true → from ≢ to → IsDue (history_of transactions.now) from to (WriteWrite read)) }
    ensures no { IfOk result (λ b. b ≡ false → IsNoWriteWrite (history_of transactions.now) from to read) }
{
    let Some(seen) = look_at(transactions, read) else {
        return Ok(false);
    };
    let sooner = own(alloc, transactions, seen.key, from)?;
    let later = own(alloc, transactions, seen.key, to)?;
    let Some(at) = first_of(seen.elements, sooner.as_slice()) else {
        return Ok(false);
    };
    let part = &seen.elements[..at + 1];
    let shows = lacks(part, later.as_slice());
    Ok(shows)
}
