//! Reads and writes over marks: each transaction marks four keys and a range, and asks for the readers of two keys.

use crate::work::{Done, Work, key_of, txn_of};
use ssi_reads::Marks;

const OPEN_AT_ONCE: u64 = 8;

/// Marks what each transaction reads, asks for the readers of what it writes, and forgets a transaction after eight
/// others; none if one stays open over all of them.
pub(crate) fn run<M: Marks>(marks: &mut M, work: &Work) -> Option<Done> {
    let mut met = 0u64;
    for number in 1..work.transactions as u64 + 1 {
        mark(marks, work, number)?;
        met = met.wrapping_add(count(marks, work, number)?);
        if !work.is_open && number > OPEN_AT_ONCE {
            marks.forget(txn_of(number - OPEN_AT_ONCE)?);
        }
    }
    Some(Done { held: 0, met })
}

fn mark<M: Marks>(marks: &mut M, work: &Work, number: u64) -> Option<()> {
    let txn = txn_of(number)?;
    let first = number.wrapping_mul(8);
    for nth in 0..4u64 {
        let key = key_of(work.chosen(first.wrapping_add(nth)))?;
        marks.mark_key(txn, key).ok()?;
    }
    let low = work.chosen(first.wrapping_add(4));
    marks
        .mark_range(txn, key_of(low)?, key_of(work.range_end(low))?)
        .ok()
}

fn count<M: Marks>(marks: &M, work: &Work, number: u64) -> Option<u64> {
    let mut readers = 0u64;
    for nth in 5..7u64 {
        let key = key_of(work.chosen(number.wrapping_mul(8).wrapping_add(nth)))?;
        readers = readers.wrapping_add(marks.readers_of(key).ok()?.len() as u64);
    }
    Some(readers)
}
