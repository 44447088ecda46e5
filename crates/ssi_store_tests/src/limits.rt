//! The longest transaction, and the last one.

use crate::courses::over_all;
use crate::runs::After;
use crate::scripts::{Written, in_all_pieces, over_all_pairs};
use crate::texts::are_accepted;
use adya_values::Txn;
use std::alloc::{AllocError, Global};

/// Whether 65,535 operations of one transaction are carried out, no other one is, and it can still commit.
pub(crate) fn longest_transaction(alloc: Global) -> bool {
    are_last_replies(
        alloc,
        1,
        65_535,
        &[
            "get A x",
            "put A x 1",
            "del A x",
            "scan A x x",
            "scan A x x 1",
            "commit A",
        ],
        "! 4 long\n! 4 long\n! 4 long\n! 4 long\n! 4 long\ncommitted\n",
    ) == Some(true)
}

/// Whether each of 65,535 operations that come as lines is answered, and no other one is carried out. Commands that are
/// refused are none of them.
pub(crate) fn longest_script(alloc: Global) -> bool {
    let Ok(script) = longest(alloc) else {
        return false;
    };
    has_longest_replies(alloc, in_all_pieces(alloc, &script))
}

/// The same over each pair of representations.
pub(crate) fn longest_script_over_all_pairs(alloc: Global) -> bool {
    let Ok(script) = longest(alloc) else {
        return false;
    };
    has_longest_replies(alloc, over_all_pairs(alloc, &script))
}

fn has_longest_replies(alloc: Global, made: Option<Written>) -> bool {
    let Ok(replies) = longest_replies(alloc) else {
        return false;
    };
    made.is_some_and(|written| written.replies == replies)
}

fn longest(alloc: Global) -> Result<Vec<u8>, AllocError> {
    repeated(
        alloc,
        b"begin A\nbegin A\nget B x\nscan B m a\nscan A m a\n",
        b"get A x\n",
        b"get A x\nput A x 1\ncommit A\n",
    )
}

fn longest_replies(alloc: Global) -> Result<Vec<u8>, AllocError> {
    repeated(
        alloc,
        b"begun 1\n! 1 busy\n! 2 idle\n! 2 idle\n! 3 range\n",
        b"absent\n",
        b"! 4 long\n! 4 long\ncommitted\n",
    )
}

/// Returns a text with 65,535 times the second part.
fn repeated(alloc: Global, first: &[u8], part: &[u8], last: &[u8]) -> Result<Vec<u8>, AllocError> {
    let mut text = Vec::new(alloc);
    text.extend_from_slice(first)?;
    for _ in 0..65_535 {
        text.extend_from_slice(part)?;
    }
    text.extend_from_slice(last)?;
    Ok(text)
}

/// Whether the transaction of the greatest number is carried out, and no other one is begun.
pub(crate) fn last_transaction(alloc: Global) -> bool {
    are_last_replies(
        alloc,
        4_294_967_295,
        0,
        &["begin A", "begin B", "commit A", "begin A", "stat"],
        "begun 4294967295\n! 1 busy\n! 5 spent\ncommitted\n! 5 spent\nstat open 0 kept 0 versions 0 keys 0\n",
    ) == Some(true)
}

/// Returns the lines of a transaction with so many gets, and then these lines.
fn lines_of<'a>(alloc: Global, gets: u32, last: &[&'a str]) -> Result<Vec<&'a str>, AllocError> {
    let mut lines = Vec::new(alloc);
    lines.push("begin A")?;
    for _ in 0..gets {
        lines.push("get A x")?;
    }
    lines.extend_from_slice(last)?;
    Ok(lines)
}

/// Whether a transaction with this number, so many gets and then these lines get these replies to the lines.
fn are_last_replies(
    alloc: Global,
    first: u64,
    gets: u32,
    last: &[&str],
    wanted: &str,
) -> Option<bool> {
    let lines = lines_of(alloc, gets, last).ok()?;
    let outcome = over_all(alloc, Txn::new(first).ok()?, &lines, After::Nothing)?;
    Some(outcome.replies.ends_with(wanted.as_bytes()) && are_accepted(&outcome.texts))
}
