//! Many transactions at once.

use crate::courses::{Pair, over};
use crate::runs::After;
use crate::texts::are_accepted;
use crate::worked::lines_of;
use adya_values::Txn;
use std::alloc::{AllocError, Global};

/// How many transactions are open at the same time.
const SESSIONS: u32 = 500;

/// The cases, and what each runs over.
pub(crate) const PAIRS: [(&str, Pair); 4] = [
    (
        "many_sessions_over_key_chains_and_index_marks",
        Pair::KeysAndIndex,
    ),
    (
        "many_sessions_over_key_chains_and_list_marks",
        Pair::KeysAndList,
    ),
    (
        "many_sessions_over_plain_chains_and_index_marks",
        Pair::PlainAndIndex,
    ),
    (
        "many_sessions_over_plain_chains_and_list_marks",
        Pair::PlainAndList,
    ),
];

/// Whether transactions that are begun one after the other, each of which writes and reads a key of its own, can all
/// commit.
pub(crate) fn are_answered(alloc: Global, pair: Pair) -> Option<bool> {
    let commands = commands(alloc).ok()?;
    let lines = lines_of(alloc, &commands).ok()?;
    let outcome = over(alloc, pair, Txn::new(1).ok()?, &lines, After::Nothing)?;
    let wanted = replies(alloc).ok()?;
    Some(outcome.replies.as_slice() == wanted.as_bytes() && are_accepted(&outcome.texts))
}

fn commands(alloc: Global) -> Result<String, AllocError> {
    let mut text = of_each(alloc, "begin S#\nput S# k# #\nget S# k#\n")?;
    text.push_str(&of_each(alloc, "commit S#\n")?)?;
    Ok(text)
}

fn replies(alloc: Global) -> Result<String, AllocError> {
    let mut text = of_each(alloc, "begun #\ndone\nvalue #\n")?;
    text.push_str(&of_each(alloc, "committed\n")?)?;
    Ok(text)
}

/// Returns the lines for each transaction in turn, with its number in place of each `#`.
fn of_each(alloc: Global, lines: &str) -> Result<String, AllocError> {
    let mut text = String::new(alloc);
    for number in 1..=SESSIONS {
        let number = number.to_string(alloc)?;
        text.push_str(&lines.replace(alloc, '#', &number)?)?;
    }
    Ok(text)
}
