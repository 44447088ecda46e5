//! Worked list-append histories: the calls that read and check them.

use crate::histories::source;
use crate::tally::{Tally, again};
use append_check::{Verdict, check};
use append_text::{ReadFault, read_history};
use std::alloc::AllocError;

/// The most transactions that are checked.
const MOST_TRANSACTIONS: usize = 1000;

/// Makes both calls on the history of the texts, before which its answer stands.
pub(crate) fn run(tally: &mut Tally, texts: &str) -> Result<(), &'static str> {
    let (answer, text) = texts.split_once("%\n").ok_or("no history")?;
    let history = again!(
        tally,
        Err(ReadFault::Memory),
        read_history(tally.alloc(), &mut source(text.as_bytes()))
    );
    let history = history.map_err(|_| "a history not read")?;
    if history.transactions.len() > MOST_TRANSACTIONS {
        return Err("a history too long");
    }
    let verdict = again!(
        tally,
        Err(AllocError),
        check(tally.alloc(), history.transactions.as_slice())
    );
    let verdict = verdict.map_err(|_| "no answer at the second try")?;
    if !answer.starts_with(words_of(&verdict)) {
        return Err("another answer");
    }
    Ok(())
}

/// Returns the words with which such an answer begins.
fn words_of(verdict: &Verdict) -> &'static str {
    match verdict {
        Verdict::Serializable(_) => "serializable",
        Verdict::NotSerializable(_) => "not serializable",
        Verdict::AppendedTwice { .. } => "appended twice",
    }
}
