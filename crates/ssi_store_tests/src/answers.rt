//! What a new store makes of one input.

use crate::courses::Pair;
use crate::runs::ended;
use crate::texts::Texts;
use devices::{Source, Watched};
use ssi_line::{End, serve};
use ssi_reads::{IndexMarks, ListMarks, Marks};
use ssi_store::Store;
use ssi_versions::{Chains, KeyChains, PlainChains};
use std::alloc::Global;

/// A store over the fast representations.
pub(crate) type FastStore = Store<KeyChains, IndexMarks>;

/// Makes an empty store.
pub(crate) fn new_store(alloc: Global) -> FastStore {
    Store::new(alloc, KeyChains::new(alloc), IndexMarks::new(alloc))
}

/// What a new store makes of an input.
#[derive(PartialEq, Drop)]
pub(crate) struct Answers {
    pub(crate) end: End,
    pub(crate) replies: Vec<u8>,
    pub(crate) texts: Texts,
}

/// Gives the lines of the input to a new store, and returns what it makes of them; nothing if memory runs out.
pub(crate) fn answers_to<S: Source>(alloc: Global, input: &mut S) -> Option<Answers> {
    answers_of(alloc, new_store(alloc), input)
}

fn answers_of<S: Source, C: Chains + Drop, M: Marks + Drop>(
    alloc: Global,
    mut store: Store<C, M>,
    input: &mut S,
) -> Option<Answers> {
    let mut output = Watched::new(Vec::new(alloc));
    let end = serve(alloc, input, &mut output, &mut store);
    let replies = output.into_inner();
    let texts = ended(alloc, store)?;
    Some(Answers {
        end,
        replies,
        texts,
    })
}

/// Gives the lines to a new store over each pair of representations, and returns what it makes of them; nothing if it
/// isn't the same over all of them, or if memory runs out.
pub(crate) fn answers_over_all(alloc: Global, lines: &[u8]) -> Option<Answers> {
    let answers = answers_over(alloc, Pair::PlainAndList, lines)?;
    for pair in [Pair::PlainAndIndex, Pair::KeysAndList, Pair::KeysAndIndex] {
        if !are_same_over(alloc, pair, lines, &answers) {
            return None;
        }
    }
    Some(answers)
}

fn are_same_over(alloc: Global, pair: Pair, lines: &[u8], answers: &Answers) -> bool {
    match answers_over(alloc, pair, lines) {
        Some(others) => others == *answers,
        None => false,
    }
}

fn answers_over(alloc: Global, pair: Pair, lines: &[u8]) -> Option<Answers> {
    let mut input = Watched::new(lines);
    match pair {
        Pair::PlainAndList => {
            let store = Store::new(alloc, PlainChains::new(alloc), ListMarks::new(alloc));
            answers_of(alloc, store, &mut input)
        }
        Pair::PlainAndIndex => {
            let store = Store::new(alloc, PlainChains::new(alloc), IndexMarks::new(alloc));
            answers_of(alloc, store, &mut input)
        }
        Pair::KeysAndList => {
            let store = Store::new(alloc, KeyChains::new(alloc), ListMarks::new(alloc));
            answers_of(alloc, store, &mut input)
        }
        Pair::KeysAndIndex => answers_of(alloc, new_store(alloc), &mut input),
    }
}
