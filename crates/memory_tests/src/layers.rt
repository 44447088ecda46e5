//! The layers of the store, and packed lists, by themselves: each call is a line, and so is its reply.
//!
//! A line is a call, and if the call replies, ` -> ` and the reply. A line that begins with `! ` is carried out only if
//! the call before it was refused memory, and shows that all is as it was; then that call is made again.

use crate::marks::Marked;
use crate::packed::Packed;
use crate::recorder::Recorded;
use crate::reply::{Reply, is_replied, replying};
use crate::tally::Tally;
use crate::tracker::Tracked;
use crate::versions::Versions;
use crate::words::{Fault, Words};
use ssi_reads::{IndexMarks, ListMarks};
use ssi_versions::{KeyChains, PlainChains};

/// A layer whose calls are words.
pub(crate) trait Layer {
    /// Makes the call and writes its reply. If it is refused memory, all is as before.
    fn call(&mut self, words: &mut Words, reply: &mut Reply) -> Result<(), Fault>;
}

/// Tries the chains, and the views of transactions, over both representations.
pub(crate) fn versions(tally: &mut Tally, lines: &str) -> Result<(), &'static str> {
    let alloc = tally.alloc();
    run(tally, Versions::new(alloc, KeyChains::new(alloc))?, lines)?;
    run(tally, Versions::new(alloc, PlainChains::new(alloc))?, lines)
}

/// Tries the marks over both representations.
pub(crate) fn marks(tally: &mut Tally, lines: &str) -> Result<(), &'static str> {
    let alloc = tally.alloc();
    run(tally, Marked(IndexMarks::new(alloc)), lines)?;
    run(tally, Marked(ListMarks::new(alloc)), lines)
}

/// Tries packed orders and final values.
pub(crate) fn packed(tally: &mut Tally, lines: &str) -> Result<(), &'static str> {
    run(tally, Packed::new(tally.alloc()), lines)
}

/// Tries the tracker over both representations of the marks.
pub(crate) fn tracker(tally: &mut Tally, lines: &str) -> Result<(), &'static str> {
    let alloc = tally.alloc();
    run(tally, Tracked::new(alloc, IndexMarks::new(alloc)), lines)?;
    run(tally, Tracked::new(alloc, ListMarks::new(alloc)), lines)
}

/// Tries the recorder.
pub(crate) fn recorder(tally: &mut Tally, lines: &str) -> Result<(), &'static str> {
    run(tally, Recorded::new(tally.alloc()), lines)
}

fn run<L: Layer + Drop>(tally: &mut Tally, mut layer: L, lines: &str) -> Result<(), &'static str> {
    let mut refused = None;
    for line in lines.lines() {
        tally.begin_line();
        if let Some(probe) = line.strip_prefix("! ") {
            if refused.is_some() && !is_answered(&mut layer, probe)? {
                return Err("a second refusal");
            }
            continue;
        }
        make_again(&mut layer, refused)?;
        refused = None;
        if !is_answered(&mut layer, line)? {
            tally.refuse();
            refused = Some(line);
        }
    }
    make_again(&mut layer, refused)
}

fn make_again<L: Layer>(layer: &mut L, refused: Option<&str>) -> Result<(), &'static str> {
    match refused {
        Some(line) if !is_answered(layer, line)? => Err("no memory at the second try"),
        _ => Ok(()),
    }
}

/// Makes the call of the line. Returns whether it replied as wanted, and false if it was refused memory.
fn is_answered<L: Layer>(layer: &mut L, line: &str) -> Result<bool, &'static str> {
    let (call, wanted) = line.split_once(" -> ").unwrap_or((line, ""));
    let mut reply = replying(wanted);
    match layer.call(&mut Words::of(call), &mut reply) {
        Ok(()) if is_replied(reply) => Ok(true),
        Ok(()) => Err("a part of the reply"),
        Err(Fault::Memory) => Ok(false),
        Err(fault) => Err(fault.text()),
    }
}
