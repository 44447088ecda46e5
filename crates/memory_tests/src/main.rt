//! Calls of the auditor, of the store and of its layers, and of the check of list-append histories, of which one is
//! refused memory. `scripts/memory.py` writes the
//! tests, refuses one growth after the other, and says how.
//!
//! Standard input holds tests. The first line of a test is a number n, a kind and a name; then come the texts that the
//! kind needs, parted by a line `%`, and after the last one a line `%%`. The texts are those of worked courses and
//! histories. If a run's 2001st allocation fails, a single test has its n-th growth refused; if n is 0, the last growth
//! before the test. A call that is refused memory is made once more, and each call must answer as worked. For each test
//! the program writes a line that says whether all did, and how many were refused memory.
#![tactic(auto)]

mod courses;
mod histories;
mod layers;
mod list_histories;
mod marks;
mod packed;
mod recorder;
mod reply;
mod scripts;
mod tally;
mod tracker;
mod versions;
mod wanted;
mod words;

use crate::courses::Course;
use crate::histories::Worked;
use crate::scripts::Spare;
use crate::tally::Tally;
use std::alloc::{AllocError, Global};
use std::io;
use std::io::{Read, Write};

/// How many allocations are made before the only test if its number is 0.
const BEFORE: u32 = 2001;

/// How many of them are for the input and the room for texts. The others are padding.
const NO_PADDING: u32 = 4;

/// How long the input may be without a second allocation, and how many tests it may hold.
const MOST_INPUT: usize = 65536;

const MOST_TESTS: u32 = 1000;

fn main(rt: HostRuntime) -> io::Result<()> {
    let mut bytes = Vec::with_capacity(rt.alloc(), MOST_INPUT)?;
    rt.stdin().read_to_end(&mut bytes)?;
    let mut tests = str::from_utf8(&bytes).unwrap_or("");
    for _ in 0..MOST_TESTS {
        let Some((test, rest)) = tests.split_once("%%\n") else {
            break;
        };
        write_outcome(&rt, test)?;
        tests = rest;
    }
    Ok(())
}

fn write_outcome(rt: &HostRuntime, test: &str) -> io::Result<()> {
    let (head, texts) = test.split_once("\n").unwrap_or(("", ""));
    let (number, name) = head.split_once(" ").unwrap_or(("", ""));
    let mut out = rt.stdout();
    out.write_all(name.as_bytes())?;
    let spare = Spare::new(rt.alloc())?;
    let n = number.parse().unwrap_or(0);
    if pad(
        rt.alloc(),
        BEFORE.saturating_sub(NO_PADDING).saturating_sub(n),
    )
    .is_err()
    {
        return out.write_all(b": not begun\n");
    }
    let mut tally = Tally::new(rt.alloc());
    let said = said_of(&mut tally, spare, name, texts);
    out.write_all(b": ")?;
    match said {
        Ok(()) => out.write_all(b"as worked")?,
        Err(what) => {
            out.write_all(what.as_bytes())?;
            let line = tally.line();
            print!(rt; " at line {line}")?;
        }
    }
    out.write_all(tally.text().as_bytes())
}

fn pad(alloc: Global, count: u32) -> Result<(), AllocError> {
    for _ in 0..count {
        let _block = Vec::<u32>::with_capacity(alloc, 1)?;
    }
    Ok(())
}

/// Carries out the test. Returns what was not as worked if something wasn't.
fn said_of(tally: &mut Tally, spare: Spare, name: &str, texts: &str) -> Result<(), &'static str> {
    let (kind, _) = name.split_once(" ").unwrap_or((name, ""));
    match kind {
        "script" => scripts::run(tally, spare, &Course::of(texts)?),
        "history" => histories::run(tally, spare, &Worked::of(texts)?),
        "list-history" => list_histories::run(tally, texts),
        _ => said_of_store(tally, kind, texts),
    }
}

fn said_of_store(tally: &mut Tally, kind: &str, texts: &str) -> Result<(), &'static str> {
    match kind {
        "course-over-keys" => courses::over_keys(tally, &Course::of(texts)?),
        "course-over-lists" => courses::over_lists(tally, &Course::of(texts)?),
        "versions" => layers::versions(tally, texts),
        "marks" => layers::marks(tally, texts),
        "packed" => layers::packed(tally, texts),
        "tracker" => layers::tracker(tally, texts),
        "recorder" => layers::recorder(tally, texts),
        _ => Err("no such kind"),
    }
}
