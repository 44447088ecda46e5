//! The test cases of the auditor.
//!
//! Each line of standard input is a name. For each the program writes what it finds, and its whole output must be the
//! file `stdout`. Names with a `/` are of folders and files under `data`:
//!
//! - `audit/NAME`: the verdict on a history and a certificate, read as two streams, and if it differs also the verdict
//!   on both as one stream;
//! - `order/NAME`: the certificate, the cycle or the verdict for a history;
//! - `edges/NAME`: the edges of a history;
//! - `examples/NAME`: the verdict and the order, for copies of the repository's examples;
//! - `events/NAME`: a file of lines, each of which is read as an event and written again;
//! - `no_events/NAME`, `no_unfinished/NAME`, `no_orders/NAME`, `no_finals/NAME`, `no_txns/NAME`: files of lines, each of
//!   which is refused as an event, an unfinished transaction, a version order, a final value, a line of a certificate.
//!   The first line of each is empty, and is a case too;
//! - `graphs/NAME`: a file of lines, each with the nodes and the arcs of a graph and its order or its cycle;
//! - `arcs/NAME`: a file of lines, each with arcs and what is left of them without repeats;
//! - `choices/NAME`: a file of histories, each with the certificate or the cycle that is to be found. All were made by
//!   chance, and what is to be found of them was found by `scripts/reference.py`;
//! - `verdicts/NAME`: a file of histories and certificates, each two with their verdict.
//!
//! In the files of the last two kinds a line `%` stands between the parts of a case and a line `%%` after it; a text that
//! is cut short has no line end before that. For each file the program writes how many of its cases are as defined, or
//! the first that isn't. Texts are read whole and in pieces of 1 and of 3 bytes.
//!
//! Any other name is of a module whose cases stand in the code: what public functions do if there is memory, what no
//! contract says, and runs on devices that fail or never end. For each case the program writes whether it is as defined.
//! `scan of 5000 entries` is a history with a long line, read as values and as bytes.
#![tactic(auto)]

mod audits;
mod choices;
mod edge_lists;
mod event_lists;
mod failing_calls;
mod files;
mod given;
mod graphs;
mod index_lists;
mod line_lists;
mod lines;
mod long_scan;
mod orders;
mod runs;
mod saying;
mod sources;
mod streams;
mod texts;
mod values;
mod worked;

use crate::saying::say_cases;
use std::io;
use std::io::Read;

fn main(rt: HostRuntime) -> io::Result<()> {
    let mut bytes = Vec::new(rt.alloc());
    rt.stdin().read_to_end(&mut bytes)?;
    for name in str::from_utf8(&bytes).unwrap_or("").lines() {
        say_of(&rt, name)?;
    }
    Ok(())
}

/// Writes what is found for a name.
fn say_of(rt: &HostRuntime, name: &str) -> io::Result<()> {
    let (folder, _) = name.split_once("/").unwrap_or((name, ""));
    match folder {
        "audit" => worked::say_verdicts(rt, name),
        "order" => worked::say_order(rt, name),
        "edges" => worked::say_edges(rt, name),
        "examples" => worked::say_example(rt, name),
        "values" => say_cases(rt, &values::cases(rt.alloc())),
        "event_lists" => event_lists::say_all(rt),
        "line_lists" => line_lists::say_all(rt),
        "index_lists" => say_cases(rt, &index_lists::cases(rt.alloc())),
        "texts" => say_cases(rt, &texts::cases(rt.alloc())),
        "sources" => say_cases(rt, &sources::cases(rt.alloc())),
        "failing_calls" => say_cases(rt, &failing_calls::cases(rt.alloc())),
        "streams" => say_cases(rt, &streams::cases(rt.alloc())),
        "scan of 5000 entries" => long_scan::say_verdicts(rt, name),
        _ => files::say_count(rt, folder, name),
    }
}
