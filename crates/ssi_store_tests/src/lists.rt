//! Courses out of a file.

use crate::courses::over_all;
use crate::runs::{After, Outcome};
use adya_values::Txn;
use std::alloc::Global;
use std::io::Write;
use std::{fs, io};

/// Writes what each course of the file makes.
pub(crate) fn write_outcomes(rt: &HostRuntime, path: &str) -> io::Result<()> {
    let bytes = fs::read(rt, path)?;
    let text = str::from_utf8(&bytes).unwrap_or("");
    let mut lines = Vec::new(rt.alloc());
    for line in text.lines() {
        if line == "end" {
            write_outcome(rt, of_list(rt.alloc(), &lines))?;
            lines.clear();
        } else {
            lines.push(line)?;
        }
    }
    Ok(())
}

fn of_list(alloc: Global, lines: &[&str]) -> Option<Outcome> {
    over_all(alloc, Txn::new(1).ok()?, lines, After::Nothing)
}

fn write_outcome(rt: &HostRuntime, outcome: Option<Outcome>) -> io::Result<()> {
    let mut out = rt.stdout();
    match outcome {
        Some(outcome) => {
            out.write_all(&outcome.replies)?;
            out.write_all(&outcome.texts.history)?;
            out.write_all(&outcome.texts.certificate)?;
            out.write_all(&outcome.texts.verdict)?;
        }
        None => out.write_all(b"differ\n")?,
    }
    out.write_all(b"end of list\n")
}
