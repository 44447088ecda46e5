//! What the auditor makes of the worked histories, each a folder with its texts.

use crate::saying::say;
use crate::{audits, edge_lists, orders, texts};
use std::{fs, io};

/// Returns the bytes of a file of the worked history.
fn file(rt: &HostRuntime, name: &str, file: &str) -> io::Result<Vec<u8>> {
    fs::read(rt, format!(in rt.alloc(); "{name}/{file}")?)
}

/// Returns the text if the bytes are one; nothing otherwise.
fn text(bytes: &[u8]) -> &str {
    str::from_utf8(bytes).unwrap_or("")
}

/// Writes the verdicts, after the name.
pub(crate) fn say_verdicts(rt: &HostRuntime, name: &str) -> io::Result<()> {
    let history = file(rt, name, "history")?;
    let certificate = file(rt, name, "certificate")?;
    say_verdicts_on(rt, name, &history, &certificate)
}

fn say_verdicts_on(
    rt: &HostRuntime,
    name: &str,
    history: &[u8],
    certificate: &[u8],
) -> io::Result<()> {
    if !texts::are_read_alike(rt.alloc(), history, certificate) {
        return say(rt, &[name, ": in pieces the texts are read otherwise\n"]);
    }
    let of_two = audits::of_two_streams(rt.alloc(), history, certificate);
    let of_one = audits::of_one_stream(rt.alloc(), history, certificate);
    say(rt, &[name, ": ", text(&of_two)])?;
    if of_one == of_two {
        return Ok(());
    }
    say(rt, &[name, " in one stream: ", text(&of_one)])
}

/// Writes the certificate, the cycle or the verdict, after the name.
pub(crate) fn say_order(rt: &HostRuntime, name: &str) -> io::Result<()> {
    let history = file(rt, name, "history")?;
    let lines = orders::of_text(rt.alloc(), &history);
    say(rt, &[name, ":\n", text(&lines)])
}

/// Writes the edges, after the name.
pub(crate) fn say_edges(rt: &HostRuntime, name: &str) -> io::Result<()> {
    let history = file(rt, name, "history")?;
    let lines = edge_lists::of_text(rt.alloc(), &history);
    say(rt, &[name, ":\n", text(&lines)])
}

/// Writes the verdicts and the certificate, the cycle or the verdict, each after the name.
pub(crate) fn say_example(rt: &HostRuntime, name: &str) -> io::Result<()> {
    say_verdicts(rt, name)?;
    say_order(rt, name)
}
