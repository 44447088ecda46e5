//! A hub over one store, tried call by call.
//!
//! Each line of the file is a call. `/` stands for a line feed, in what is sent and in what is to be written. A line that
//! begins with `#` says what comes next. The answers that are wanted of the first calls were worked by hand; those after
//! the first `new` were made by chance, and their answers by scripts/hub_reference.py. The calls are these:
//!
//! - `new`: begins anew, with a hub and a store of their own
//! - `open`: opens a connection; the answer is its token
//! - `send T TEXT`: connection T sends the text
//! - `fill T N`: it sends N bytes `x`
//! - `many T N`: it sends N times the line `x`, which is no command
//! - `next T`: the answer is the first of its lines that wait
//! - `run T N`: up to N of its lines are carried out
//! - `show T`: the answer is what is to be written to it
//! - `count T`: the answer is how many bytes these are
//! - `wrote T N`: N bytes were written to it
//! - `close T`: it is gone
//! - `wants T`: the answer is whether it is to be read from, run and written to, and whether the hub is stopped; or `gone`

use crate::worked::text;
use ssi_hub::Hub;
use ssi_reads::IndexMarks;
use ssi_store::Store;
use ssi_versions::KeyChains;
use std::alloc::{AllocError, Global};
use std::{fs, io};

/// Writes the calls of the file again, each with its answer.
pub(crate) fn write_answers(rt: &HostRuntime, path: &str) -> io::Result<()> {
    let bytes = fs::read(rt, path)?;
    let mut tried = Tried::new(rt.alloc());
    for call in text(&bytes).lines() {
        let answer = tried.answer(rt.alloc(), call)?;
        print!(rt; "{call}{answer}\n")?;
    }
    Ok(())
}

/// A hub, and the store that it uses.
#[derive(Drop)]
struct Tried {
    hub: Hub,
    store: Store<KeyChains, IndexMarks>,
}

impl Tried {
    fn new(alloc: Global) -> Tried {
        Tried {
            hub: Hub::new(alloc),
            store: Store::new(alloc, KeyChains::new(alloc), IndexMarks::new(alloc)),
        }
    }

    /// Returns what is written behind the line.
    fn answer(&mut self, alloc: Global, line: &str) -> Result<String, AllocError> {
        let (name, rest) = line.split_once(" ").unwrap_or((line, ""));
        let (token, rest) = rest.split_once(" ").unwrap_or((rest, ""));
        let token = token.parse::<u64>().unwrap_or(u64::MAX);
        match name {
            "new" => {
                *self = Tried::new(alloc);
                Ok(String::new(alloc))
            }
            "open" => {
                let token = self.hub.opened(alloc)?;
                format!(in alloc; ": {token}")
            }
            "next" => shown(alloc, self.hub.next_line(token).unwrap_or(&[])),
            "show" => shown(alloc, self.hub.to_write(token)),
            "count" => format!(in alloc; ": {}", self.hub.to_write(token).len()),
            "wants" => self.wants(alloc, token),
            _ => {
                self.change(alloc, name, token, rest)?;
                Ok(String::new(alloc))
            }
        }
    }

    /// Makes a call that returns nothing.
    fn change(
        &mut self,
        alloc: Global,
        name: &str,
        token: u64,
        rest: &str,
    ) -> Result<(), AllocError> {
        match name {
            "send" => self.hub.received(token, &sent(alloc, rest)?),
            "fill" => self
                .hub
                .received(token, &copies(alloc, b"x", number(rest))?),
            "many" => self
                .hub
                .received(token, &copies(alloc, b"x\n", number(rest))?),
            "wrote" => {
                self.hub.written(token, number(rest));
                Ok(())
            }
            "run" => self.hub.run(alloc, token, &mut self.store, number(rest)),
            "close" => {
                self.hub.closed(token);
                Ok(())
            }
            _ => Ok(()),
        }
    }

    fn wants(&self, alloc: Global, token: u64) -> Result<String, AllocError> {
        if !self.hub.is_open(token) {
            return format!(in alloc; ": gone");
        }
        let read = if self.hub.wants_read(token) {
            " read"
        } else {
            ""
        };
        let run = if self.hub.wants_run(token) {
            " run"
        } else {
            ""
        };
        let write = if self.hub.wants_write(token) {
            " write"
        } else {
            ""
        };
        let stopped = if self.hub.is_stopped() {
            " stopped"
        } else {
            ""
        };
        format!(in alloc; ":{read}{run}{write}{stopped}")
    }
}

pub(crate) fn number(text: &str) -> usize {
    text.parse::<usize>().unwrap_or(0)
}

/// Returns the bytes of the text, with a line feed for each `/`.
pub(crate) fn sent(alloc: Global, text: &str) -> Result<Vec<u8>, AllocError> {
    let mut bytes = Vec::new(alloc);
    for b in text.as_bytes() {
        bytes.push(if *b == b'/' { b'\n' } else { *b })?;
    }
    Ok(bytes)
}

/// Returns what stands behind `next` and `show`: the bytes, with `/` for each line feed, or `nothing`.
pub(crate) fn shown(alloc: Global, bytes: &[u8]) -> Result<String, AllocError> {
    if bytes.is_empty() {
        return format!(in alloc; ": nothing");
    }
    let mut text = format!(in alloc; ": ")?;
    for b in bytes {
        text.push(if *b == b'\n' { '/' } else { char::from(*b) })?;
    }
    Ok(text)
}

/// Returns the bytes so many times.
fn copies(alloc: Global, bytes: &[u8], count: usize) -> Result<Vec<u8>, AllocError> {
    let mut copies = Vec::new(alloc);
    for _ in 0..count {
        copies.extend_from_slice(bytes)?;
    }
    Ok(copies)
}
