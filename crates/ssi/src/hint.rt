//! What is said of a text with a syntax fault, beside the verdict.

use crate::grammar::{CRLF, Misfit, Part, is_entry, part_of};
use std::alloc::AllocError;
use std::fs::Files;
use std::io::Read;
use std::{fs, io};

/// The most reads of a file.
const READS: u32 = 4294967295;
/// The most bytes of a line that are kept.
const KEPT: usize = 8192;

/// Says on standard error why the texts have a syntax fault, if this is the beginning of the verdict, and if the text is in a
/// regular file, which can be read once more.
pub fn hint<R: Files + Eprint + AllocGlobal>(
    rt: &R,
    verdict: &[u8],
    history: &str,
    certificate: &str,
) {
    let (path, is_history) = match verdict.strip_prefix(b"no 1 syntax ") {
        Some([b'h', ..]) => (history, true),
        Some(_) => (certificate, false),
        None => return,
    };
    // what was read of a pipe is gone
    let is_file = match fs::metadata(rt, path) {
        Ok(found) => found.is_file(),
        Err(_) => false,
    };
    if !is_file {
        return;
    }
    let number = last_number(verdict);
    let Ok(lines) = lines_at(rt, path, number) else {
        return;
    };
    let (place, why) = if is_history {
        lines.of_history()
    } else {
        lines.of_certificate()
    };
    let _ = match place {
        Some(at) => eprintln!(rt;
            "ssi: {path}: line {number}, byte {}: {why}",
            at.saturating_add(1)
        ),
        None => eprintln!(rt; "ssi: {path}: line {number}: {why}"),
    };
}

/// The number at the end of the first line.
fn last_number(verdict: &[u8]) -> u64 {
    let mut number: u64 = 0;
    for byte in verdict {
        match byte {
            b'0'..=b'9' => {
                number = number
                    .saturating_mul(10)
                    .saturating_add(u64::from(*byte - b'0'));
            }
            b'\n' => return number,
            _ => number = 0,
        }
    }
    number
}

/// The lines that decide why a text has a fault at a line: the first one, the one before, and the one itself.
#[derive(Drop)]
struct Lines {
    wanted: u64,
    line: u64,
    is_whole: bool,
    head: Vec<u8>,
    before: Vec<u8>,
    faulty: Vec<u8>,
}

fn lines_at<R: Files + AllocGlobal>(rt: &R, path: &str, number: u64) -> io::Result<Lines> {
    let mut file = fs::open(rt, path)?;
    let mut lines = Lines {
        wanted: number,
        line: 1,
        is_whole: false,
        head: Vec::new(rt.alloc()),
        before: Vec::new(rt.alloc()),
        faulty: Vec::new(rt.alloc()),
    };
    let mut piece = [0; 4096];
    for _ in 0..READS {
        let n = file.read(&mut piece)?;
        let Some(read) = piece.get(..n) else {
            return Ok(lines);
        };
        if n == 0 || lines.take(read)? {
            return Ok(lines);
        }
    }
    Ok(lines)
}

impl Lines {
    /// Goes over the next bytes of the text, and returns whether the wanted line has ended.
    fn take(&mut self, bytes: &[u8]) -> Result<bool, AllocError> {
        for byte in bytes {
            if *byte != b'\n' {
                self.keep(*byte)?;
            } else if self.line == self.wanted {
                self.is_whole = true;
                return Ok(true);
            } else {
                self.line = self.line.saturating_add(1);
            }
        }
        Ok(false)
    }

    fn keep(&mut self, byte: u8) -> Result<(), AllocError> {
        if self.line == 1 && self.head.len() < KEPT {
            self.head.push(byte)?;
        }
        if self.line.saturating_add(1) == self.wanted && self.before.len() < KEPT {
            self.before.push(byte)?;
        }
        if self.line == self.wanted && self.faulty.len() < KEPT {
            self.faulty.push(byte)?;
        }
        Ok(())
    }

    /// Why a text that ends with this line, or before it, has no such line.
    fn missing(&self) -> &'static str {
        if !self.faulty.is_empty() {
            return "it has no line feed at its end";
        }
        if self.wanted == 1 {
            return "the text is empty";
        }
        "the text ends before the line `end`"
    }

    fn of_history(&self) -> (Option<usize>, &'static str) {
        if !self.is_whole {
            return (None, self.missing());
        }
        if self.wanted == 1 {
            return match self.faulty.as_slice() {
                b"adya 1\r" | b"adya 2\r" => (Some(6), CRLF),
                _ => (Some(0), "the first line is `adya 1` or `adya 2`"),
            };
        }
        match part_of(self.faulty.as_slice()) {
            Ok(part) => (None, self.out_of_place(part)),
            Err(Misfit { at, wanted }) => (Some(at), wanted),
        }
    }

    /// Why a line of this part may not follow the line before it.
    fn out_of_place(&self, part: Part) -> &'static str {
        let before = match part_of(self.before.as_slice()) {
            Ok(before) if self.wanted > 2 => before,
            _ => Part::Events,
        };
        if before == Part::Tail {
            return "nothing follows the line `end`";
        }
        if part == Part::Unfinished && self.head.as_slice() == b"adya 1".as_slice() {
            return "a history with unfinished transactions begins with `adya 2`";
        }
        if part < before {
            return "events come first, then unfinished transactions, then orders, then finals";
        }
        "unfinished transactions, orders and finals rise, and none comes twice"
    }

    fn of_certificate(&self) -> (Option<usize>, &'static str) {
        if !self.is_whole {
            return (None, self.missing());
        }
        if self.wanted == 1 {
            return (Some(0), "the first line is `serial 1`");
        }
        if self.before.as_slice() == b"end".as_slice() {
            return (None, "nothing follows the line `end`");
        }
        match is_entry(self.faulty.as_slice()) {
            Ok(()) => (None, "it may not stand there"),
            Err(Misfit { at, wanted }) => (Some(at), wanted),
        }
    }
}
