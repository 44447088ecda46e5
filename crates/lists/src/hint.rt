//! Where in its line a fault of a history is, and what stands there: said beside the fault, by reading the text once more.

use crate::spot::{Spot, spot_of};
use append_text::{Place, Problem};
use std::alloc::AllocError;
use std::fs::Files;
use std::io::Read;
use std::{fs, io};

/// The most reads of a file.
const READS: u32 = 4294967295;
/// The most bytes of a line that are kept, and of the beginning of the text.
const KEPT: usize = 65536;

const FRONT: usize = 64;
/// The most bytes that are shown.
const SHOWN: usize = 48;

/// Says on standard error what is wrong with the text, and if it is in a regular file also in which column, and what stands
/// there.
pub fn say<R: Files + Eprint + AllocGlobal>(rt: &R, path: &str, place: Place, problem: Problem) {
    let text = if is_file(rt, path) {
        text_at(rt, path, place).ok()
    } else {
        None
    };
    let Some(text) = text else {
        let _ = eprintln!(rt; "lists: {place}: {problem}");
        return;
    };
    let said = match spot_of(rt.alloc(), &text.line, problem) {
        Ok(Some(spot)) => said_of(rt, &text.line, &spot, place, problem).is_ok(),
        Ok(None) | Err(_) => false,
    };
    if !said {
        let _ = eprintln!(rt; "lists: {place}: {problem}");
    }
    if let Some(hint) = hint_of(&text.front) {
        let _ = eprintln!(rt; "lists: {hint}");
    }
}

fn is_file<R: Files>(rt: &R, path: &str) -> bool {
    match fs::metadata(rt, path) {
        Ok(found) => found.is_file(),
        Err(_) => false,
    }
}

fn said_of<R: Eprint + AllocGlobal>(
    rt: &R,
    line: &[u8],
    spot: &Spot,
    place: Place,
    problem: Problem,
) -> Result<(), AllocError> {
    let shown = shown(rt.alloc(), line.get(spot.start..spot.end).unwrap_or(&[]))?;
    let column = column_of(line, spot.start);
    let field = match spot.field {
        Some((start, end)) => shown_field(rt.alloc(), line.get(start..end).unwrap_or(&[]))?,
        None => String::new(rt.alloc()),
    };
    let _ = eprintln!(rt; "lists: {place}, column {column}: `{shown}`: {problem}{field}");
    Ok(())
}

/// Counts characters from 1, of which each has one byte that doesn't continue another.
fn column_of(line: &[u8], at: usize) -> u64 {
    let mut column: u64 = 1;
    for byte in line.get(..at).unwrap_or(&[]) {
        if *byte & 0xc0 != 0x80 {
            column = column.saturating_add(1);
        }
    }
    column
}

fn shown_field(alloc: std::alloc::Global, bytes: &[u8]) -> Result<String, AllocError> {
    let mut text = String::new(alloc);
    text.push_str("; in ")?;
    text.push_str(shown(alloc, bytes)?.as_str())?;
    Ok(text)
}

/// The bytes as they may be printed, without their end if they are many.
fn shown(alloc: std::alloc::Global, bytes: &[u8]) -> Result<String, AllocError> {
    let some = bytes.get(..SHOWN).unwrap_or(bytes);
    let mut plain = Vec::with_capacity(alloc, some.len())?;
    for byte in some {
        plain.push(if *byte < b' ' || *byte == 0x7f {
            b' '
        } else {
            *byte
        })?;
    }
    let mut text = String::from_utf8_lossy(alloc, &plain)?;
    if some.len() < bytes.len() {
        text.push_str("..")?;
    }
    Ok(text)
}

/// What a text is instead of a history, told by its first bytes.
fn hint_of(front: &[u8]) -> Option<&'static str> {
    match front {
        [0x1f, 0x8b, ..] => Some("the file is compressed by gzip: unpack it first"),
        [b'J', b'E', b'P', b'S', b'E', b'N', ..] => {
            Some("this is a test.jepsen: the history is in history.edn beside it")
        }
        _ if is_printed(front) => {
            Some("this is a history.txt: the history is in history.edn beside it")
        }
        _ => None,
    }
}

/// Whether the text begins with a process, a tab and a keyword, as a line of history.txt does.
fn is_printed(front: &[u8]) -> bool {
    let mut bytes = front.iter();
    while let Some(byte) = bytes.next() {
        match byte {
            b'0'..=b'9' | b'a'..=b'z' | b':' => {}
            b'\t' => return bytes.next() == Some(&b':'),
            _ => return false,
        }
    }
    false
}

/// The beginning of a text, and one of its lines.
#[derive(Drop)]
struct Text {
    wanted: u64,
    line_number: u64,
    front: Vec<u8>,
    line: Vec<u8>,
}

fn text_at<R: Files + AllocGlobal>(rt: &R, path: &str, place: Place) -> io::Result<Text> {
    let mut text = Text {
        wanted: match place {
            Place::Line(number) => number,
            Place::Element(_) => 0,
        },
        line_number: 1,
        front: Vec::new(rt.alloc()),
        line: Vec::new(rt.alloc()),
    };
    let mut file = fs::open(rt, path)?;
    let mut piece = [0; 4096];
    for _ in 0..READS {
        let n = file.read(&mut piece)?;
        let Some(read) = piece.get(..n) else {
            return Ok(text);
        };
        if n == 0 || text.take(read)? {
            return Ok(text);
        }
    }
    Ok(text)
}

impl Text {
    /// Goes over the next bytes of the text, and returns whether the wanted line has ended.
    fn take(&mut self, bytes: &[u8]) -> Result<bool, AllocError> {
        for byte in bytes {
            if self.front.len() < FRONT {
                self.front.push(*byte)?;
            }
            if *byte == b'\n' {
                if self.line_number >= self.wanted {
                    return Ok(true);
                }
                self.line_number = self.line_number.saturating_add(1);
            } else if self.line_number == self.wanted && self.line.len() < KEPT {
                self.line.push(*byte)?;
            }
        }
        Ok(false)
    }
}
