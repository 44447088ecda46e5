//! Which token of a line has a problem.

use append_text::Problem;
use devices::Watched;
use edn::{ReadFault, Reader};
use std::alloc::{AllocError, Global};

/// Some bytes of a line, and the field of the operation in which they stand, if they stand in one.
#[derive(Clone, Copy)]
pub(crate) struct Spot {
    pub start: usize,
    pub end: usize,
    pub field: Option<(usize, usize)>,
}

/// How far the tokens of a line have been followed.
#[derive(Drop)]
struct Walk<'a> {
    alloc: Global,
    line: &'a [u8],
    open: Vec<u8>,
    field: Option<(usize, usize)>,
}

/// Returns where the problem of a line is: the token that is none, the bracket that closes nothing, or the value of the field
/// that the problem is about. Nothing if that isn't seen in the line.
pub(crate) fn spot_of(
    alloc: Global,
    line: &[u8],
    problem: Problem,
) -> Result<Option<Spot>, AllocError> {
    let mut walk = Walk {
        alloc,
        line,
        open: Vec::new(alloc),
        field: None,
    };
    let mut at = 0;
    for _ in 0..line.len() {
        let Some((start, end)) = token(line, at) else {
            return Ok(None);
        };
        if walk.has_problem(start, end, problem)? {
            return Ok(Some(walk.spot(start, end, problem)));
        }
        walk.pass(start, end)?;
        at = end;
    }
    Ok(None)
}

/// Whether the problem is one of a form that was read.
fn is_of_form(problem: Problem) -> bool {
    !matches!(problem, Problem::Edn(_))
}

/// The keyword of the field that the problem is about.
fn field_of(problem: Problem) -> &'static [u8] {
    match problem {
        Problem::Type => b":type",
        Problem::Step | Problem::Name | Problem::OtherSteps => b":value",
        _ => b":process",
    }
}

impl Walk<'_> {
    /// The spot of a problem that this token has.
    fn spot(&self, start: usize, end: usize, problem: Problem) -> Spot {
        if is_of_form(problem) {
            return Spot {
                start,
                end: self.line.len(),
                field: None,
            };
        }
        Spot {
            start,
            end,
            field: self.field,
        }
    }

    /// Whether this token has the problem.
    fn has_problem(&self, start: usize, end: usize, problem: Problem) -> Result<bool, AllocError> {
        let bytes = self.line.get(start..end).unwrap_or(&[]);
        match problem {
            Problem::Edn(edn::Problem::Token) => is_none(self.alloc, bytes),
            Problem::Edn(edn::Problem::Unopened) => {
                Ok(closing(bytes).is_some_and(|opening| self.open.last() != Some(&opening)))
            }
            Problem::Edn(_) | Problem::Json => Ok(false),
            Problem::Map => Ok(true),
            _ => Ok(self.is_value_of(field_of(problem))),
        }
    }

    /// Whether the token before was this keyword of the outermost map.
    fn is_value_of(&self, keyword: &[u8]) -> bool {
        match self.field {
            Some((start, end)) => {
                self.open.len() == 1 && self.line.get(start..end) == Some(keyword)
            }
            None => false,
        }
    }

    /// Goes on behind this token.
    fn pass(&mut self, start: usize, end: usize) -> Result<(), AllocError> {
        let bytes = self.line.get(start..end).unwrap_or(&[]);
        match bytes {
            [.., last @ (b'(' | b'[' | b'{')] if bytes.len() == 1 || bytes[0] == b'#' => {
                self.open.push(*last)?;
            }
            [b')' | b']' | b'}'] => {
                let _ = self.open.pop();
            }
            [b':', ..] if self.open.len() == 1 => self.field = Some((start, end)),
            _ => {}
        }
        Ok(())
    }
}

/// Whether a token is none of EDN.
fn is_none(alloc: Global, bytes: &[u8]) -> Result<bool, AllocError> {
    let mut reader = Reader::new(alloc);
    match reader.read(&mut Watched::new(bytes)) {
        Ok(_) => Ok(false),
        Err(ReadFault::Syntax { problem, .. }) => Ok(problem == edn::Problem::Token),
        Err(ReadFault::Device) => Ok(false),
        Err(ReadFault::Memory) => Err(AllocError),
    }
}

/// The bracket that this one closes.
fn closing(bytes: &[u8]) -> Option<u8> {
    match bytes {
        [b')'] => Some(b'('),
        [b']'] => Some(b'['),
        [b'}'] => Some(b'{'),
        _ => None,
    }
}

/// The next token of the line from a place on.
fn token(line: &[u8], at: usize) -> Option<(usize, usize)> {
    for start in at..line.len() {
        if line[start] == b';' {
            return None;
        }
        if !is_blank(line[start]) {
            return Some((start, end_of(line, start)));
        }
    }
    None
}

/// Where the token that begins there ends.
fn end_of(line: &[u8], start: usize) -> usize {
    let mut is_string = false;
    let mut is_escaped = false;
    let mut is_tagged = false;
    for end in start..line.len() {
        let byte = line[end];
        if is_escaped {
            is_escaped = false;
        } else if is_string {
            if byte == b'"' {
                return end + 1;
            }
            is_escaped = byte == b'\\';
        } else if end == start && byte == b'"' {
            is_string = true;
        } else if is_bracket(byte) {
            return if end == start || is_tagged {
                end + 1
            } else {
                end
            };
        } else if is_blank(byte) || byte == b'"' || byte == b';' {
            return end;
        } else {
            is_escaped = byte == b'\\';
            is_tagged = is_tagged || end == start && byte == b'#';
        }
    }
    line.len()
}

fn is_blank(byte: u8) -> bool {
    matches!(byte, b' ' | b'\t' | b'\r' | b'\n' | b',')
}

fn is_bracket(byte: u8) -> bool {
    matches!(byte, b'(' | b')' | b'[' | b']' | b'{' | b'}')
}
