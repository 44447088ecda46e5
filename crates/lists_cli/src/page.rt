//! A text that is written bit by bit.

use append_text::{Name, Names};
use itoa::Buffer;
use std::alloc::{AllocError, Global};

/// How many elements of a list are shown at each end, if it has more than twice as many.
const ENDS: usize = 8;

/// Returns whether a list is shown without its middle.
pub(crate) fn is_long(elements: &[u64]) -> bool {
    elements.len() > 2 * ENDS
}

/// A text.
#[derive(Drop)]
pub(crate) struct Page {
    pub bytes: Vec<u8>,
}

impl Page {
    /// An empty text.
    pub fn new(alloc: Global) -> Page {
        Page {
            bytes: Vec::new(alloc),
        }
    }

    /// Writes the words.
    pub fn words(&mut self, words: &str) -> Result<(), AllocError> {
        self.bytes.extend_from_slice(words.as_bytes())
    }

    /// Writes the bytes of another text.
    pub fn text(&mut self, bytes: &[u8]) -> Result<(), AllocError> {
        self.bytes.extend_from_slice(bytes)
    }

    /// Writes the bytes with a backslash before each quote and backslash.
    pub fn quoted(&mut self, bytes: &[u8]) -> Result<(), AllocError> {
        for byte in bytes {
            if *byte == b'"' || *byte == b'\\' {
                self.words("\\")?;
            }
            self.bytes.push(*byte)?;
        }
        Ok(())
    }

    /// Writes the number in decimal digits.
    pub fn number(&mut self, number: u64) -> Result<(), AllocError> {
        self.bytes
            .extend_from_slice(Buffer::new().format(number).as_bytes())
    }

    /// Writes the name with this number as EDN has it.
    pub fn name(&mut self, names: &Names, number: u64) -> Result<(), AllocError> {
        match names.name(number) {
            Some(Name::Integer(n)) => {
                self.bytes
                    .extend_from_slice(Buffer::new().format(n).as_bytes())
            }
            Some(Name::String(bytes)) => {
                self.words("\"")?;
                self.escaped(bytes)?;
                self.words("\"")
            }
            Some(Name::Keyword(bytes)) => {
                self.words(":")?;
                self.escaped(bytes)
            }
            None => self.number(number),
        }
    }

    /// Writes the bytes of a name as EDN escapes them in a string, so that no name ends a line or forges another one: quotes
    /// and backslashes, and all characters that end a line or control a terminal.
    fn escaped(&mut self, bytes: &[u8]) -> Result<(), AllocError> {
        let mut hidden = 0usize;
        for i in 0..bytes.len() {
            if hidden > 0 {
                hidden -= 1;
                continue;
            }
            match &bytes[i..] {
                [b'"', ..] => self.words("\\\"")?,
                [b'\\', ..] => self.words("\\\\")?,
                [b'\n', ..] => self.words("\\n")?,
                [b'\r', ..] => self.words("\\r")?,
                [b'\t', ..] => self.words("\\t")?,
                [0xc2, second @ 0x80..=0x9f, ..] => {
                    self.code(0, *second)?;
                    hidden = 1;
                }
                [0xe2, 0x80, third @ 0xa8..=0xa9, ..] => {
                    self.code(0x20, *third - 0x80)?;
                    hidden = 2;
                }
                [byte @ (0..=0x1f | 0x7f), ..] => self.code(0, *byte)?,
                [byte, ..] => self.bytes.push(*byte)?,
                [] => {}
            }
        }
        Ok(())
    }

    /// Writes the escape of the character whose code has these two bytes.
    fn code(&mut self, first: u8, second: u8) -> Result<(), AllocError> {
        self.words("\\u")?;
        for byte in [first, second] {
            self.bytes.push(digit(byte / 16))?;
            self.bytes.push(digit(byte % 16))?;
        }
        Ok(())
    }

    /// Writes the list, without its middle if it is long.
    pub fn list(&mut self, names: &Names, elements: &[u64]) -> Result<(), AllocError> {
        self.words("[")?;
        let long = is_long(elements);
        for i in 0..elements.len() {
            let hidden = long && i >= ENDS && i < elements.len() - ENDS;
            if !hidden {
                if i > 0 {
                    self.words(" ")?;
                }
                self.name(names, elements[i])?;
            } else if i == ENDS {
                self.words(" ..")?;
            }
        }
        self.words("]")
    }
}

fn digit(number: u8) -> u8 {
    match number {
        0..=9 => b'0' + number,
        _ => b'a' + (number.min(15) - 10),
    }
}
