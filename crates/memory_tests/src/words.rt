//! The words of a line, and what they stand for.

use adya_values::{BadKey, BadNumber, BadValue, Content, Key, Txn, Value};
use std::alloc::{AllocError, AllocFailed, Global};
use std::io;

/// Why a call has no reply.
#[derive(Clone, Copy, PartialEq)]
pub(crate) enum Fault {
    /// It was refused memory.
    Memory,
    /// A word isn't what the call needs.
    Word,
    /// There is no such call.
    Call,
    /// The call can't be made now.
    Now,
    /// Its reply is another one.
    Reply,
}

impl Fault {
    /// Returns what went wrong.
    pub(crate) fn text(self) -> &'static str {
        match self {
            Fault::Memory => "no memory",
            Fault::Word => "a word that isn't what the call needs",
            Fault::Call => "no such call",
            Fault::Now => "a call that can't be made now",
            Fault::Reply => "another reply",
        }
    }
}

impl From<AllocError> for Fault {
    fn from(_: AllocError) -> Fault {
        Fault::Memory
    }
}

impl<T: Drop> From<AllocFailed<T>> for Fault {
    fn from(_: AllocFailed<T>) -> Fault {
        Fault::Memory
    }
}

impl From<io::Error> for Fault {
    fn from(_: io::Error) -> Fault {
        Fault::Reply
    }
}

impl From<BadKey> for Fault {
    fn from(_: BadKey) -> Fault {
        Fault::Word
    }
}

impl From<BadNumber> for Fault {
    fn from(_: BadNumber) -> Fault {
        Fault::Word
    }
}

impl From<BadValue> for Fault {
    fn from(_: BadValue) -> Fault {
        Fault::Word
    }
}

/// The words that are left of a line, with a space between two.
#[derive(Drop)]
pub(crate) struct Words<'a> {
    rest: &'a str,
}

impl<'a> Words<'a> {
    /// Returns the words of the line.
    pub(crate) fn of(line: &'a str) -> Words<'a> {
        Words { rest: line }
    }

    /// Returns what is left of the line.
    pub(crate) fn rest(&self) -> &'a str {
        self.rest
    }

    /// Takes the next word; an empty one if none is left.
    pub(crate) fn word(&mut self) -> &'a str {
        let (word, rest) = self.rest.split_once(" ").unwrap_or((self.rest, ""));
        self.rest = rest;
        word
    }

    pub(crate) fn number(&mut self) -> Result<u64, Fault> {
        number(self.word())
    }

    pub(crate) fn key(&mut self) -> Result<Key, Fault> {
        Ok(Key::new(self.word().as_bytes())?)
    }

    pub(crate) fn txn(&mut self) -> Result<Txn, Fault> {
        Ok(Txn::new(self.number()?)?)
    }

    /// Takes a value; `-` is dead content.
    pub(crate) fn content(&mut self) -> Result<Content, Fault> {
        match self.word() {
            "-" => Ok(Content::Dead),
            word => Ok(Content::Live(Value::new(word.as_bytes())?)),
        }
    }

    /// Takes all words that are left, which are keys.
    pub(crate) fn keys(&mut self, alloc: Global) -> Result<Vec<Key>, Fault> {
        let mut keys = Vec::new(alloc);
        for word in self.rest.split_whitespace() {
            keys.push(Key::new(word.as_bytes())?)?;
        }
        Ok(keys)
    }

    /// Takes all words that are left, which are numbers.
    pub(crate) fn numbers(&mut self, alloc: Global) -> Result<Vec<u64>, Fault> {
        let mut numbers = Vec::new(alloc);
        for word in self.rest.split_whitespace() {
            numbers.push(number(word)?)?;
        }
        Ok(numbers)
    }

    /// Takes all words that are left, which are numbers of transactions.
    pub(crate) fn txns(&mut self, alloc: Global) -> Result<Vec<Txn>, Fault> {
        let mut txns = Vec::new(alloc);
        for word in self.rest.split_whitespace() {
            txns.push(Txn::new(number(word)?)?)?;
        }
        Ok(txns)
    }
}

fn number(word: &str) -> Result<u64, Fault> {
    word.parse().map_err(|_| Fault::Word)
}
