//! Where a line stops fitting the grammar of a text, and what is wanted there. docs/formats.md has the grammar.

const KEY: &str = "a key is 1 to 32 bytes of a-z, 0-9 and _";

const VALUE: &str = "a value is 1 to 64 bytes of A-Z, a-z, 0-9 and _.+-";

const TXN: &str = "a transaction is a number from 1 to 4294967295, without leading zeros";

const COUNT: &str = "the number of a write is one from 1 to 65535, without leading zeros";

/// What is said of a carriage return before the line feed.
pub const CRLF: &str = "a carriage return (CRLF); lines end with a line feed alone";

/// The byte of a line, counted from 0, up to which it fits the grammar, and what is wanted there.
#[derive(Clone, Copy)]
pub struct Misfit {
    pub at: usize,
    pub wanted: &'static str,
}

/// The parts of a history in their order.
#[derive(Clone, Copy, PartialEq, Eq, PartialOrd, Ord)]
pub enum Part {
    Events,
    Unfinished,
    Orders,
    Finals,
    Tail,
}

/// What stands between two marks of a line.
#[derive(Clone, Copy)]
enum Word {
    Key,
    Value,
}

/// Returns the part of a history that the line belongs to.
pub fn part_of(line: &[u8]) -> Result<Part, Misfit> {
    let mut scanner = Scanner { line, at: 0 };
    let part = scanner.line()?;
    scanner.end()?;
    Ok(part)
}

/// Whether the line may be in a certificate after the first one.
pub fn is_entry(line: &[u8]) -> Result<(), Misfit> {
    if line == b"end".as_slice() {
        return Ok(());
    }
    let mut scanner = Scanner { line, at: 0 };
    scanner.number(4294967295, TXN)?;
    scanner.end()
}

/// A line that fits the grammar up to this byte.
#[derive(Drop)]
struct Scanner<'a> {
    line: &'a [u8],
    at: usize,
}

impl Scanner<'_> {
    fn misfit<T>(&self, wanted: &'static str) -> Result<T, Misfit> {
        Err(Misfit {
            at: self.at,
            wanted,
        })
    }

    fn next(&self) -> Option<u8> {
        self.line.get(self.at).copied()
    }

    fn pass(&mut self) {
        self.at = self.at.saturating_add(1);
    }

    fn has(&mut self, mark: u8) -> bool {
        let found = self.next() == Some(mark);
        if found {
            self.pass();
        }
        found
    }

    fn mark(&mut self, mark: u8, wanted: &'static str) -> Result<(), Misfit> {
        if self.has(mark) {
            return Ok(());
        }
        self.misfit(wanted)
    }

    fn line(&mut self) -> Result<Part, Misfit> {
        let first = self.next();
        if self.line == b"end".as_slice() {
            self.at = 3;
            return Ok(Part::Tail);
        }
        self.pass();
        match first {
            Some(b'w') => self.write(true),
            Some(b'd') => self.write(false),
            Some(b'r') => self.read(),
            Some(b's') => self.scan(),
            Some(b'c' | b'a') => {
                self.txn()?;
                Ok(Part::Events)
            }
            Some(b'u') => {
                self.txn()?;
                Ok(Part::Unfinished)
            }
            Some(b'[') => self.order(),
            Some(b'{') => self.last_value(),
            _ => Err(Misfit {
                at: 0,
                wanted: "a line begins with w, d, r, s, c, a, u, [ or {, or is `end`",
            }),
        }
    }

    fn write(&mut self, has_value: bool) -> Result<Part, Misfit> {
        let txn = self.txn()?;
        self.mark(b'(', "`(` is wanted")?;
        self.key()?;
        self.mark(b'.', "`.` is wanted")?;
        let start = self.at;
        if self.txn()? != txn {
            self.at = start;
            return self.misfit("the version is the transaction's own");
        }
        self.count()?;
        if has_value {
            self.mark(b',', "`,` is wanted")?;
            self.value()?;
        }
        self.mark(b')', "`)` is wanted")?;
        Ok(Part::Events)
    }

    fn read(&mut self) -> Result<Part, Misfit> {
        self.txn()?;
        self.mark(b'(', "`(` is wanted")?;
        self.version()?;
        self.mark(b',', "`,` is wanted")?;
        self.value()?;
        self.mark(b')', "`)` is wanted")?;
        Ok(Part::Events)
    }

    fn scan(&mut self) -> Result<Part, Misfit> {
        self.txn()?;
        self.mark(b'(', "`(` is wanted")?;
        self.key()?;
        self.mark(b',', "`,` is wanted")?;
        self.key()?;
        for _ in 0..self.line.len() {
            if !self.has(b';') {
                break;
            }
            self.version()?;
            self.mark(b',', "`,` is wanted")?;
            if !self.has(b'!') {
                self.value()?;
            }
        }
        self.mark(b')', "`;` or `)` is wanted")?;
        Ok(Part::Events)
    }

    fn order(&mut self) -> Result<Part, Misfit> {
        self.key()?;
        self.mark(b':', "`:` is wanted")?;
        self.txn()?;
        for _ in 0..self.line.len() {
            if !self.has(b'<') {
                break;
            }
            self.mark(b'<', "`<<` is wanted")?;
            self.txn()?;
        }
        self.mark(b']', "`<<` or `]` is wanted")?;
        Ok(Part::Orders)
    }

    fn last_value(&mut self) -> Result<Part, Misfit> {
        self.key()?;
        self.mark(b',', "`,` is wanted")?;
        self.value()?;
        self.mark(b'}', "`}` is wanted")?;
        Ok(Part::Finals)
    }

    fn version(&mut self) -> Result<(), Misfit> {
        self.key()?;
        self.mark(b'.', "`.` is wanted")?;
        self.txn()?;
        self.count()
    }

    fn count(&mut self) -> Result<(), Misfit> {
        self.mark(b':', "`:` is wanted")?;
        self.number(65535, COUNT)?;
        Ok(())
    }

    fn txn(&mut self) -> Result<u64, Misfit> {
        self.number(4294967295, TXN)
    }

    fn number(&mut self, most: u64, wanted: &'static str) -> Result<u64, Misfit> {
        let start = self.at;
        let mut number: u64 = 0;
        for _ in 0..self.line.len() {
            let Some(digit @ b'0'..=b'9') = self.next() else {
                break;
            };
            number = number
                .saturating_mul(10)
                .saturating_add(u64::from(digit - b'0'));
            self.pass();
            if number == 0 || number > most {
                break;
            }
        }
        if number == 0 || number > most {
            self.at = start;
            return self.misfit(wanted);
        }
        Ok(number)
    }

    fn key(&mut self) -> Result<(), Misfit> {
        self.word(32, Word::Key, KEY)
    }

    fn value(&mut self) -> Result<(), Misfit> {
        self.word(64, Word::Value, VALUE)
    }

    fn word(&mut self, most: usize, word: Word, wanted: &'static str) -> Result<(), Misfit> {
        let start = self.at;
        for _ in 0..most {
            match self.next() {
                Some(byte) if fits(word, byte) => self.pass(),
                _ => break,
            }
        }
        let goes_on = match self.next() {
            Some(byte) => fits(word, byte),
            None => false,
        };
        if self.at == start || goes_on {
            return self.misfit(wanted);
        }
        Ok(())
    }

    fn end(&mut self) -> Result<(), Misfit> {
        match self.next() {
            None => Ok(()),
            Some(b'\r') => self.misfit(CRLF),
            Some(_) => self.misfit("the line ends before this"),
        }
    }
}

fn fits(word: Word, byte: u8) -> bool {
    match (word, byte) {
        (_, b'a'..=b'z' | b'0'..=b'9' | b'_') => true,
        (Word::Value, b'A'..=b'Z' | b'.' | b'+' | b'-') => true,
        _ => false,
    }
}
