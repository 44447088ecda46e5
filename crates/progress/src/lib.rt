//! What a program says on standard error while somebody waits.
#![tactic(auto)]

use std::io;
use std::io::Read;
use std::rt::Clock;
use std::time::{Duration, Instant};

/// How many seconds nothing is said.
const PAUSE: u64 = 2;

/// Whether standard error says how far the work is.
#[derive(Clone, Copy, Debug, PartialEq, Eq)]
pub enum Progress {
    /// Every two seconds.
    Shown,
    /// Never.
    Hidden,
}

impl Progress {
    /// `Shown` if standard error is a terminal.
    pub fn if_terminal(is_terminal: bool) -> Progress {
        if is_terminal {
            Progress::Shown
        } else {
            Progress::Hidden
        }
    }
}

/// When something was said last, or the work began.
#[derive(Drop)]
pub struct Reporter<'a, R> {
    rt: &'a R,
    program: &'a str,
    last: Option<Instant>,
}

impl<'a, R: Clock + Eprint> Reporter<'a, R> {
    /// A reporter of work that this program begins now. Without a clock it never says anything.
    pub fn new(rt: &'a R, program: &'a str, progress: Progress) -> Self {
        let last = match progress {
            Progress::Shown => Instant::now(rt).ok(),
            Progress::Hidden => None,
        };
        Reporter { rt, program, last }
    }

    /// Whether anything is ever said.
    pub fn is_shown(&self) -> bool {
        self.last.is_some()
    }

    /// Returns whether it is time to say something.
    fn is_due(&mut self) -> bool {
        let Some(last) = self.last else {
            return false;
        };
        let Ok(now) = Instant::now(self.rt) else {
            return false;
        };
        if now.duration_since(last) < Duration::from_secs(PAUSE) {
            return false;
        }
        self.last = Some(now);
        true
    }

    /// Says how many bytes were read, if it is time.
    fn bytes(&mut self, read: u64) {
        if self.is_due() {
            let _ = eprintln!(self.rt; "{}: {} MB read", self.program, read / 1_000_000);
        }
    }

    /// Says how many transactions were read, if it is time.
    pub fn transactions(&mut self, read: usize) {
        if self.is_due() {
            let _ = eprintln!(self.rt; "{}: {read} transactions read", self.program);
        }
    }
}

/// A reader whose bytes are counted and reported.
#[derive(Drop)]
pub struct Counted<'a, 'b, R, D> {
    reporter: &'b mut Reporter<'a, R>,
    device: D,
    read: u64,
}

impl<'a, 'b, R, D> Counted<'a, 'b, R, D> {
    /// A reader of which nothing was read.
    pub fn new(reporter: &'b mut Reporter<'a, R>, device: D) -> Self {
        Counted {
            reporter,
            device,
            read: 0,
        }
    }
}

impl<R: Clock + Eprint, D: Read> Read for Counted<'_, '_, R, D> {
    ghost remaining = { λ c. D.remaining c.device };

    fn read(&mut self, buf: &mut [u8]) -> io::Result<usize> {
        let n = self.device.read(buf)?;
        self.read = self.read.saturating_add(n as u64);
        self.reporter.bytes(self.read);
        Ok(n)
    }
}
