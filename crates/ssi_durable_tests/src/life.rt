//! The life of a server, from a recovery to a crash: what was carried out and given out, and what has to be left of it.

use crate::plain::{Plain, carry_out_log, counts, reply_to};
use crate::seen::Seen;
use crate::serving::Ending;
use crate::texts::{count_lines, whole_lines};
use crate::wrong::Wrong;
use ssi_durable::Release;
use std::alloc::{AllocError, Global};

/// How many connections a server has, at most.
pub const CONNECTIONS: u64 = 3;

/// A line that was carried out.
#[derive(Drop)]
struct Step {
    token: u64,
    line: Vec<u8>,
    counted: bool,
    /// How many bytes have the lines that count, up to this one.
    end: usize,
}

/// Bytes for a connection.
#[derive(Drop)]
struct Piece {
    token: u64,
    bytes: Vec<u8>,
}

/// What has become of a server since it has started with the lines of a log.
#[derive(Drop)]
pub struct Life {
    pub release: Release,
    start: Vec<u8>,
    /// How many bytes followed these lines.
    torn: usize,
    /// The lines at the start, and then those that count.
    all: Vec<u8>,
    /// How many bytes they had when something was given out last, or at the start.
    sure: usize,
    steps: Vec<Step>,
    given: Vec<Piece>,
    /// Something was given out before all lines were on the disk.
    pub was_early: bool,
    /// The file couldn't grow.
    pub was_full: bool,
    /// A call of the file has failed otherwise.
    pub has_failed: bool,
}

impl Step {
    /// Adds what a store replies to this line.
    fn reply(
        &self,
        alloc: Global,
        store: &mut Plain,
        replies: &mut Vec<Piece>,
    ) -> Result<(), Wrong> {
        let bytes = reply_to(alloc, store, &self.line)?;
        if counts(&self.line, &bytes) != self.counted {
            return Err(Wrong::Counted);
        }
        add_piece(replies, self.token, bytes)?;
        Ok(())
    }
}

impl Life {
    /// A life that starts with the whole lines of this text, and gives out replies so.
    pub fn new(alloc: Global, text: &[u8], release: Release) -> Result<Life, AllocError> {
        let start = whole_lines(text);
        Ok(Life {
            release,
            start: Vec::from_slice(alloc, start)?,
            torn: text.len() - start.len(),
            all: Vec::from_slice(alloc, start)?,
            sure: start.len(),
            steps: Vec::new(alloc),
            given: Vec::new(alloc),
            was_early: false,
            was_full: false,
            has_failed: false,
        })
    }

    /// Returns whether a recovery that has ended so has begun this life. It has to find the lines that there are, unless the disk
    /// has failed.
    pub fn begins(&mut self, ending: Ending) -> Result<bool, Wrong> {
        match ending {
            Ending::Recovered(recovered) => {
                if recovered.lines != count_lines(&self.start) || recovered.torn != self.torn {
                    return Err(Wrong::OtherLines);
                }
                Ok(true)
            }
            Ending::Failed => {
                self.has_failed = true;
                Ok(false)
            }
            _ => Err(Wrong::NotRecovered),
        }
    }

    /// The line was carried out.
    pub fn carried(
        &mut self,
        alloc: Global,
        token: u64,
        line: &[u8],
        counted: bool,
    ) -> Result<(), AllocError> {
        if counted {
            self.all.extend_from_slice(line)?;
            self.all.push(b'\n')?;
        }
        self.steps.push(Step {
            token,
            line: Vec::from_slice(alloc, line)?,
            counted,
            end: self.all.len(),
        })?;
        Ok(())
    }

    /// The bytes were given out.
    pub fn gave(&mut self, alloc: Global, token: u64, bytes: &[u8]) -> Result<(), AllocError> {
        if bytes.is_empty() {
            return Ok(());
        }
        add_piece(&mut self.given, token, Vec::from_slice(alloc, bytes)?)?;
        self.sure = self.all.len();
        Ok(())
    }

    /// Looks whether a crash may leave this text. Its whole lines have to be a front of those at the start and those that
    /// count, with all on which something rests that was given out.
    pub fn may_leave(&self, alloc: Global, store: &mut Plain, text: &[u8]) -> Result<(), Wrong> {
        let left = whole_lines(text);
        if !self.all.starts_with(left) {
            return Err(Wrong::NoFront);
        }
        match self.release {
            Release::Synced => self.may_leave_synced(alloc, store, left.len()),
            Release::Early => self.may_leave_early(alloc, store, left.len()),
        }
    }

    /// What is left, of so many bytes, has to have all lines that were carried out before something was given out. An empty store
    /// that carries it out replies what was given out.
    fn may_leave_synced(&self, alloc: Global, store: &mut Plain, left: usize) -> Result<(), Wrong> {
        if left < self.sure {
            return Err(Wrong::Lost);
        }
        let mut replies = Vec::new(alloc);
        self.reply(alloc, store, left, &mut replies)?;
        self.has_given_of(alloc, &replies)
    }

    /// What is left, of so many bytes, has to have all lines up to each `commit` to which a part of `committed` was given out. An
    /// empty store that carries out all lines of this life, those that are lost among them, replies what was given out.
    fn may_leave_early(&self, alloc: Global, store: &mut Plain, left: usize) -> Result<(), Wrong> {
        let mut replies = Vec::new(alloc);
        self.reply(alloc, store, usize::MAX, &mut replies)?;
        self.has_given_of(alloc, &replies)?;
        for token in 0..CONNECTIONS {
            let given = bytes_for(alloc, &self.given, token)?.len();
            self.keeps_commits(token, given, &replies, left)?;
        }
        Ok(())
    }

    /// Looks whether the commits are left of which the connection was given a part of the reply. It was given so many bytes.
    fn keeps_commits(
        &self,
        token: u64,
        given: usize,
        replies: &[Piece],
        left: usize,
    ) -> Result<(), Wrong> {
        let mut begin = 0usize;
        for (step, reply) in self.steps.iter().zip(replies) {
            if step.token != token {
                continue;
            }
            if begin >= given {
                return Ok(());
            }
            if reply.bytes.as_slice() == b"committed\n".as_slice() && step.end > left {
                return Err(Wrong::Lost);
            }
            begin = begin.saturating_add(reply.bytes.len());
        }
        Ok(())
    }

    /// Adds what a store replies to the lines that follow only such as are left, which have so many bytes.
    fn reply(
        &self,
        alloc: Global,
        store: &mut Plain,
        left: usize,
        replies: &mut Vec<Piece>,
    ) -> Result<(), Wrong> {
        carry_out_log(alloc, store, &self.start)?;
        for step in &self.steps {
            if step.end > left {
                return Ok(());
            }
            step.reply(alloc, store, replies)?;
        }
        Ok(())
    }

    /// Looks whether what was given out to each connection is the front of these replies.
    fn has_given_of(&self, alloc: Global, replies: &[Piece]) -> Result<(), Wrong> {
        for token in 0..CONNECTIONS {
            let given = bytes_for(alloc, &self.given, token)?;
            if !bytes_for(alloc, replies, token)?.starts_with(&given) {
                return Err(Wrong::Reply);
            }
        }
        Ok(())
    }

    /// Returns what this life has shown, if a crash has left this text.
    pub fn seen(&self, text: &[u8]) -> Seen {
        let left = whole_lines(text).len();
        Seen {
            given: !self.given.is_empty(),
            early: self.was_early,
            kept: left > self.sure,
            lost: left < self.all.len(),
            torn: left < text.len(),
            full: self.was_full,
            failed: self.has_failed,
        }
    }
}

fn add_piece(pieces: &mut Vec<Piece>, token: u64, bytes: Vec<u8>) -> Result<(), AllocError> {
    pieces.push(Piece { token, bytes })?;
    Ok(())
}

/// Returns the pieces for this connection, one after the other.
fn bytes_for(alloc: Global, pieces: &[Piece], token: u64) -> Result<Vec<u8>, AllocError> {
    let mut bytes = Vec::new(alloc);
    for piece in pieces {
        if piece.token == token {
            bytes.extend_from_slice(&piece.bytes)?;
        }
    }
    Ok(bytes)
}
