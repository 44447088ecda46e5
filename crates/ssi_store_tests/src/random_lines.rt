//! Lines made by chance: any bytes, and words of commands in any order.

ghost use Rattle.std.specs.Prelude.{◌<◌};

use crate::answers::answers_to;
use crate::texts::are_accepted;
use crate::worked::{lines_of, text};
use adya_testing::Pieces;
use devices::Watched;
use ssi_line::End;
use std::alloc::{AllocError, Global};
use std::{fs, io};

/// How many lines there are.
const LINES: u32 = 100_000;

/// Pseudo-random numbers, the same for the same seed. The constants are those of Knuth's MMIX.
#[derive(Drop)]
struct Random {
    state: u64,
}

impl Random {
    fn below(&mut self, limit: usize) -> usize
        requires { 0 < limit }
        ensures { result < limit }
    {
        self.state = self
            .state
            .wrapping_mul(6_364_136_223_846_793_005)
            .wrapping_add(1_442_695_040_888_963_407);
        (self.state >> 33) as usize % limit
    }

    /// Adds 4,090 to 4,101 letters.
    fn push_long(&mut self, script: &mut Vec<u8>) -> Result<(), AllocError> {
        for _ in 0..4090 + self.below(12) {
            script.push(b'a')?;
        }
        Ok(())
    }

    /// Adds up to 40 bytes, none of them a line feed.
    fn push_bytes(&mut self, script: &mut Vec<u8>) -> Result<(), AllocError> {
        for _ in 0..self.below(41) {
            let byte = self.below(256) as u8;
            script.push(if byte == b'\n' { b' ' } else { byte })?;
        }
        Ok(())
    }

    /// Returns one of the line's eight words.
    fn word<'a>(&mut self, line: &'a str) -> Option<&'a str> {
        line.split(' ').nth(self.below(8))
    }

    fn space(&mut self) -> &'static [u8] {
        match self.below(40) {
            0 => b"  ",
            1 => b"\t",
            2 => b"",
            _ => b" ",
        }
    }
}

/// The lines of the file `random_words`: first 16 commands, and then by their place the words that may follow the first
/// one. They are sessions, keys, keys and values, and limits; and some that are none. `stop` and `dump` aren't among the
/// commands.
#[derive(Drop)]
struct Words<'a> {
    lines: &'a [&'a str],
}

impl Words<'_> {
    /// Adds a line, of bytes or of words.
    fn push_line(&self, random: &mut Random, script: &mut Vec<u8>) -> Option<()> {
        match random.below(1000) {
            0 => random.push_long(script).ok()?,
            1..500 => random.push_bytes(script).ok()?,
            _ => self.push_words(random, script)?,
        }
        script.push(b'\n').ok()
    }

    /// Adds one to five words, mostly with one space between them and as many as the command has.
    fn push_words(&self, random: &mut Random, script: &mut Vec<u8>) -> Option<()> {
        let mut words = self.lines.get(random.below(16))?.split(' ');
        script.extend_from_slice(words.next()?.as_bytes()).ok()?;
        let more = if random.below(8) == 0 {
            random.below(5)
        } else {
            words.count()
        };
        for line in self.lines.iter().skip(16).take(more) {
            script.extend_from_slice(random.space()).ok()?;
            script
                .extend_from_slice(random.word(line)?.as_bytes())
                .ok()?;
        }
        Some(())
    }

    fn script(&self, alloc: Global) -> Option<Vec<u8>> {
        let mut random = Random { state: 1 };
        let mut script = Vec::new(alloc);
        for _ in 0..LINES {
            self.push_line(&mut random, &mut script)?;
        }
        Some(script)
    }
}

/// Whether the lines made by chance are answered.
pub(crate) fn are_answered(rt: &HostRuntime) -> io::Result<bool> {
    let alloc = rt.alloc();
    let words = fs::read(rt, "random_words")?;
    let replies = fs::read(rt, "random_replies")?;
    let words = lines_of(alloc, text(&words))?;
    let replies = lines_of(alloc, text(&replies))?;
    Ok(is_answered(alloc, Words { lines: &words }, &replies) == Some(true))
}

fn is_answered(alloc: Global, words: Words<'_>, forms: &[&str]) -> Option<bool> {
    let script = words.script(alloc)?;
    let mut input = Watched::new(Pieces::new(&script, 1000));
    let answers = answers_to(alloc, &mut input)?;
    Some(
        answers.end == End::Eof
            && are_accepted(&answers.texts)
            && are_fitting(&script, &answers.replies, forms)
            && are_met(&answers.replies, forms),
    )
}

/// Whether each line gets one reply, and one that it can get. A line of the file `random_replies` is the front of a
/// reply and, after a bar, the first words of the lines that get it. Memory is ample, numbers are left, and no
/// transaction is long.
fn are_fitting(script: &[u8], replies: &[u8], forms: &[&str]) -> bool {
    let mut replies = replies.split(|b| *b == b'\n');
    let mut lines = script.split(|b| *b == b'\n').take(LINES as usize);
    let are_fitting = lines.all(|line| match replies.next() {
        Some(reply) => is_fitting(line, reply, forms),
        None => false,
    });
    are_fitting && replies.next() == Some(b"".as_slice()) && replies.next().is_none()
}

/// Whether the line can get the reply.
fn is_fitting(line: &[u8], reply: &[u8], forms: &[&str]) -> bool {
    match reply {
        b"? long" => line.len() > 4096,
        b"? syntax" => line.len() <= 4096,
        b"! 3 range" => line.starts_with(b"scan "),
        _ => {
            let command = line.split(|b| *b == b' ').next().unwrap_or(b"");
            forms.iter().any(|form| is_of(form, command, reply))
        }
    }
}

/// Whether the reply and the command are of this form.
fn is_of(form: &str, command: &[u8], reply: &[u8]) -> bool {
    match form.split_once('|') {
        Some((front, commands)) => {
            reply.starts_with(front.as_bytes())
                && commands.split(' ').any(|word| word.as_bytes() == command)
        }
        None => false,
    }
}

/// Whether there are replies of all forms.
fn are_met(replies: &[u8], forms: &[&str]) -> bool {
    let fronts = ["? syntax", "? long", "! 3 range"];
    fronts.iter().all(|front| is_begun(front, replies))
        && forms.iter().all(|form| match form.split_once('|') {
            Some((front, _)) => is_begun(front, replies),
            None => false,
        })
}

/// Whether a reply begins so.
fn is_begun(front: &str, replies: &[u8]) -> bool {
    replies
        .split(|b| *b == b'\n')
        .any(|reply| reply.starts_with(front.as_bytes()))
}
