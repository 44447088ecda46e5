//! Reading lines.

ghost use Rattle.std.specs.Prelude.{◌≡◌, option_map, MatchOption};
ghost use Rattle.std.specs.Int.NonZero.{non_zero_u16_get};
ghost use Rattle.adya_line.specs.Computing.Reading.{Gives};
ghost use Rattle.ssi_store.specs.Mirror.Commands.{command_of};
ghost use Rattle.ssi_line.specs.Meaning.Spelling.{IsNoLine};
ghost use Rattle.ssi_line.specs.Clauses.Reading.{line_of, IsOnlyLineOf};
ghost use Rattle.ssi_line.specs.Computing.Reading.{cut, one_word, of_session, of_key, limit_at, limited, scan_at, of_more, with_key, command_at, line_at};

use crate::Line;
use adya_line::laws::txn_lines;
use adya_line::txn;
use adya_values::{Key, Value};
use memchr::memchr;
use ssi_store::{Command, Session};
use std::num::NonZeroU16;

/// Reads a line, without its line feed. Returns what it asks for, and `None` if and only if it asks for nothing.
pub fn read_line(text: &[u8]) -> Option<Line>
    ensures { MatchOption result (IsNoLine text.now) (λ x. IsOnlyLineOf (line_of x) text.now) }
{
    txn_lines();
    line_at(text)
}

#[tactic(auto, unfolding(crate::specs::Computing::Reading::line_at))]
fn line_at(text: &[u8]) -> Option<Line>
    ensures { Gives line_of result (line_at text.now) }
{
    let (word, rest) = cut(text);
    match rest {
        None => one_word(word),
        Some(rest) => Some(Line::Do(command_at(word, rest)?)),
    }
}

/// Returns the bytes before the first space, and what follows it, if there is one.
fn cut(text: &[u8]) -> (&[u8], Option<&[u8]>)
    ensures word { (cut text.now).0 ≡ result.0.now }
    ensures rest { Gives (λ x. x.now) result.1 (cut text.now).1 }
{
    match memchr(b' ', text) {
        Some(at) => (&text[..at], Some(&text[at + 1..])),
        None => (text, None),
    }
}

#[tactic(auto, unfolding(crate::specs::Computing::Reading::one_word))]
fn one_word(word: &[u8]) -> Option<Line>
    ensures { Gives line_of result (one_word word.now) }
{
    if word == b"stop".as_slice() {
        return Some(Line::Stop);
    }
    if word == b"dump".as_slice() {
        return Some(Line::Dump);
    }
    if word == b"collect".as_slice() {
        return Some(Line::Do(Command::Collect));
    }
    if word == b"stat".as_slice() {
        return Some(Line::Do(Command::Stat));
    }
    None
}

/// Reads a command of more than one word: `rest` follows the first.
#[tactic(auto, unfolding(crate::specs::Computing::Reading::command_at))]
fn command_at(word: &[u8], rest: &[u8]) -> Option<Command>
    ensures { Gives command_of result (command_at word.now rest.now) }
{
    let (name, rest) = cut(rest);
    let session = Session::new(name)?;
    match rest {
        None => of_session(word, session),
        Some(rest) => with_key(word, session, rest),
    }
}

#[tactic(auto, unfolding(crate::specs::Computing::Reading::of_session))]
fn of_session(word: &[u8], session: Session) -> Option<Command>
    ensures { Gives command_of result (of_session word.now session) }
{
    if word == b"begin".as_slice() {
        return Some(Command::Begin { session });
    }
    if word == b"commit".as_slice() {
        return Some(Command::Commit { session });
    }
    if word == b"abort".as_slice() {
        return Some(Command::Abort { session });
    }
    None
}

#[tactic(auto, unfolding(crate::specs::Computing::Reading::with_key))]
fn with_key(word: &[u8], session: Session, rest: &[u8]) -> Option<Command>
    ensures { Gives command_of result (with_key word.now session rest.now) }
{
    let (name, rest) = cut(rest);
    let key = Key::new(name).ok()?;
    match rest {
        None => of_key(word, session, key),
        Some(rest) => of_more(word, session, key, rest),
    }
}

#[tactic(auto, unfolding(crate::specs::Computing::Reading::of_key))]
fn of_key(word: &[u8], session: Session, key: Key) -> Option<Command>
    ensures { Gives command_of result (of_key word.now session key) }
{
    if word == b"get".as_slice() {
        return Some(Command::Get { session, key });
    }
    if word == b"del".as_slice() {
        return Some(Command::Del { session, key });
    }
    None
}

#[tactic(auto, unfolding(crate::specs::Computing::Reading::of_more))]
fn of_more(word: &[u8], session: Session, key: Key, rest: &[u8]) -> Option<Command>
    ensures { Gives command_of result (of_more word.now session key rest.now) }
{
    if word == b"put".as_slice() {
        let value = Value::new(rest).ok()?;
        return Some(Command::Put {
            session,
            key,
            value,
        });
    }
    if word == b"scan".as_slice() {
        return scan_at(session, key, rest);
    }
    None
}

#[tactic(auto, unfolding(crate::specs::Computing::Reading::scan_at))]
fn scan_at(session: Session, low: Key, rest: &[u8]) -> Option<Command>
    ensures { Gives command_of result (scan_at session low rest.now) }
{
    let (name, rest) = cut(rest);
    let high = Key::new(name).ok()?;
    match rest {
        None => Some(Command::Scan { session, low, high }),
        Some(rest) => Some(Command::ScanFirst {
            session,
            low,
            high,
            limit: limit_at(rest)?,
        }),
    }
}

/// Reads the limit of a scan. It is spelled as a transaction's number is.
#[tactic(auto, unfolding(crate::specs::Computing::Reading::limit_at))]
fn limit_at(text: &[u8]) -> Option<NonZeroU16>
    ensures { Gives non_zero_u16_get result (limit_at text.now) }
{
    let number = txn(text)?.get();
    NonZeroU16::new(u16::try_from(number).ok()?)
}
