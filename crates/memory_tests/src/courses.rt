//! Courses of a store: each command, the dumps and the end.

use crate::tally::{Tally, again};
use crate::wanted::{Wanted, is_history, is_met, is_serial, wanting};
use adya_text::{write_history, write_serial};
use devices::Watched;
use ssi_certify::certify;
use ssi_line::{Line, read_line, write_reply};
use ssi_reads::{IndexMarks, ListMarks, Marks};
use ssi_store::{Command, Finished, Refusal, Reply, Store};
use ssi_versions::{Chains, KeyChains, PlainChains};
use std::alloc::AllocError;

/// A worked course.
#[derive(Drop)]
pub(crate) struct Course<'a> {
    pub(crate) commands: &'a str,
    pub(crate) replies: &'a str,
    pub(crate) history: &'a str,
    pub(crate) certificate: &'a str,
}

impl<'a> Course<'a> {
    /// Returns the course of these texts.
    pub(crate) fn of(texts: &'a str) -> Result<Course<'a>, &'static str> {
        let (commands, rest) = texts.split_once("%\n").ok_or("no replies")?;
        let (replies, rest) = rest.split_once("%\n").ok_or("no history")?;
        let (history, certificate) = rest.split_once("%\n").ok_or("no certificate")?;
        Ok(Course {
            commands,
            replies,
            history,
            certificate,
        })
    }
}

/// Carries out the course by keys and by an index of the marks.
pub(crate) fn over_keys(tally: &mut Tally, course: &Course) -> Result<(), &'static str> {
    let alloc = tally.alloc();
    let store = Store::new(alloc, KeyChains::new(alloc), IndexMarks::new(alloc));
    carry_out(tally, store, course)
}

/// Carries out the course by plain lists.
pub(crate) fn over_lists(tally: &mut Tally, course: &Course) -> Result<(), &'static str> {
    let alloc = tally.alloc();
    let store = Store::new(alloc, PlainChains::new(alloc), ListMarks::new(alloc));
    carry_out(tally, store, course)
}

fn carry_out<C: Chains + Drop, M: Marks + Drop>(
    tally: &mut Tally,
    mut store: Store<C, M>,
    course: &Course,
) -> Result<(), &'static str> {
    let replied = reply_to_all(tally, &mut store, course);
    let finished = finished(tally, store);
    replied?;
    is_recorded(tally, &finished?, course)
}

fn reply_to_all<C: Chains + Drop, M: Marks + Drop>(
    tally: &mut Tally,
    store: &mut Store<C, M>,
    course: &Course,
) -> Result<(), &'static str> {
    let mut replies = wanting(course.replies.as_bytes());
    for line in course.commands.lines() {
        answer(tally, store, line, &mut replies)?;
    }
    if is_met(replies) {
        Ok(())
    } else {
        Err("too few replies")
    }
}

/// Whether the history is the wanted one, and so is its certificate.
fn is_recorded(
    tally: &mut Tally,
    finished: &Finished,
    course: &Course,
) -> Result<(), &'static str> {
    if !is_history(finished.history(), course.history.as_bytes()) {
        return Err("another history");
    }
    match again!(tally, Err(AllocError), certify(tally.alloc(), finished)) {
        Ok(serial) if is_serial(&serial, course.certificate.as_bytes()) => Ok(()),
        Ok(_) => Err("another certificate"),
        Err(_) => Err("no certificate at the second try"),
    }
}

fn answer<C: Chains + Drop, M: Marks + Drop>(
    tally: &mut Tally,
    store: &mut Store<C, M>,
    line: &str,
    replies: &mut Watched<Wanted>,
) -> Result<(), &'static str> {
    match read_line(line.as_bytes()) {
        Some(Line::Do(command)) => {
            let answer = applied(tally, store, command)?;
            write_reply(&answer, replies).map_err(|_| "another reply")
        }
        Some(Line::Dump) => dump(tally, store, replies),
        Some(Line::Stop) | None => Err("a line that is no command"),
    }
}

/// Gives the command to the store. If it is refused memory, the counts of the store must be as before, and it is given
/// once more.
fn applied<C: Chains + Drop, M: Marks + Drop>(
    tally: &mut Tally,
    store: &mut Store<C, M>,
    command: Command,
) -> Result<Result<Reply, Refusal>, &'static str> {
    let before = counts(store);
    let answer = store.apply(command);
    if !matches!(answer, Err(Refusal::Memory)) {
        return Ok(answer);
    }
    tally.refuse();
    if counts(store) != before {
        return Err("other counts after a refusal");
    }
    Ok(store.apply(command))
}

/// Returns how many transactions are open and kept, and how many versions and keys are held.
fn counts<C: Chains + Drop, M: Marks + Drop>(
    store: &mut Store<C, M>,
) -> Option<(u64, u64, u64, u64)> {
    match store.apply(Command::Stat) {
        Ok(
            Reply::Stat {
                open_txns,
                kept,
                versions,
                keys,
            },
        ) => Some((open_txns, kept, versions, keys)),
        _ => None,
    }
}

fn dump<C: Chains + Drop, M: Marks + Drop>(
    tally: &mut Tally,
    store: &Store<C, M>,
    out: &mut Watched<Wanted>,
) -> Result<(), &'static str> {
    let Ok(dumped) = again!(tally, Err(AllocError), store.dump()) else {
        return Err("no dump at the second try");
    };
    let Ok(serial) = again!(tally, Err(AllocError), certify(tally.alloc(), &dumped)) else {
        return Err("no certificate of a dump at the second try");
    };
    let written = write_history(dumped.history(), out).and_then(|_| write_serial(&serial, out));
    written.map_err(|_| "another dump")
}

fn finished<C: Chains + Drop, M: Marks + Drop>(
    tally: &mut Tally,
    store: Store<C, M>,
) -> Result<Finished, &'static str> {
    let finished = match store.finish() {
        Err((store, _)) => {
            tally.refuse();
            store.finish()
        }
        finished => finished,
    };
    match finished {
        Ok(finished) => Ok(finished),
        Err(_) => Err("no end at the second try"),
    }
}
