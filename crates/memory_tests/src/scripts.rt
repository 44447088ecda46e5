//! Courses as scripts, which can't give a command again.

use crate::courses::Course;
use crate::tally::{Tally, again};
use crate::wanted::{is_met, wanting};
use adya_audit::{RunFault, run_audit};
use adya_testing::Pieces;
use devices::Watched;
use ssi_cli::{ScriptFault, run_script};
use ssi_line::End;
use std::alloc::{AllocError, Global};

const ROOM: usize = 4096;

const REFUSAL: &str = "! 6 memory\n";

/// Room for the texts that a script writes, so that writing them takes no memory.
#[derive(Drop)]
pub(crate) struct Spare {
    pub(crate) replies: Vec<u8>,
    pub(crate) history: Vec<u8>,
    pub(crate) certificate: Vec<u8>,
}

impl Spare {
    /// Makes room for three texts.
    pub(crate) fn new(alloc: Global) -> Result<Spare, AllocError> {
        Ok(Spare {
            replies: Vec::with_capacity(alloc, ROOM)?,
            history: Vec::with_capacity(alloc, ROOM)?,
            certificate: Vec::with_capacity(alloc, ROOM)?,
        })
    }
}

/// Runs the commands of the course as a script. If memory ran out at the end, neither text was begun. If it ran out at
/// a command, one reply says so, and both texts are accepted.
pub(crate) fn run(tally: &mut Tally, spare: Spare, course: &Course) -> Result<(), &'static str> {
    let mut input = Watched::new(Pieces::new(course.commands.as_bytes(), ROOM));
    let mut replies = Watched::new(spare.replies);
    let mut history = Watched::new(spare.history);
    let mut certificate = Watched::new(spare.certificate);
    let ran = run_script(
        tally.alloc(),
        &mut input,
        &mut replies,
        &mut history,
        &mut certificate,
    );
    let written = Spare {
        replies: replies.into_inner(),
        history: history.into_inner(),
        certificate: certificate.into_inner(),
    };
    match ran {
        Ok(End::Eof) => ended(tally, &written, course),
        Err(ScriptFault::Memory) => not_ended(tally, &written, course),
        _ => Err("another end"),
    }
}

fn ended(tally: &mut Tally, written: &Spare, course: &Course) -> Result<(), &'static str> {
    match text(&written.replies).split_once(REFUSAL) {
        Some((before, after)) => {
            tally.refuse();
            if !course.replies.starts_with(before) || after.contains(REFUSAL) {
                return Err("other replies than one refusal");
            }
        }
        None if !are_texts(written, course) => return Err("another text"),
        None => {}
    }
    audited(tally, &written.history, &written.certificate)
}

fn are_texts(written: &Spare, course: &Course) -> bool {
    text(&written.replies) == course.replies
        && text(&written.history) == course.history
        && text(&written.certificate) == course.certificate
}

fn not_ended(tally: &mut Tally, written: &Spare, course: &Course) -> Result<(), &'static str> {
    tally.refuse();
    if text(&written.replies) != course.replies {
        return Err("other replies before the end");
    }
    if !written.history.is_empty() || !written.certificate.is_empty() {
        return Err("a text of a run out of memory");
    }
    Ok(())
}

fn audited(tally: &mut Tally, history: &[u8], certificate: &[u8]) -> Result<(), &'static str> {
    let mut out = wanting(b"yes\n");
    let _ = again!(
        tally,
        Err(RunFault::Memory),
        run_audit(
            tally.alloc(),
            &mut Watched::new(Pieces::new(history, ROOM)),
            &mut Watched::new(Pieces::new(certificate, ROOM)),
            &mut out,
        )
    );
    if !is_met(out) {
        return Err("not accepted");
    }
    Ok(())
}

fn text(bytes: &[u8]) -> &str {
    str::from_utf8(bytes).unwrap_or("no text")
}
