//! Inputs that never end: a bound on the calls ends them.

use crate::answers::{Answers, answers_to};
use crate::texts::are_accepted;
use adya_testing::Endless;
use devices::Watched;
use ssi_cli::run_script;
use ssi_line::End;
use std::alloc::Global;

/// How many reads are made.
const READS: u32 = 10;

/// Whether an endless line is read as far as the bound allows, and is no command.
pub(crate) fn serves_a_line(alloc: Global) -> Option<bool> {
    let answers = answers_to_endless(alloc, b'a')?;
    Some(answers.replies.is_empty() && are_nothing(&answers))
}

/// Whether each line feed ends a line, which is empty.
pub(crate) fn serves_line_feeds(alloc: Global) -> Option<bool> {
    let answers = answers_to_endless(alloc, b'\n')?;
    let replies = str::from_utf8(&answers.replies).ok()?;
    // each read gives at least one
    Some(
        replies.lines().count() >= READS as usize
            && replies.lines().all(|reply| reply == "? syntax")
            && are_nothing(&answers),
    )
}

/// Returns what a new store makes of an endless input; nothing if it doesn't end by the fault of a read.
fn answers_to_endless(alloc: Global, byte: u8) -> Option<Answers> {
    let mut input = Watched::with_bound(Endless(byte), READS);
    let answers = answers_to(alloc, &mut input)?;
    if answers.end == End::ReadFault && input.failed() {
        Some(answers)
    } else {
        None
    }
}

/// Whether the texts are those of a store that has carried out nothing.
fn are_nothing(answers: &Answers) -> bool {
    answers.texts.history.as_slice() == b"adya 1\nend\n".as_slice()
        && answers.texts.certificate.as_slice() == b"serial 1\nend\n".as_slice()
        && are_accepted(&answers.texts)
}

/// Whether a script that is an endless line is read as far as the bound allows, and the texts are written.
pub(crate) fn runs_a_line(alloc: Global) -> bool {
    let mut input = Watched::with_bound(Endless(b'a'), READS);
    let mut output = Watched::new(Vec::new(alloc));
    let mut history = Watched::new(Vec::new(alloc));
    let mut certificate = Watched::new(Vec::new(alloc));
    let ended = run_script(
        alloc,
        &mut input,
        &mut output,
        &mut history,
        &mut certificate,
    );
    let history = history.into_inner();
    let certificate = certificate.into_inner();
    output.into_inner().is_empty()
        && ended == Ok(End::ReadFault)
        && input.failed()
        && history.as_slice() == b"adya 1\nend\n".as_slice()
        && certificate.as_slice() == b"serial 1\nend\n".as_slice()
}
