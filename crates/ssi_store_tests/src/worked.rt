//! Worked courses.

use crate::courses::over_all;
use crate::runs::{After, Outcome};
use crate::scripts::of_script;
use crate::texts::are_accepted;
use adya_values::Txn;
use std::alloc::{AllocError, Global};
use std::{fs, io};

/// A course that was worked by hand: its command lines, and what they must make.
#[derive(Drop)]
pub(crate) struct Worked {
    pub(crate) commands: Vec<u8>,
    pub(crate) replies: Vec<u8>,
    pub(crate) history: Vec<u8>,
    pub(crate) certificate: Vec<u8>,
}

/// Returns the worked course of the folder.
pub(crate) fn worked_in(rt: &HostRuntime, name: &str) -> io::Result<Worked> {
    Ok(Worked {
        commands: file(rt, name, "commands")?,
        replies: file(rt, name, "replies")?,
        history: file(rt, name, "history")?,
        certificate: file(rt, name, "certificate")?,
    })
}

/// Returns the line of a worked course.
pub(crate) fn line_of(rt: &HostRuntime, name: &str) -> io::Result<String> {
    Ok(line(rt.alloc(), name, &worked_in(rt, name)?)?)
}

fn line(alloc: Global, name: &str, worked: &Worked) -> Result<String, AllocError> {
    let lines = lines_of(alloc, text(&worked.commands))?;
    let plain = of_course(alloc, &lines, After::Nothing, worked);
    let collecting = of_course(alloc, &lines, After::Collect, worked);
    let dumping = of_course(alloc, &lines, After::Dump, worked);
    let script = as_script(alloc, worked);
    format!(in alloc;
        "{name}: {plain}, with collections {collecting}, with dumps {dumping}, as a script {script}\n"
    )
}

/// Returns the bytes of a file of the worked course.
fn file(rt: &HostRuntime, name: &str, file: &str) -> io::Result<Vec<u8>> {
    fs::read(rt, format!(in rt.alloc(); "{name}/{file}")?)
}

/// Returns the text if the bytes are one; nothing otherwise.
pub(crate) fn text(bytes: &[u8]) -> &str {
    str::from_utf8(bytes).unwrap_or("")
}

/// Returns the lines of the text.
pub(crate) fn lines_of<'a>(alloc: Global, text: &'a str) -> Result<Vec<&'a str>, AllocError> {
    let mut lines = Vec::new(alloc);
    for line in text.lines() {
        lines.push(line)?;
    }
    Ok(lines)
}

/// Returns `as worked` if the course makes what it must make, and otherwise what differs.
fn of_course(alloc: Global, lines: &[&str], after: After, worked: &Worked) -> &'static str {
    let Ok(first) = Txn::new(1) else {
        return "no number";
    };
    let Some(outcome) = over_all(alloc, first, lines, after) else {
        return "no outcome";
    };
    if outcome.replies != worked.replies {
        return "other replies";
    }
    if Some(&outcome.texts.starts) != starts_by(alloc, text(&worked.replies)).as_ref() {
        return "other snapshots";
    }
    said_of_texts(&outcome, worked)
}

/// Returns each transaction with its snapshot, by the replies of a course: how many were committed when it began.
fn starts_by(alloc: Global, replies: &str) -> Option<Vec<(Txn, u64)>> {
    let mut starts = Vec::new(alloc);
    let mut commits = 0u64;
    for reply in replies.lines() {
        if reply == "committed" {
            commits = commits.saturating_add(1);
        }
        if let Some(number) = reply.strip_prefix("begun ") {
            let txn = Txn::new(number.parse().ok()?).ok()?;
            starts.push((txn, commits)).ok()?;
        }
    }
    Some(starts)
}

/// Returns `as worked` if the commands as a script make what they must make, and otherwise what differs.
fn as_script(alloc: Global, worked: &Worked) -> &'static str {
    let Some(written) = of_script(alloc, &worked.commands) else {
        return "nothing";
    };
    if written.replies != worked.replies {
        return "other replies";
    }
    if written.history != worked.history || written.certificate != worked.certificate {
        return "other texts";
    }
    if written.is_stopped != worked.commands.ends_with(b"stop\n") {
        return "another end";
    }
    "as worked"
}

fn said_of_texts(outcome: &Outcome, worked: &Worked) -> &'static str {
    if outcome.texts.history != worked.history {
        return "another history";
    }
    if outcome.texts.certificate != worked.certificate {
        return "another certificate";
    }
    if !are_accepted(&outcome.texts) {
        return "not accepted";
    }
    "as worked"
}
