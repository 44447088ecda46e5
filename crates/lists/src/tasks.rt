//! What the program does.

use crate::arguments::command_line;
use crate::hint;
use crate::late_file::LateFile;
use append_text::TextForm;
use clap::{ArgMatches, Error};
use devices::{Source, Watched};
use lists_cli::{Answered, Basis, Fault, Shape, judge};
use lists_verdicts::Status;
use progress::{Counted, Progress, Reporter};
use std::alloc::{AllocError, Global};
use std::env::Args;
use std::fs::Files;
use std::io::ErrorKind;
use std::rt::{Env, Runtime};
use std::{env, fs, io};

/// What is done with an input.
#[derive(Clone, Copy)]
struct Task<'a> {
    form: Option<TextForm>,
    shape: Shape,
    /// The file for the order, and the one for the drawing.
    order: Option<&'a str>,
    drawing: Option<&'a str>,
}

/// Does what the arguments ask for, and prints a fault on standard error. If the progress is shown, and the work takes
/// more than two seconds, standard error also says how much has been read.
pub fn run<R: Runtime + AllocGlobal>(rt: &R, progress: Progress) -> Status {
    let Ok(arguments) = env::args(rt) else {
        let _ = eprintln!(rt; "lists: the arguments can't be read");
        return Status::Wrong;
    };
    let Ok(arguments) = listed(rt.alloc(), arguments) else {
        return out_of_memory(rt);
    };
    let Ok(command) = command_line(rt.alloc()) else {
        return out_of_memory(rt);
    };
    match command.try_get_matches_from(&arguments) {
        Ok(given) => judged(rt, &given, progress),
        Err(text) => printed(rt, &text),
    }
}

fn listed(alloc: Global, arguments: Args) -> Result<Vec<String>, AllocError> {
    let mut listed = Vec::new(alloc);
    for argument in arguments {
        listed.push(argument)?;
    }
    Ok(listed)
}

/// Reads the file that is named, or standard input, and answers.
fn judged<R: Runtime + AllocGlobal>(rt: &R, given: &ArgMatches<'_>, progress: Progress) -> Status {
    let form = match given.get_str("format") {
        None => None,
        Some("edn") => Some(TextForm::Edn),
        Some("json") => Some(TextForm::Json),
        Some(_) => {
            let _ = eprintln!(rt; "lists: the form is `edn` or `json`");
            return Status::Wrong;
        }
    };
    let task = Task {
        form,
        shape: if given.get_flag("json") {
            Shape::Json
        } else {
            Shape::Words
        },
        order: given.get_str("order"),
        drawing: given.get_str("dot"),
    };
    let mut reporter = Reporter::new(rt, "lists", progress);
    match given.get_str("FILE") {
        Some(path) => match fs::open(rt, path) {
            Ok(file) => {
                let mut input = Watched::new(Counted::new(&mut reporter, file));
                answered(rt, &mut input, Some(path), task)
            }
            Err(e) => unread(rt, path, e.kind()),
        },
        None => {
            let mut input = Watched::new(Counted::new(&mut reporter, rt.reader()));
            answered(rt, &mut input, None, task)
        }
    }
}

fn answered<R: Runtime + AllocGlobal, S: Source>(
    rt: &R,
    input: &mut S,
    path: Option<&str>,
    task: Task<'_>,
) -> Status {
    let mut order = Watched::new(LateFile::new(rt, task.order));
    let mut drawing = Watched::new(LateFile::new(rt, task.drawing));
    let mut output = Watched::new(io::writer(rt));
    match judge(
        rt.alloc(),
        input,
        task.form,
        task.shape,
        &mut order,
        &mut drawing,
        &mut output,
    ) {
        Ok(Answered { answer, basis }) => {
            say_basis(rt, &basis);
            answer.status()
        }
        Err(fault) => failed(rt, fault, path, task),
    }
}

/// Says on standard error what the answer rests on.
fn say_basis<R: Eprint>(rt: &R, basis: &Basis) {
    let _ = eprintln!(rt;
        "lists: rests on {} transactions ok, {} info, {} fail; {} reads of {} elements; passed over {} operations of another :f, {} of another :process",
        basis.ok,
        basis.info,
        basis.fail,
        basis.reads,
        basis.elements,
        basis.passed_over.other_function,
        basis.passed_over.other_process
    );
}

// Help is an answer. Whatever else the parser prints is about wrong arguments.
fn printed<R: Print + Eprint>(rt: &R, text: &Error) -> Status {
    let done = text.print(rt);
    if text.use_stderr() {
        return Status::Wrong;
    }
    match done {
        Ok(()) => Status::Fine,
        Err(_) => {
            let _ = eprintln!(rt; "lists: write fault: stdout");
            Status::Failed
        }
    }
}

fn out_of_memory<R: Eprint>(rt: &R) -> Status {
    let _ = eprintln!(rt; "lists: memory");
    Status::Failed
}

fn failed<R: Files + Eprint + AllocGlobal>(
    rt: &R,
    fault: Fault,
    input: Option<&str>,
    task: Task<'_>,
) -> Status {
    match fault {
        Fault::Text { place, problem } => {
            hint::say(rt, input.unwrap_or("/dev/stdin"), place, problem);
            Status::Wrong
        }
        Fault::Many => {
            let _ = eprintln!(rt; "lists: too many transactions");
            Status::Wrong
        }
        Fault::Read => {
            let _ = eprintln!(rt; "lists: read fault: {}", input.unwrap_or("stdin"));
            Status::Failed
        }
        Fault::Order => unwritten(rt, task.order.unwrap_or("order")),
        Fault::Drawing => unwritten(rt, task.drawing.unwrap_or("drawing")),
        Fault::Write => unwritten(rt, "stdout"),
        Fault::Memory => out_of_memory(rt),
    }
}

fn unread<R: Eprint>(rt: &R, path: &str, kind: ErrorKind) -> Status {
    let reason = match kind {
        ErrorKind::NotFound => "there is no such file",
        ErrorKind::NotADirectory => "a part of the path is not a folder",
        ErrorKind::PermissionDenied => "permission denied",
        ErrorKind::InvalidFilename => "a name in the path is too long",
        _ => "it can't be opened",
    };
    let _ = eprintln!(rt; "lists: read fault: {path}: {reason}");
    Status::Failed
}

fn unwritten<R: Eprint>(rt: &R, name: &str) -> Status {
    let _ = eprintln!(rt; "lists: write fault: {name}");
    Status::Failed
}
