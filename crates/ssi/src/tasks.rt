//! What the program does.

ghost use Rattle.std.specs.Prelude.{◌≡◌, ◌≢◌, ◌⊎◌};
ghost use Rattle.clap.specs.Words.{kind_of};
ghost use Rattle.clap.specs.declared.error.kind.ErrorKind.TheVariants.{DisplayHelp, DisplayVersion};

use crate::data::DataService;
use crate::hint::hint;
use crate::late_file::LateFile;
use crate::noted::Noted;
use crate::output_file::OutputFile;
use crate::places::lead_to_one_file;
use crate::problem::{Problem, unbound, unwritable};
use crate::seal::seal;
use crate::sockets::{bound, polled};
use clap::Error;
use devices::Watched;
use progress::{Counted, Progress, Reporter};
use ssi_arguments::{
    LeftOpen, Manner, NoTask, Replies, SEGMENT, Task, given_arguments, idle_seconds, segment_len,
    task_of,
};
use ssi_cli::{
    AtClose, Fault, ServingFault, Status, carry_out_commands, judge_stream, judge_texts,
    order_text, serve_commands, serve_commands_together,
};
use ssi_durable::Release;
use std::alloc::AllocError;
use std::fs::Files;
use std::io::{BufWriter, Write};
use std::net::Net;
use std::os::unix::net::UnixListener;
use std::rt::Runtime;
use std::{fs, io};

/// Does what the arguments ask for, and prints a fault on standard error. If the progress is shown, and reading a history or
/// a certificate takes more than two seconds, standard error also says how much has been read.
pub fn run(rt: &HostRuntime, progress: Progress) -> Status {
    let arguments = match given_arguments(rt) {
        Ok(arguments) => arguments,
        Err(none) => return without_task(rt, none),
    };
    let task = match task_of(rt.alloc(), &arguments) {
        Ok(task) => task,
        Err(none) => return without_task(rt, none),
    };
    let mut reporter = Reporter::new(rt, "ssi", progress);
    match carry_out(rt, task, &mut reporter) {
        Ok(status) => status,
        Err(problem) => problem.report(rt),
    }
}

fn carry_out<'a>(
    rt: &'a HostRuntime,
    task: Task<'a>,
    reporter: &mut Reporter<'a, HostRuntime>,
) -> Result<Status, Problem<'a>> {
    match task {
        Task::Pipe => Ok(audit_input(rt, reporter)?),
        Task::Audit {
            history,
            certificate,
        } => Ok(audit_files(rt, history, certificate, reporter)?),
        Task::Order { history } => Ok(order_file(rt, history, reporter)?),
        Task::Script {
            history,
            certificate,
        } => follow_input(rt, history, certificate),
        Task::Serve {
            socket,
            history,
            certificate,
            manner,
        } => serve_connections(rt, socket, history, certificate, manner),
        Task::Keep {
            socket,
            folder,
            left_open,
            replies,
            segment,
            idle,
        } => {
            let Some(segment) = len_of(segment) else {
                return Ok(wrong_segment(rt));
            };
            let Some(idle) = seconds_of(idle) else {
                return Ok(wrong_idle(rt));
            };
            let service = DataService {
                folder,
                socket,
                at_close: at_close(left_open),
                release: release(replies),
                segment,
                idle,
            };
            service.run(rt)
        }
        Task::Seal { folder } => seal(rt, folder),
    }
}

/// How long the segments are that an option asks for, if it can be asked for.
fn len_of(segment: Option<&str>) -> Option<usize> {
    match segment {
        Some(text) => segment_len(text),
        None => Some(SEGMENT),
    }
}

fn wrong_segment<R: Eprint>(rt: &R) -> Status {
    let _ = eprintln!(rt; "ssi: --segment takes a number of bytes from 65536 to 1099511627776");
    Status::WrongArguments
}

/// After how many seconds an option asks for idle sessions to be aborted, if it can be asked for. Without it none are.
fn seconds_of(idle: Option<&str>) -> Option<Option<u64>> {
    match idle {
        Some(text) => idle_seconds(text).map(Some),
        None => Some(None),
    }
}

fn wrong_idle<R: Eprint>(rt: &R) -> Status {
    let _ = eprintln!(rt; "ssi: --idle takes a number of seconds from 1 to 86400");
    Status::WrongArguments
}

fn audit_input<R: Runtime + AllocGlobal>(
    rt: &R,
    reporter: &mut Reporter<'_, R>,
) -> Result<Status, Fault<'static>> {
    let mut input = Watched::new(Counted::new(reporter, rt.reader()));
    let mut output = Watched::new(io::writer(rt));
    match judge_stream(rt.alloc(), &mut input, &mut output) {
        Ok(status) => Ok(status),
        Err(fault) => Err(Fault::of_run(fault, "stdin", "stdin")),
    }
}

fn audit_files<'a, R: Runtime + AllocGlobal>(
    rt: &R,
    history: &'a str,
    certificate: &'a str,
    reporter: &mut Reporter<'_, R>,
) -> Result<Status, Fault<'a>> {
    let is_shown = reporter.is_shown();
    let mut history_file = Watched::new(Counted::new(reporter, opened(rt, history)?));
    let mut certificate_file = Watched::new(opened(rt, certificate)?);
    let mut output = Watched::new(Noted::new(io::writer(rt)));
    let judged = judge_texts(
        rt.alloc(),
        &mut history_file,
        &mut certificate_file,
        &mut output,
    );
    if is_shown {
        hint(rt, output.into_inner().first(), history, certificate);
    }
    match judged {
        Ok(status) => Ok(status),
        Err(fault) => Err(Fault::of_run(fault, history, certificate)),
    }
}

fn order_file<'a, R: Runtime + AllocGlobal>(
    rt: &R,
    history: &'a str,
    reporter: &mut Reporter<'_, R>,
) -> Result<Status, Fault<'a>> {
    let is_shown = reporter.is_shown();
    let mut history_file = Watched::new(Counted::new(reporter, opened(rt, history)?));
    // a certificate has a line for each transaction
    let Ok(buffered) = BufWriter::new(rt.alloc(), Noted::new(io::writer(rt))) else {
        return Err(Fault::Memory);
    };
    let mut output = Watched::new(buffered);
    let status = match order_text(rt.alloc(), &mut history_file, &mut output) {
        Ok(status) => status,
        Err(fault) => return Err(Fault::of_run(fault, history, history)),
    };
    let flushed = output.flush();
    if is_shown {
        hint(rt, output.into_inner().get_ref().first(), history, history);
    }
    match flushed {
        Ok(()) => Ok(status),
        Err(_) => Err(Fault::Write("stdout")),
    }
}

fn follow_input<'a, R: Runtime + AllocGlobal>(
    rt: &'a R,
    history: &'a str,
    certificate: &'a str,
) -> Result<Status, Problem<'a>> {
    check_texts(rt, history, certificate)?;
    let mut input = Watched::new(rt.reader());
    let mut output = Watched::new(io::writer(rt));
    let mut history_file = buffered(rt, LateFile::new(rt, history))?;
    let mut certificate_file = buffered(rt, LateFile::new(rt, certificate))?;
    let done = carry_out_commands(
        rt.alloc(),
        &mut input,
        &mut output,
        &mut history_file,
        &mut certificate_file,
    );
    match done {
        Ok(status) => Ok(status),
        Err(fault) => Err(Problem::Fault(Fault::of_commands(fault, history, certificate))),
    }
}

fn serve_connections<'a, R: Runtime + Net + AllocGlobal>(
    rt: &'a R,
    socket: &'a str,
    history: &'a str,
    certificate: &'a str,
    manner: Manner,
) -> Result<Status, Problem<'a>> {
    check_texts(rt, history, certificate)?;
    check_pair(rt, ("SOCKET", socket), ("HISTORY", history))?;
    check_pair(rt, ("SOCKET", socket), ("CERTIFICATE", certificate))?;
    match manner {
        Manner::InTurn => serve_in_turn(rt, socket, history, certificate),
        Manner::AtOnce => serve_at_once(rt, socket, history, certificate, AtClose::Keep),
        Manner::Aborting => serve_at_once(rt, socket, history, certificate, AtClose::Abort),
    }
}

fn at_close(left_open: LeftOpen) -> AtClose {
    match left_open {
        LeftOpen::Keep => AtClose::Keep,
        LeftOpen::Abort => AtClose::Abort,
    }
}

fn release(replies: Replies) -> Release {
    match replies {
        Replies::Synced => Release::Synced,
        Replies::Early => Release::Early,
    }
}

/// Refuses a history and a certificate of which the later would overwrite the other.
fn check_texts<'a, R: Files + AllocGlobal>(
    rt: &R,
    history: &str,
    certificate: &str,
) -> Result<(), Problem<'a>> {
    check_pair(rt, ("HISTORY", history), ("CERTIFICATE", certificate))
}

fn check_pair<'a, R: Files + AllocGlobal>(
    rt: &R,
    one: (&'static str, &str),
    other: (&'static str, &str),
) -> Result<(), Problem<'a>> {
    if lead_to_one_file(rt, one.1, other.1)? {
        return Err(Problem::OneFile(one.0, other.0));
    }
    Ok(())
}

fn serve_in_turn<'a, R: Runtime + Net + AllocGlobal>(
    rt: &'a R,
    socket: &'a str,
    history: &'a str,
    certificate: &'a str,
) -> Result<Status, Problem<'a>> {
    let mut history_file = buffered(rt, LateFile::new(rt, history))?;
    let mut certificate_file = buffered(rt, LateFile::new(rt, certificate))?;
    let Ok(mut listener) = bound(rt, socket) else {
        return Err(Problem::Fault(Fault::Socket(socket)));
    };
    let served = serve_commands(
        rt.alloc(),
        &mut listener,
        &mut history_file,
        &mut certificate_file,
    );
    ended(rt, served, socket, history, certificate)
}

fn serve_at_once<'a, R: Runtime + Net + AllocGlobal>(
    rt: &'a R,
    socket: &'a str,
    history: &'a str,
    certificate: &'a str,
    at_close: AtClose,
) -> Result<Status, Problem<'a>> {
    let mut history_file = buffered(rt, looked_at(rt, history)?)?;
    let mut certificate_file = buffered(rt, looked_at(rt, certificate)?)?;
    let listener = match bound(rt, socket) {
        Ok(listener) => listener,
        Err(e) => return Err(unbound(rt, socket, e.kind())),
    };
    let served = serve_polled(
        rt,
        listener,
        at_close,
        &mut history_file,
        &mut certificate_file,
    );
    ended(rt, served, socket, history, certificate)
}

fn serve_polled<R: Net + AllocGlobal, H: Write, C: Write>(
    rt: &R,
    listener: UnixListener,
    at_close: AtClose,
    history: &mut Watched<H>,
    certificate: &mut Watched<C>,
) -> Result<Status, ServingFault> {
    let Ok((mut poll, mut listener)) = polled(rt, listener) else {
        return Err(ServingFault::Socket);
    };
    serve_commands_together(
        rt.alloc(),
        &mut poll,
        &mut listener,
        at_close,
        history,
        certificate,
    )
}

/// Removes the socket, and returns how the run has ended.
fn ended<'a, R: Files>(
    rt: &R,
    served: Result<Status, ServingFault>,
    socket: &'a str,
    history: &'a str,
    certificate: &'a str,
) -> Result<Status, Problem<'a>> {
    // A file that can't be removed is no fault.
    let _ = fs::remove_file(rt, socket);
    match served {
        Ok(status) => Ok(status),
        Err(ServingFault::Socket) => Err(Problem::Fault(Fault::Socket(socket))),
        Err(ServingFault::Texts(fault)) => Err(Problem::Fault(Fault::of_texts(
            fault,
            history,
            certificate,
        ))),
    }
}

fn looked_at<'a, R: Files + AllocGlobal>(
    rt: &'a R,
    path: &'a str,
) -> Result<OutputFile<'a, R>, Problem<'a>> {
    match OutputFile::new(rt, path) {
        Ok(file) => Ok(file),
        Err(e) => Err(unwritable(path, e.kind())),
    }
}

fn buffered<R: AllocGlobal, W: Write + Drop>(
    rt: &R,
    file: W,
) -> Result<Watched<BufWriter<W>>, AllocError> {
    match BufWriter::new(rt.alloc(), file) {
        Ok(file) => Ok(Watched::new(file)),
        Err(_) => Err(AllocError),
    }
}

fn opened<'a, R: Files>(rt: &R, path: &'a str) -> Result<R::File, Fault<'a>> {
    match fs::open(rt, path) {
        Ok(file) => Ok(file),
        Err(_) => Err(Fault::Read(path)),
    }
}

/// Prints why there is no task.
fn without_task<R: Print + Eprint>(rt: &R, none: NoTask) -> Status
    ensures not_utf8 { none ≡ NoTask.NotUtf8 → result ≡ Status.WrongArguments }
    ensures memory { none ≡ NoTask.Memory → result ≡ Status.Failed }
{
    match none {
        NoTask::Text(text) => printed(rt, &text),
        NoTask::NotUtf8 => {
            let _ = eprintln!(rt; "ssi: the arguments are not UTF-8");
            Status::WrongArguments
        }
        NoTask::Memory => Fault::Memory.report(rt),
    }
}

// Help and the version are answers. Whatever else the parser prints is about wrong arguments.
fn printed<R: Print + Eprint>(rt: &R, text: &Error) -> Status
    ensures help { kind_of text.now ≡ DisplayHelp → (result ≡ Status.Fine) ⊎ (result ≡ Status.Failed) }
    ensures version { kind_of text.now ≡ DisplayVersion → (result ≡ Status.Fine) ⊎ (result ≡ Status.Failed) }
    ensures wrong { kind_of text.now ≢ DisplayHelp → kind_of text.now ≢ DisplayVersion
        → result ≡ Status.WrongArguments }
{
    let done = text.print(rt);
    if text.use_stderr() {
        return Status::WrongArguments;
    }
    match done {
        Ok(()) => Status::Fine,
        Err(_) => Fault::Write("stdout").report(rt),
    }
}
