//! Worked courses over connections in memory that are served one after the other.

use crate::answers::new_store;
use crate::failing_scripts::Device;
use crate::failing_serves::has_texts;
use crate::faults::{Fault, KINDS, split_after, whole_lines};
use crate::in_memory::{Client, InMemory};
use crate::worked::{Worked, worked_in};
use devices::Watched;
use ssi_cli::{Served, run_socket, serve_socket};
use std::alloc::{AllocError, Global};
use std::io;

/// The folders of the courses. Each line has one line of reply there.
const COURSES: [&str; 2] = ["read_only_anomaly", "phantom_skew"];

/// How many lines each connection has.
const LINES: [usize; 4] = [1, 2, 5, 100];

/// What is tried with a course.
#[derive(Clone, Copy)]
enum Case {
    /// A connection ends the run by `stop`. More lines come after it, also over more connections.
    Stop,
    /// Accepting fails after all connections.
    Fault,
    /// Accepting fails after each number of connections, and the store goes on with another listener.
    Again,
    /// Each call of a connection's reader or writer fails in turn, and the next connection sends what is left.
    Calls(Device),
}

const CASES: [(&str, Case); 5] = [
    ("nothing_is_accepted_after_stop", Case::Stop),
    ("texts_are_written_after_a_failed_accept", Case::Fault),
    ("a_store_goes_on_after_a_failed_accept", Case::Again),
    (
        "a_run_goes_on_after_a_failed_read",
        Case::Calls(Device::Input),
    ),
    (
        "a_run_goes_on_after_a_failed_write",
        Case::Calls(Device::Output),
    ),
];

/// Writes a line for each case: `as defined`, or the course that differs first.
pub(crate) fn write_lines(rt: &HostRuntime) -> io::Result<()> {
    for (name, case) in CASES {
        write_case(rt, name, case)?;
    }
    Ok(())
}

fn write_case(rt: &HostRuntime, name: &str, case: Case) -> io::Result<()> {
    for course in COURSES {
        let worked = worked_in(rt, course)?;
        if !is_as_defined(rt.alloc(), &worked, case)? {
            return print!(rt; "{name}: otherwise in {course}\n");
        }
    }
    print!(rt; "{name}: as defined\n")
}

fn is_as_defined(alloc: Global, worked: &Worked, case: Case) -> Result<bool, AllocError> {
    if let Case::Calls(device) = case {
        return goes_on_after_each(alloc, worked, device);
    }
    for most in LINES {
        let is_so = match case {
            Case::Stop => is_ended_by_stop(alloc, worked, most)?,
            Case::Fault => is_ended_by_fault(alloc, worked, most)?,
            _ => goes_on_with_another(alloc, worked, most)?,
        };
        if !is_so {
            return Ok(false);
        }
    }
    Ok(true)
}

/// The lines of a course with `stop` after them, and the replies.
#[derive(Drop)]
struct Stopped {
    lines: Vec<u8>,
    replies: Vec<u8>,
}

/// Returns the course with `stop`, and these lines after it.
fn with_stop(alloc: Global, worked: &Worked, later: &[u8]) -> Result<Stopped, AllocError> {
    let mut lines = Vec::from_slice(alloc, &worked.commands)?;
    lines.extend_from_slice(b"stop\n")?;
    lines.extend_from_slice(later)?;
    let mut replies = Vec::from_slice(alloc, &worked.replies)?;
    replies.extend_from_slice(b"stopped\n")?;
    Ok(Stopped { lines, replies })
}

/// The clients of a run, and the replies to each that is to be accepted.
#[derive(Drop)]
struct Plan<'a> {
    clients: Vec<Client<'a>>,
    replies: Vec<&'a [u8]>,
}

/// Returns the clients that send at most `most` of the lines each. A client sends a front of the next line as well, and the next
/// one sends this line again.
fn plan_of<'a>(
    alloc: Global,
    lines: &'a [u8],
    replies: &'a [u8],
    most: usize,
) -> Result<Plan<'a>, AllocError> {
    let mut clients = Vec::new(alloc);
    let mut replied = Vec::new(alloc);
    let mut left = (lines, replies);
    for _ in 0..whole_lines(lines) {
        let (sent, lines) = split_after(left.0, most);
        let (got, replies) = split_after(left.1, most);
        if !sent.is_empty() {
            let len = sent.len().saturating_add(3);
            clients.push(Client::new(left.0.get(..len).unwrap_or(sent)))?;
        }
        if !got.is_empty() {
            replied.push(got)?;
        }
        left = (lines, replies);
    }
    Ok(Plan {
        clients,
        replies: replied,
    })
}

/// Whether a run stops at `stop`: what comes after it on its connection isn't carried out, and nothing is accepted any more.
fn is_ended_by_stop(alloc: Global, worked: &Worked, most: usize) -> Result<bool, AllocError> {
    let stopped = with_stop(alloc, worked, b"begin Z\nput Z z 9\n")?;
    let plan = plan_of(alloc, &stopped.lines, &stopped.replies, most)?;
    let mut listener = InMemory::new(alloc, &plan.clients, 0);
    let is_recorded = is_recorded(alloc, &mut listener, worked, Served::Stopped);
    Ok(is_recorded && listener.has_served(&plan.replies) && listener.calls() == plan.replies.len())
}

/// Whether a run ends once accepting has failed, and its texts are written.
fn is_ended_by_fault(alloc: Global, worked: &Worked, most: usize) -> Result<bool, AllocError> {
    let plan = plan_of(alloc, &worked.commands, &worked.replies, most)?;
    let mut listener = InMemory::new(alloc, &plan.clients, 0);
    let is_recorded = is_recorded(alloc, &mut listener, worked, Served::SocketFault);
    Ok(
        is_recorded
            && listener.has_served(&plan.replies)
            && listener.calls() == plan.replies.len().saturating_add(1),
    )
}

/// Whether a run over the listener ends so, and writes the texts of the course.
fn is_recorded(alloc: Global, listener: &mut InMemory<'_>, worked: &Worked, end: Served) -> bool {
    let mut history = Watched::new(Vec::new(alloc));
    let mut certificate = Watched::new(Vec::new(alloc));
    let (served, written) = run_socket(alloc, listener, &mut history, &mut certificate);
    served == end
        && written.is_ok()
        && history.into_inner() == worked.history
        && certificate.into_inner() == worked.certificate
}

/// Whether a store is served up to the accept that fails, and goes on with another listener, after each number of connections.
fn goes_on_with_another(alloc: Global, worked: &Worked, most: usize) -> Result<bool, AllocError> {
    let stopped = with_stop(alloc, worked, b"")?;
    let plan = plan_of(alloc, &stopped.lines, &stopped.replies, most)?;
    for count in 0..plan.clients.len() {
        if !goes_on_after(alloc, worked, &plan, count) {
            return Ok(false);
        }
    }
    Ok(true)
}

/// Whether that is so if so many are accepted by the first listener, which has more.
fn goes_on_after(alloc: Global, worked: &Worked, plan: &Plan<'_>, count: usize) -> bool {
    let calls = count.saturating_add(1);
    let (_, others) = plan.clients.split_at(count.min(plan.clients.len()));
    let (replies, other_replies) = plan.replies.split_at(count.min(plan.replies.len()));
    let mut store = new_store(alloc);
    let mut first = InMemory::new(alloc, &plan.clients, calls);
    let mut second = InMemory::new(alloc, others, 0);
    let ended = serve_socket(alloc, &mut first, &mut store) == Served::SocketFault
        && serve_socket(alloc, &mut second, &mut store) == Served::Stopped;
    has_texts(alloc, store, worked) == Some(true)
        && ended
        && first.has_served(replies)
        && first.calls() == calls
        && second.has_served(other_replies)
        && second.calls() == other_replies.len()
}

/// Whether a run goes on after each call of the device that fails: the lines that came whole before a read, and those up to and
/// with the one whose reply was cut by a write, are carried out, and no other one. `stop` ends no run if its reply is cut.
fn goes_on_after_each(alloc: Global, worked: &Worked, device: Device) -> Result<bool, AllocError> {
    let stopped = with_stop(alloc, worked, b"")?;
    let calls = match device {
        Device::Input => stopped.lines.len().div_ceil(7),
        _ => stopped.replies.len(),
    };
    for call in 1..=calls {
        if !goes_on_after_call(alloc, worked, &stopped, device, call) {
            return Ok(false);
        }
    }
    Ok(true)
}

/// Whether that is so of this call, for each kind of error.
fn goes_on_after_call(
    alloc: Global,
    worked: &Worked,
    stopped: &Stopped,
    device: Device,
    call: usize,
) -> bool {
    let (count, got) = before(stopped, device, call.saturating_sub(1));
    let (_, left) = split_after(&stopped.lines, count);
    let (_, later) = split_after(&stopped.replies, count);
    for kind in KINDS {
        let fault = Fault::At(call as u64, kind);
        let first = Client::new(&stopped.lines).failing(device, fault);
        if !goes_on(alloc, worked, &[first, Client::new(left)], &[got, later]) {
            return false;
        }
    }
    true
}

/// Returns how many lines are carried out if the next call after so many of the device fails, and what the client gets.
fn before(stopped: &Stopped, device: Device, calls: usize) -> (usize, &[u8]) {
    match device {
        Device::Input => {
            let read = stopped.lines.get(..calls.saturating_mul(7));
            let count = whole_lines(read.unwrap_or(b""));
            (count, split_after(&stopped.replies, count).0)
        }
        _ => {
            let got = stopped.replies.get(..calls).unwrap_or(b"");
            (whole_lines(got).saturating_add(1), got)
        }
    }
}

/// Whether both clients are served and get these replies, and the texts of the course are written. If nothing was left for the
/// second one to send, accepting fails after it.
fn goes_on(alloc: Global, worked: &Worked, clients: &[Client<'_>], replies: &[&[u8]]) -> bool {
    let is_stopped = clients
        .last()
        .is_some_and(|client| !client.sends.is_empty());
    let (served, calls) = if is_stopped {
        (Served::Stopped, clients.len())
    } else {
        (Served::SocketFault, clients.len().saturating_add(1))
    };
    let mut listener = InMemory::new(alloc, clients, 0);
    is_recorded(alloc, &mut listener, worked, served)
        && listener.has_served(replies)
        && listener.calls() == calls
}
