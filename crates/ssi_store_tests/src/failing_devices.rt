//! Readers and writers that fail at each of their calls.

use crate::failing_scripts::{
    Device, calls_of, is_as_defined, is_as_worked, is_full_certificate, is_full_history,
    is_full_output, is_held_back, is_texts_fault,
};
use crate::failing_serves::{after_read, after_write};
use crate::faults::{Fault, KINDS};
use crate::worked::{Worked, worked_in};
use std::alloc::Global;
use std::io;
use std::io::ErrorKind;

/// The folders of the courses that are run over failing devices.
const COURSES: [&str; 2] = ["read_only_anomaly", "phantom_skew"];

/// What is tried with a course.
#[derive(Clone, Copy)]
enum Case {
    /// No device of a script fails.
    Script,
    /// Each call of the script's device fails in turn.
    ScriptCalls(Device),
    /// The script's device takes nothing.
    Full(Device),
    /// A text of a script is held back.
    HeldBack,
    /// The input of a script and its history fail.
    InputAndHistory,
    /// Each call of the device fails in turn, and the store goes on.
    StoreCalls(Device),
}

const CASES: [(&str, Case); 12] = [
    ("no_device_of_a_script_fails", Case::Script),
    ("script_kth_read_fails", Case::ScriptCalls(Device::Input)),
    ("script_kth_write_fails", Case::ScriptCalls(Device::Output)),
    (
        "script_kth_write_of_history_fails",
        Case::ScriptCalls(Device::History),
    ),
    (
        "script_kth_write_of_certificate_fails",
        Case::ScriptCalls(Device::Certificate),
    ),
    ("script_writer_takes_nothing", Case::Full(Device::Output)),
    (
        "script_writer_of_history_takes_nothing",
        Case::Full(Device::History),
    ),
    (
        "script_writer_of_certificate_takes_nothing",
        Case::Full(Device::Certificate),
    ),
    ("script_flush_of_a_text_fails", Case::HeldBack),
    ("script_input_and_history_fail", Case::InputAndHistory),
    (
        "a_store_goes_on_after_a_failed_read",
        Case::StoreCalls(Device::Input),
    ),
    (
        "a_store_goes_on_after_a_failed_write",
        Case::StoreCalls(Device::Output),
    ),
];

/// Writes a line for each case: `as defined`, or the course and the call that differ first.
pub(crate) fn write_lines(rt: &HostRuntime) -> io::Result<()> {
    for (name, case) in CASES {
        write_case(rt, name, case)?;
    }
    Ok(())
}

fn write_case(rt: &HostRuntime, name: &str, case: Case) -> io::Result<()> {
    for course in COURSES {
        let worked = worked_in(rt, course)?;
        if let Some(call) = first_other(rt.alloc(), &worked, case) {
            return print!(rt; "{name}: otherwise in {course}, at call {call}\n");
        }
    }
    print!(rt; "{name}: as defined\n")
}

/// Returns the first call whose fault makes something else than it must, 0 if it isn't the fault of one call; nothing if
/// all is as defined.
fn first_other(alloc: Global, worked: &Worked, case: Case) -> Option<u64> {
    for kind in KINDS {
        let other = first_other_of(alloc, worked, case, kind);
        if other.is_some() {
            return other;
        }
    }
    None
}

fn first_other_of(alloc: Global, worked: &Worked, case: Case, kind: ErrorKind) -> Option<u64> {
    let is_so = match case {
        Case::ScriptCalls(device) => return first_other_call(alloc, worked, device, kind),
        Case::StoreCalls(device) => return first_other_stop(alloc, worked, device, kind),
        Case::Script => is_as_worked(alloc, worked),
        Case::Full(Device::Output) => is_full_output(alloc, worked),
        Case::Full(Device::History) => is_full_history(alloc, worked),
        Case::Full(Device::Certificate) => is_full_certificate(alloc, worked),
        Case::Full(Device::Input) => false,
        Case::HeldBack => is_held_back(alloc, worked),
        Case::InputAndHistory => is_texts_fault(alloc, kind),
    };
    if is_so { None } else { Some(0) }
}

/// Returns the first call of the script's device whose fault makes something else than it must, 0 if there is no call.
fn first_other_call(
    alloc: Global,
    worked: &Worked,
    device: Device,
    kind: ErrorKind,
) -> Option<u64> {
    let calls = calls_of(alloc, worked, device);
    if calls == 0 {
        return Some(0);
    }
    for call in 1..=calls {
        if !is_as_defined(alloc, worked, device, call, kind) {
            return Some(call);
        }
    }
    None
}

/// Returns the first call of the device after whose fault a store doesn't go on, or the number of the calls if it isn't
/// what it must be.
fn first_other_stop(
    alloc: Global,
    worked: &Worked,
    device: Device,
    kind: ErrorKind,
) -> Option<u64> {
    for call in 1..1000 {
        match after(alloc, worked, device, Fault::At(call, kind)) {
            Some(true) => {}
            Some(false) => return Some(call),
            None => {
                let calls = call.saturating_sub(1);
                return if is_count(worked, device, calls) {
                    None
                } else {
                    Some(calls)
                };
            }
        }
    }
    Some(1000)
}

fn after(alloc: Global, worked: &Worked, device: Device, fault: Fault) -> Option<bool> {
    if device == Device::Input {
        after_read(alloc, worked, fault)
    } else {
        after_write(alloc, worked, fault)
    }
}

/// Whether the device is called so often if nothing fails: the output for each byte of the replies.
fn is_count(worked: &Worked, device: Device, calls: u64) -> bool {
    if device == Device::Input {
        calls > 10 && calls < 100
    } else {
        u64::try_from(worked.replies.len()) == Ok(calls)
    }
}
