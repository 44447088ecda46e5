//! Whole texts: what is read out of a slice and out of a source in pieces, and what is written again.

ghost use Rattle.std.specs.Prelude.{◌<◌};

use crate::given::HISTORY;
use adya_testing::Pieces;
use adya_text::{
    ReadFault, read_history, read_history_from, read_serial, read_serial_from, write_history,
    write_serial,
};
use adya_values::{Edition, History, Serial};
use devices::Watched;
use std::alloc::Global;

/// What was read from a text.
#[derive(PartialEq, Drop)]
enum Outcome {
    /// A value, whose text this is.
    Text(Vec<u8>),
    /// None, for this reason.
    Fault(ReadFault),
    /// A value that couldn't be written as a text again.
    Unwritten,
}

/// Returns the text of a history; nothing if it can't be written.
fn history_text(alloc: Global, history: &History) -> Option<Vec<u8>> {
    let mut out = Watched::new(Vec::new(alloc));
    write_history(history, &mut out).ok()?;
    Some(out.into_inner())
}

/// Returns the text of a certificate; nothing if it can't be written.
fn serial_text(alloc: Global, serial: &Serial) -> Option<Vec<u8>> {
    let mut out = Watched::new(Vec::new(alloc));
    write_serial(serial, &mut out).ok()?;
    Some(out.into_inner())
}

/// Returns what was read from the text of a history.
fn of_history(alloc: Global, read: Result<History, ReadFault>) -> Outcome {
    match read {
        Ok(history) => of_text(history_text(alloc, &history)),
        Err(fault) => Outcome::Fault(fault),
    }
}

/// Returns what was read from the text of a certificate.
fn of_serial(alloc: Global, read: Result<Serial, ReadFault>) -> Outcome {
    match read {
        Ok(serial) => of_text(serial_text(alloc, &serial)),
        Err(fault) => Outcome::Fault(fault),
    }
}

fn of_text(text: Option<Vec<u8>>) -> Outcome {
    match text {
        Some(text) => Outcome::Text(text),
        None => Outcome::Unwritten,
    }
}

/// Whether a source that gives at most `most` bytes a call is read as the text itself is.
fn is_history_alike(alloc: Global, text: &[u8], most: usize) -> bool
    requires { 0 < most }
{
    let mut source = Watched::new(Pieces::new(text, most));
    let of_source = of_history(alloc, read_history_from(alloc, &mut source));
    of_source == of_history(alloc, read_history(alloc, text))
}

/// Whether a source that gives at most `most` bytes a call is read as the text itself is.
fn is_serial_alike(alloc: Global, text: &[u8], most: usize) -> bool
    requires { 0 < most }
{
    let mut source = Watched::new(Pieces::new(text, most));
    let of_source = of_serial(alloc, read_serial_from(alloc, &mut source));
    of_source == of_serial(alloc, read_serial(alloc, text))
}

/// Whether the texts are read out of sources as they are out of slices, in pieces of 1, of 3 and of all bytes.
pub(crate) fn are_read_alike(alloc: Global, history: &[u8], serial: &[u8]) -> bool {
    is_history_alike(alloc, history, 1)
        && is_history_alike(alloc, history, 3)
        && is_history_alike(alloc, history, usize::MAX)
        && is_serial_alike(alloc, serial, 1)
        && is_serial_alike(alloc, serial, 3)
        && is_serial_alike(alloc, serial, usize::MAX)
}

/// Returns the cases, each with its name.
pub(crate) fn cases(alloc: Global) -> [(&'static str, bool); 3] {
    [
        (
            "a_history_is_read_and_written_again",
            is_first_edition_kept(alloc).unwrap_or(false),
        ),
        (
            "a_history_of_the_second_edition_is_read_and_written_again",
            is_second_edition_kept(alloc).unwrap_or(false),
        ),
        (
            "a_certificate_is_read_and_written_again",
            is_certificate_kept(alloc).unwrap_or(false),
        ),
    ]
}

/// Whether a history of the first edition is read and written again.
fn is_first_edition_kept(alloc: Global) -> Option<bool> {
    let history = read_history(alloc, HISTORY).ok()?;
    let are_counted = history.edition() == Edition::One
        && history.events().len() == 4
        && history.orders().len() == 1
        && history.finals().len() == 1;
    Some(are_counted && history_text(alloc, &history)?.as_slice() == HISTORY)
}

/// Whether a history of the second edition is read and written again.
fn is_second_edition_kept(alloc: Global) -> Option<bool> {
    let text =
        b"adya 2\nd2(x.2:1)\ns3(a,z;x.1:1,5)\nu2\nu4294967295\n[k_9:3<<1<<4294967295]\n{k_9,V.1-0}\nend\n".as_slice();
    let history = read_history(alloc, text).ok()?;
    let are_counted = history.edition() == Edition::Two && history.unfinished().len() == 2;
    Some(are_counted && history_text(alloc, &history)?.as_slice() == text)
}

/// Whether a certificate is read and written again.
fn is_certificate_kept(alloc: Global) -> Option<bool> {
    let text = b"serial 1\n2\n4294967295\n2\nend\n".as_slice();
    let serial = read_serial(alloc, text).ok()?;
    Some(serial.txns().len() == 3 && serial_text(alloc, &serial)?.as_slice() == text)
}
