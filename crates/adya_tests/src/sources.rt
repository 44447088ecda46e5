//! Texts read out of sources that give pieces, fail or never end.

ghost use Rattle.std.specs.Prelude.{◌<◌};

use crate::given::{CERTIFICATE, HISTORY, KINDS, UNENDED, endless, reader};
use adya_testing::Pieces;
use adya_text::{
    ReadFault, Text, read_history_early, read_history_from, read_serial_early, read_serial_from,
    read_texts_from,
};
use devices::Watched;
use std::alloc::Global;
use std::io;
use std::io::{ErrorKind, Read, Write};

/// What is read out of a source.
#[derive(Clone, Copy)]
enum Wanted {
    History,
    Certificate,
    /// A history, and no more of it than is needed.
    EarlyHistory,
    EarlyCertificate,
    Both,
}

/// Returns the cases, each with its name.
pub(crate) fn cases(alloc: Global) -> [(&'static str, bool); 10] {
    [
        ("bounds_of_endless_sources_are_met", are_bounds_met(alloc)),
        (
            "lines_that_never_end_meet_the_bound",
            are_endless_lines_told(alloc),
        ),
        (
            "a_long_first_line_is_read_to_its_end",
            is_long_line_passed_over(alloc),
        ),
        (
            "writes_leave_the_bound_on_reads",
            is_bound_left(alloc) == Some(true),
        ),
        (
            "first_lines_that_never_end_are_refused",
            are_first_lines_refused(alloc, 0) && are_first_lines_refused(alloc, b'a'),
        ),
        (
            "numbers_that_never_end_are_refused",
            are_numbers_refused(alloc),
        ),
        (
            "lines_after_the_last_are_refused",
            are_later_lines_refused(alloc),
        ),
        ("the_longest_lines_are_read", are_longest_lines_read(alloc)),
        ("kth_read_of_history_fails", is_each_read_told(alloc)),
        (
            "a_history_with_no_end_line_takes_the_whole_stream",
            is_whole_stream_taken(alloc, b"adya 1\nc1\nendx\nend")
                && is_whole_stream_taken(alloc, b"adya 1\nc1\n"),
        ),
    ]
}

/// Returns why the source isn't read; nothing if it is.
fn fault_of<R: Read>(alloc: Global, wanted: Wanted, source: &mut Watched<R>) -> Option<ReadFault> {
    match wanted {
        Wanted::History => read_history_from(alloc, source).err(),
        Wanted::Certificate => read_serial_from(alloc, source).err(),
        Wanted::EarlyHistory => read_history_early(alloc, source).err(),
        Wanted::EarlyCertificate => read_serial_early(alloc, source).err(),
        Wanted::Both => read_texts_from(alloc, source).err(),
    }
}

fn is_bound_met(alloc: Global, wanted: Wanted) -> bool {
    let mut source = endless(UNENDED, b'a', 10);
    fault_of(alloc, wanted, &mut source) == Some(ReadFault::Device) && source.failed()
}

fn are_bounds_met(alloc: Global) -> bool {
    let mut source = Watched::with_bound(Pieces::new(CERTIFICATE, 1), 10);
    let fault = fault_of(alloc, Wanted::Certificate, &mut source);
    fault == Some(ReadFault::Device)
        && source.failed()
        && is_bound_met(alloc, Wanted::History)
        && is_bound_met(alloc, Wanted::Both)
}

/// Whether a source that begins with the text, and then has a line that never ends, isn't read, after so many reads as its
/// bound allows.
fn is_endless_line_told(alloc: Global, wanted: Wanted, text: &'static [u8]) -> bool {
    let mut source = endless(text, b'a', 10);
    let fault = fault_of(alloc, wanted, &mut source);
    fault == Some(ReadFault::Device) && source.failed() && source.into_inner().calls() == 10
}

fn are_endless_lines_told(alloc: Global) -> bool {
    is_endless_line_told(alloc, Wanted::History, b"")
        && is_endless_line_told(alloc, Wanted::History, HISTORY)
        && is_endless_line_told(alloc, Wanted::Certificate, b"")
        && is_endless_line_told(alloc, Wanted::Certificate, b"serial 1\n")
        && is_endless_line_told(alloc, Wanted::Certificate, CERTIFICATE)
}

/// Whether a first line of 20,000 bytes is read up to its line feed, and what follows is left.
fn is_long_line_passed_over(alloc: Global) -> bool {
    let mut text = [b'a'; 30_000];
    text[20_000] = b'\n';
    let mut source = Watched::new(Pieces::new(&text, 1000));
    let fault = fault_of(alloc, Wanted::History, &mut source);
    let (text, line) = (Text::History, 1);
    fault == Some(ReadFault::Syntax { text, line })
        && !source.failed()
        && source.into_inner().bytes.len() == 9_000
}

/// A device that reads and writes.
#[derive(Drop)]
struct Both {
    input: &'static [u8],
    output: Vec<u8>,
}

impl Read for Both {
    fn read(&mut self, buf: &mut [u8]) -> io::Result<usize> {
        self.input.read(buf)
    }
}

impl Write for Both {
    fn write(&mut self, buf: &[u8]) -> io::Result<usize> {
        self.output.write(buf)
    }

    fn flush(&mut self) -> io::Result<()> {
        Ok(())
    }
}

/// Whether a device with a bound of one read still reads after writes, and writes no more after the second read.
fn is_bound_left(alloc: Global) -> Option<bool> {
    let (input, output) = (b"ab".as_slice(), Vec::new(alloc));
    let mut device = Watched::with_bound(Both { input, output }, 1);
    let mut byte = [0];
    device.write_all(b"x").ok()?;
    device.flush().ok()?;
    let first = device.read(&mut byte).ok()?;
    device.write_all(b"y").ok()?;
    let is_met = device.read(&mut byte).is_err() && device.failed();
    let flushed = device.flush().err()?;
    let is_held = device.write_all(b"z").is_err() && flushed.kind() != ErrorKind::Interrupted;
    Some(
        first == 1
            && is_met
            && is_held
            && device.into_inner().output.as_slice() == b"xy".as_slice(),
    )
}

/// A source that begins with a text and then has a byte forever.
#[derive(Clone, Copy)]
struct Endlessly {
    text: &'static [u8],
    byte: u8,
}

impl Endlessly {
    /// Whether what is wanted is refused at this line of this text, after so many reads.
    fn is_refused(
        self,
        alloc: Global,
        wanted: Wanted,
        text: Text,
        line: usize,
        reads: u64,
    ) -> bool {
        let mut source = endless(self.text, self.byte, u32::MAX);
        let fault = fault_of(alloc, wanted, &mut source);
        fault == Some(ReadFault::Syntax { text, line })
            && !source.failed()
            && source.into_inner().calls() == reads
    }
}

fn are_first_lines_refused(alloc: Global, byte: u8) -> bool {
    let source = Endlessly { text: b"", byte };
    source.is_refused(alloc, Wanted::EarlyHistory, Text::History, 1, 1)
        && source.is_refused(alloc, Wanted::EarlyCertificate, Text::Serial, 1, 1)
        && source.is_refused(alloc, Wanted::Both, Text::History, 1, 1)
}

fn are_numbers_refused(alloc: Global) -> bool {
    let certificate = Endlessly {
        text: b"serial 1\n",
        byte: b'1',
    };
    let both = Endlessly {
        text: b"adya 1\nend\nserial 1\n",
        byte: b'1',
    };
    certificate.is_refused(alloc, Wanted::EarlyCertificate, Text::Serial, 2, 2)
        && both.is_refused(alloc, Wanted::Both, Text::Serial, 2, 2)
}

fn are_later_lines_refused(alloc: Global) -> bool {
    let history = Endlessly {
        text: HISTORY,
        byte: b'a',
    };
    let certificate = Endlessly {
        text: CERTIFICATE,
        byte: b'a',
    };
    history.is_refused(alloc, Wanted::EarlyHistory, Text::History, 9, 2)
        && certificate.is_refused(alloc, Wanted::EarlyCertificate, Text::Serial, 5, 2)
}

fn are_longest_lines_read(alloc: Global) -> bool {
    for most in [1, 6, 7, 8, 9, 10, 11] {
        let mut history = Watched::new(Pieces::new(b"adya 2\nend\n", most));
        let mut certificate = Watched::new(Pieces::new(b"serial 1\n4294967295\nend\n", most));
        let is_read = read_history_from(alloc, &mut history).is_ok()
            && has_one_line(alloc, &mut certificate);
        if !is_read {
            return false;
        }
    }
    true
}

fn has_one_line<R: Read>(alloc: Global, certificate: &mut Watched<R>) -> bool {
    match read_serial_from(alloc, certificate) {
        Ok(serial) => serial.txns().len() == 1,
        Err(_) => false,
    }
}

/// Whether a failed read of the history is told, whichever it is and however it fails.
fn is_each_read_told(alloc: Global) -> bool {
    for kind in KINDS {
        let mut source = reader(HISTORY, 0, kind);
        let is_read = read_history_from(alloc, &mut source).is_ok();
        if !is_read || !are_failed_reads_told(alloc, source.into_inner().calls(), kind) {
            return false;
        }
    }
    true
}

fn are_failed_reads_told(alloc: Global, reads: u64, kind: ErrorKind) -> bool {
    for k in 1..=reads {
        if !is_failed_read_told(alloc, k, kind) {
            return false;
        }
    }
    reads > 0
}

/// Whether a source whose k-th read fails isn't read, then and at the next call, and has no more reads.
fn is_failed_read_told(alloc: Global, k: u64, kind: ErrorKind) -> bool {
    let mut source = reader(HISTORY, k, kind);
    let first = fault_of(alloc, Wanted::History, &mut source);
    let is_failed = source.failed();
    let second = fault_of(alloc, Wanted::History, &mut source);
    first == Some(ReadFault::Device)
        && is_failed
        && second == Some(ReadFault::Device)
        && source.failed()
        && source.into_inner().calls() == k
}

/// Whether the history takes the whole stream, so that it lacks its third line.
fn is_whole_stream_taken(alloc: Global, stream: &[u8]) -> bool {
    let fault = fault_of(alloc, Wanted::Both, &mut Watched::new(stream));
    let text = Text::History;
    fault == Some(ReadFault::Syntax { text, line: 3 })
}
