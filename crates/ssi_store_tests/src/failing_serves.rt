//! Inputs and outputs that fail, and a store that goes on with the next input.

ghost use Rattle.std.specs.Prelude.{◌<◌};

use crate::answers::{FastStore, new_store};
use crate::faults::{Fault, split_after, watched_reader, watched_writer, whole_lines};
use crate::runs::ended;
use crate::worked::Worked;
use adya_testing::Pieces;
use devices::{Source, Watched};
use ssi_line::{End, serve};
use std::alloc::Global;

/// How a store has taken an input whose device, or that of the output, may fail.
#[derive(Clone, Copy)]
enum Stopped {
    /// No call has failed.
    Never,
    /// Otherwise than it must.
    Otherwise,
    /// As it must, after so many lines.
    After(usize),
}

/// Whether a store goes on after the read that fails so: what the lines before it did stands, and the line that wasn't
/// read whole isn't carried out. Nothing if no read has failed.
pub(crate) fn after_read(alloc: Global, worked: &Worked, fault: Fault) -> Option<bool> {
    let mut store = new_store(alloc);
    let stopped = by_read(alloc, &mut store, worked, fault);
    went_on(alloc, store, worked, stopped)
}

fn by_read(alloc: Global, store: &mut FastStore, worked: &Worked, fault: Fault) -> Stopped {
    let mut input = watched_reader(&worked.commands, 7, fault);
    let mut output = Watched::new(Vec::new(alloc));
    let end = serve(alloc, &mut input, &mut output, store);
    let replies = output.into_inner();
    if !input.failed() && end == End::Eof {
        return Stopped::Never;
    }
    let left = input.into_inner().get_ref().bytes;
    let read = worked.commands.strip_suffix(left).unwrap_or(b"");
    let lines = whole_lines(read);
    if end == End::ReadFault && replies.as_slice() == split_after(&worked.replies, lines).0 {
        Stopped::After(lines)
    } else {
        Stopped::Otherwise
    }
}

fn went_on(alloc: Global, store: FastStore, worked: &Worked, stopped: Stopped) -> Option<bool> {
    match stopped {
        Stopped::Never => None,
        Stopped::Otherwise => Some(false),
        Stopped::After(lines) => Some(goes_on(alloc, store, worked, lines)),
    }
}

/// Whether a store goes on after the write that fails so: the command whose reply failed took effect. Nothing if no write
/// has failed. The lines that were read together with it didn't.
pub(crate) fn after_write(alloc: Global, worked: &Worked, fault: Fault) -> Option<bool> {
    let in_pieces = after_write_in(alloc, worked, fault, 7);
    let whole = after_write_in(alloc, worked, fault, usize::MAX);
    if in_pieces == whole {
        whole
    } else {
        Some(false)
    }
}

/// The same for an input in pieces of at most `most` bytes.
fn after_write_in(alloc: Global, worked: &Worked, fault: Fault, most: usize) -> Option<bool>
    requires { 0 < most }
{
    let mut store = new_store(alloc);
    let mut input = Watched::new(Pieces::new(&worked.commands, most));
    let stopped = by_write(alloc, &mut store, &mut input, fault);
    went_on(alloc, store, worked, stopped)
}

fn by_write<S: Source>(
    alloc: Global,
    store: &mut FastStore,
    input: &mut S,
    fault: Fault,
) -> Stopped {
    let mut output = watched_writer(alloc, fault);
    let end = serve(alloc, input, &mut output, store);
    if !output.failed() && end == End::Eof {
        return Stopped::Never;
    }
    let device = output.into_inner();
    let lines = whole_lines(device.get_ref().bytes()).saturating_add(1);
    if end == End::WriteFault {
        Stopped::After(lines)
    } else {
        Stopped::Otherwise
    }
}

/// Whether the rest of the course gets the rest of the replies, and the texts are those of the whole course.
fn goes_on(alloc: Global, mut store: FastStore, worked: &Worked, lines: usize) -> bool {
    let (_, commands) = split_after(&worked.commands, lines);
    let (_, replies) = split_after(&worked.replies, lines);
    let mut input = Watched::new(Pieces::new(commands, 7));
    let mut output = Watched::new(Vec::new(alloc));
    let end = serve(alloc, &mut input, &mut output, &mut store);
    let are_replies = output.into_inner().as_slice() == replies;
    has_texts(alloc, store, worked) == Some(true) && end == End::Eof && are_replies
}

/// Whether the texts of the store's end are those of the course.
pub(crate) fn has_texts(alloc: Global, store: FastStore, worked: &Worked) -> Option<bool> {
    let texts = ended(alloc, store)?;
    Some(texts.history == worked.history && texts.certificate == worked.certificate)
}
