//! Writing reply lines.

ghost use Rattle.std.specs.Prelude.{◌≡◌, ◌++◌, codes, decimal, flat_map, map, length, OnErr};
ghost use Rattle.adya_values.specs.Mirror.Events.{final_of};
ghost use Rattle.devices.specs.Clauses.Writing.{Wrote, Broke};
ghost use Rattle.ssi_store.specs.Meaning.Courses.{Counts};
ghost use Rattle.ssi_store.specs.Mirror.Commands.{answer_of, reply_of, refusal_of};
ghost use Rattle.ssi_line.specs.Meaning.Replies.{row_text, answer_text, answer_line, refusal_text};
ghost use Rattle.ssi_line.specs.Machinery.Drafts.{Added};

use crate::draft::Draft;
use adya_text::WriteFault;
use adya_values::{FinalPair, Key, Txn};
use devices::Watched;
use ssi_store::{Refusal, Reply};
use std::io::Write;

/// Writes the line of a reply or a refusal, with its line feed. Returns `WriteFault` only if the device has failed; it then
/// took a front of the line, but not all.
///
/// A line of up to 4096 bytes is handed to the device as a whole, by one `write_all`. Only the rows of a scan make longer
/// ones, which go out in pieces of up to 4096 bytes. It takes no memory.
pub fn write_reply<W: Write>(
    answer: &Result<Reply, Refusal>,
    out: &mut Watched<W>,
) -> Result<(), WriteFault>
    ensures wrote { Wrote W.contents out.old out.new (answer_line (answer_of answer.now)) result }
    ensures broke { OnErr result (Broke W.contents out.old out.new (answer_line (answer_of answer.now))) }
{
    let mut draft = Draft::new();
    put_line(answer, &mut draft, out);
    draft.send(out);
    if out.failed() {
        return Err(WriteFault);
    }
    Ok(())
}

fn put_line<W: Write>(answer: &Result<Reply, Refusal>, draft: &mut Draft, out: &mut Watched<W>)
    ensures { Added W.contents out.old draft.old out.new draft.new (answer_line (answer_of answer.now)) }
{
    put_answer(answer, draft, out);
    draft.put(b"\n", out);
}

fn put_answer<W: Write>(answer: &Result<Reply, Refusal>, draft: &mut Draft, out: &mut Watched<W>)
    ensures { Added W.contents out.old draft.old out.new draft.new (answer_text (answer_of answer.now)) }
{
    match answer {
        Ok(reply) => put_reply(reply, draft, out),
        Err(refusal) => draft.put(refusal_text(*refusal), out),
    }
}

fn refusal_text(refusal: Refusal) -> &'static [u8]
    ensures { result.now ≡ refusal_text (refusal_of refusal) }
{
    match refusal {
        Refusal::Busy => b"! 1 busy",
        Refusal::Idle => b"! 2 idle",
        Refusal::Range => b"! 3 range",
        Refusal::Long => b"! 4 long",
        Refusal::Spent => b"! 5 spent",
        Refusal::Memory => b"! 6 memory",
    }
}

fn put_reply<W: Write>(reply: &Reply, draft: &mut Draft, out: &mut Watched<W>)
    ensures { Added W.contents out.old draft.old out.new draft.new (answer_text (reply_of reply.now)) }
{
    match reply {
        Reply::Begun { txn } => put_count(b"begun ", u64::from(txn.get()), draft, out),
        Reply::Value { value } => put_value(value.bytes(), draft, out),
        Reply::Absent => draft.put(b"absent", out),
        Reply::Done => draft.put(b"done", out),
        Reply::Rows { rows } => put_rows(rows, draft, out),
        Reply::Committed => draft.put(b"committed", out),
        Reply::Aborted => draft.put(b"aborted", out),
        Reply::Conflict { key, writer } => put_conflict(key, *writer, draft, out),
        Reply::Unsafe { pivot } => put_count(b"unsafe ", u64::from(pivot.get()), draft, out),
        Reply::Kept { versions } => put_count(b"kept ", *versions, draft, out),
        Reply::Stat {
            open_txns,
            kept,
            versions,
            keys,
        } => put_stat(*open_txns, *kept, *versions, *keys, draft, out),
    }
}

fn put_stat<W: Write>(
    open_txns: u64,
    kept: u64,
    versions: u64,
    keys: u64,
    draft: &mut Draft,
    out: &mut Watched<W>,
)
    ensures { Added W.contents out.old draft.old out.new draft.new (answer_text (Counts open_txns kept versions keys)) }
{
    put_count(b"stat open ", open_txns, draft, out);
    put_count(b" kept ", kept, draft, out);
    put_count(b" versions ", versions, draft, out);
    put_count(b" keys ", keys, draft, out);
}

fn put_count<W: Write>(word: &[u8], count: u64, draft: &mut Draft, out: &mut Watched<W>)
    ensures { Added W.contents out.old draft.old out.new draft.new (word.now ++ decimal count) }
{
    draft.put(word, out);
    draft.put_number(count, out);
}

fn put_value<W: Write>(value: &[u8], draft: &mut Draft, out: &mut Watched<W>)
    ensures { Added W.contents out.old draft.old out.new draft.new (codes "value " ++ value.now) }
{
    draft.put(b"value ", out);
    draft.put(value, out);
}

fn put_conflict<W: Write>(key: &Key, writer: Txn, draft: &mut Draft, out: &mut Watched<W>)
    ensures { Added W.contents out.old draft.old out.new draft.new
        (codes "conflict " ++ key.now ++ codes " " ++ decimal writer) }
{
    draft.put(b"conflict ", out);
    draft.put(key.bytes(), out);
    put_count(b" ", u64::from(writer.get()), draft, out);
}

fn put_rows<W: Write>(rows: &[FinalPair], draft: &mut Draft, out: &mut Watched<W>)
    ensures { Added W.contents out.old draft.old out.new draft.new
        (codes "rows " ++ decimal (length (map final_of rows.now)) ++ flat_map row_text (map final_of rows.now)) }
{
    put_count(b"rows ", rows.len() as u64, draft, out);
    put_each(rows, draft, out);
}

fn put_each<W: Write>(rows: &[FinalPair], draft: &mut Draft, out: &mut Watched<W>)
    ensures { Added W.contents out.old draft.old out.new draft.new (flat_map row_text (map final_of rows.now)) }
{
    for row in rows {
        put_row(row, draft, out);
    }
}

fn put_row<W: Write>(row: &FinalPair, draft: &mut Draft, out: &mut Watched<W>)
    ensures { Added W.contents out.old draft.old out.new draft.new (row_text (final_of row.now)) }
{
    draft.put(b" ", out);
    draft.put(row.key.bytes(), out);
    draft.put(b",", out);
    draft.put(row.value.bytes(), out);
}
