//! Writing lines.

ghost use Rattle.std.specs.Prelude.{◌++◌, codes, decimal, flat_map};
ghost use Rattle.adya_values.specs.Mirror.Events.{content_of, entries_of, entry_of, view_of, final_of};
ghost use Rattle.adya_keys.specs.Mirror.{value_of};
ghost use Rattle.devices.specs.Clauses.Writing.{Wrote};
ghost use Rattle.adya_line.specs.Machinery.Fronts.{front_text};
ghost use Rattle.adya_line.specs.Meaning.Spelling.{version_text, content_text, entry_text, event_text, unfinished_text};
ghost use Rattle.adya_line.specs.Meaning.Spelling.{later_text, writers_text, order_text, final_text, txn_text};

use adya_values::{Content, Entry, EventView, FinalPair, Key, Listed, Txn, Value, Version};
use devices::{Watched, put, put_number};
use std::io;
use std::io::Write;

/// Writes the event's line, without its line feed. Returns an error only if the device has failed; how
/// much it took is then not said.
#[tactic(auto, unfolding(crate::specs::Meaning::Spelling::event_text, crate::specs::Machinery::Fronts::front_text))]
pub fn write_event<W: Write>(event: &EventView<'_>, out: &mut Watched<W>) -> io::Result<()>
    ensures { Wrote W.contents out.old out.new (event_text (view_of event.now)) result }
{
    match event {
        EventView::Write { txn, key, m, value } => {
            let version = Version {
                key: *key,
                txn: *txn,
                m: *m,
            };
            put_access(b"w", *txn, &version, value.bytes(), out)
        }
        EventView::Delete { txn, key, m } => {
            let version = Version {
                key: *key,
                txn: *txn,
                m: *m,
            };
            put_delete(&version, out)
        }
        EventView::Read {
            txn,
            version,
            value,
        } => put_access(b"r", *txn, version, value.bytes(), out),
        EventView::Scan {
            txn,
            low,
            high,
            entries,
        } => put_scan(*txn, low, high, entries, out),
        EventView::Commit { txn } => put_end(b"c", *txn, out),
        EventView::Abort { txn } => put_end(b"a", *txn, out),
    }
}

/// Writes the line of the key's order, without its line feed. Returns an error only if the device has failed; how
/// much it took is then not said.
#[tactic(auto, unfolding(crate::specs::Meaning::Spelling::order_text))]
pub fn write_order<W: Write>(key: Key, writers: &[Txn], out: &mut Watched<W>) -> io::Result<()>
    ensures { Wrote W.contents out.old out.new (order_text (record { key = key; writers = writers.now })) result }
{
    put(b"[", out)?;
    put(key.bytes(), out)?;
    put(b":", out)?;
    put_writers(writers, out)?;
    put(b"]", out)
}

/// Writes the final's line, without its line feed. Returns an error only if the device has failed; how
/// much it took is then not said.
#[tactic(auto, unfolding(crate::specs::Meaning::Spelling::final_text))]
pub fn write_final<W: Write>(pair: &FinalPair, out: &mut Watched<W>) -> io::Result<()>
    ensures { Wrote W.contents out.old out.new (final_text (final_of pair.now)) result }
{
    put(b"{", out)?;
    put(pair.key.bytes(), out)?;
    put(b",", out)?;
    put(pair.value.bytes(), out)?;
    put(b"}", out)
}

/// Writes the transaction's line of a certificate, without its line feed. Returns an error only if the device has failed; how
/// much it took is then not said.
pub fn write_txn<W: Write>(txn: Txn, out: &mut Watched<W>) -> io::Result<()>
    ensures { Wrote W.contents out.old out.new (txn_text txn) result }
{
    put_number(u64::from(txn.get()), out)
}

/// Writes the unfinished transaction's line, without its line feed. Returns an error only if the device has failed; how
/// much it took is then not said.
pub fn write_unfinished<W: Write>(txn: Txn, out: &mut Watched<W>) -> io::Result<()>
    ensures { Wrote W.contents out.old out.new (unfinished_text txn) result }
{
    put_end(b"u", txn, out)
}

/// Writes the version: `K.T:M`. Returns an error only if the device has failed; how much it took is then not said.
#[tactic(auto, unfolding(crate::specs::Meaning::Spelling::version_text))]
pub fn write_version<W: Write>(version: &Version, out: &mut Watched<W>) -> io::Result<()>
    ensures { Wrote W.contents out.old out.new (version_text version.now) result }
{
    put(version.key.bytes(), out)?;
    put(b".", out)?;
    put_number(u64::from(version.txn.get()), out)?;
    put(b":", out)?;
    put_number(u64::from(version.m.get()), out)
}

/// Writes the letter, the number and what opens the version.
#[tactic(auto, unfolding(crate::specs::Machinery::Fronts::front_text))]
fn put_front<W: Write>(letter: &[u8], txn: Txn, out: &mut Watched<W>) -> io::Result<()>
    ensures { Wrote W.contents out.old out.new (front_text letter.now txn) result }
{
    put(letter, out)?;
    put_number(u64::from(txn.get()), out)?;
    put(b"(", out)
}

/// Writes a write or a read, by its letter.
fn put_access<W: Write>(
    letter: &[u8],
    txn: Txn,
    version: &Version,
    value: &[u8],
    out: &mut Watched<W>,
) -> io::Result<()>
    ensures { Wrote W.contents out.old out.new (front_text letter.now txn ++ version_text version.now ++
        codes "," ++ value.now ++ codes ")") result }
{
    put_front(letter, txn, out)?;
    write_version(version, out)?;
    put(b",", out)?;
    put(value, out)?;
    put(b")", out)
}

/// Writes a version with its content, as a scan lists it.
fn put_entry<W: Write>(entry: &Entry, out: &mut Watched<W>) -> io::Result<()>
    ensures { Wrote W.contents out.old out.new (entry_text (entry_of entry.now)) result }
{
    put(b";", out)?;
    write_version(&entry.version, out)?;
    put(b",", out)?;
    put_content(&entry.content, out)
}

fn put_content<W: Write>(content: &Content, out: &mut Watched<W>) -> io::Result<()>
    ensures { Wrote W.contents out.old out.new (content_text (content_of content.now)) result }
{
    match content {
        Content::Live(value) => put(value.bytes(), out),
        Content::Dead => put(b"!", out),
    }
}

fn put_entries<W: Write>(entries: &Listed<'_>, out: &mut Watched<W>) -> io::Result<()>
    ensures { Wrote W.contents out.old out.new (flat_map entry_text (entries_of entries.now)) result }
{
    for j in 0..entries.len() {
        put_entry(&entries.at(j), out)?;
    }
    Ok(())
}

/// Writes the bounds of a scan.
fn put_range<W: Write>(low: &Key, high: &Key, out: &mut Watched<W>) -> io::Result<()>
    ensures { Wrote W.contents out.old out.new (low.now ++ codes "," ++ high.now) result }
{
    put(low.bytes(), out)?;
    put(b",", out)?;
    put(high.bytes(), out)
}

/// Writes a scan.
fn put_scan<W: Write>(
    txn: Txn,
    low: &Key,
    high: &Key,
    entries: &Listed<'_>,
    out: &mut Watched<W>,
) -> io::Result<()>
    ensures { Wrote W.contents out.old out.new (front_text (codes "s") txn ++ (low.now ++ codes "," ++ high.now) ++
        flat_map entry_text (entries_of entries.now) ++ codes ")") result }
{
    put_front(b"s", txn, out)?;
    put_range(low, high, out)?;
    put_entries(entries, out)?;
    put(b")", out)
}

/// Writes a delete.
fn put_delete<W: Write>(version: &Version, out: &mut Watched<W>) -> io::Result<()>
    ensures { Wrote W.contents out.old out.new (front_text (codes "d") version.now.txn ++ version_text version.now ++ codes ")") result }
{
    put_front(b"d", version.txn, out)?;
    write_version(version, out)?;
    put(b")", out)
}

/// Writes a commit, an abort or an unfinished transaction, by its letter.
fn put_end<W: Write>(letter: &[u8], txn: Txn, out: &mut Watched<W>) -> io::Result<()>
    ensures { Wrote W.contents out.old out.new (letter.now ++ decimal txn) result }
{
    put(letter, out)?;
    put_number(u64::from(txn.get()), out)
}

/// Writes `<<T` for each number.
fn put_later<W: Write>(writers: &[Txn], out: &mut Watched<W>) -> io::Result<()>
    ensures { Wrote W.contents out.old out.new (flat_map later_text writers.now) result }
{
    for txn in writers {
        put(b"<<", out)?;
        put_number(u64::from(txn.get()), out)?;
    }
    Ok(())
}

fn put_writers<W: Write>(writers: &[Txn], out: &mut Watched<W>) -> io::Result<()>
    ensures { Wrote W.contents out.old out.new (writers_text writers.now) result }
{
    let [first, later @ ..] = writers else {
        return Ok(());
    };
    put_number(u64::from(first.get()), out)?;
    put_later(later, out)
}
