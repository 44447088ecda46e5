//! Writing whole texts.

ghost use Rattle.adya_values.specs.Mirror.Events.{events_of};
ghost use Rattle.adya_values.specs.Mirror.Histories.{history_of, serial_txns};
ghost use Rattle.adya_values.specs.Mirror.Lines.{finals_of, orders_of};
ghost use Rattle.devices.specs.Clauses.Writing.{Wrote};
ghost use Rattle.adya_line.specs.Meaning.Spelling.{head_text, tail, event_text, unfinished_text, order_text, final_text, txn_text};
ghost use Rattle.adya_text.specs.Meaning.Texts.{history_text, serial_text};
ghost use Rattle.adya_text.specs.Machinery.TextParts.{ended, lines_of, history_parts, serial_parts};

use adya_line::{
    history_head, second_head, serial_head, tail, write_event, write_final, write_order, write_txn,
    write_unfinished,
};
use adya_values::{Edition, Events, Finals, History, Orders, Serial, Txn};
use devices::{Watched, put, put_line};
use std::io;
use std::io::Write;
use thiserror::Error;

/// The device failed; how much was written is not said.
#[derive(Clone, Copy, Debug, PartialEq, Eq, Error, Drop)]
#[error("write fault")]
pub struct WriteFault;

/// Writes the history's text. Returns `WriteFault` only if the device has failed; how much it took is then not said.
#[tactic(auto, using(crate::proofs::WrittenTexts::written_history))]
pub fn write_history<W: Write>(history: &History, out: &mut Watched<W>) -> Result<(), WriteFault>
    ensures { Wrote W.contents out.old out.new (history_text (history_of history.now)) result }
{
    put_history(history, out).map_err(|_| WriteFault)
}

/// Writes the certificate's text. Returns `WriteFault` only if the device has failed; how much it took is then not
/// said.
#[tactic(auto, using(crate::proofs::WrittenTexts::written_serial))]
pub fn write_serial<W: Write>(serial: &Serial, out: &mut Watched<W>) -> Result<(), WriteFault>
    ensures { Wrote W.contents out.old out.new (serial_text (serial_txns serial.now)) result }
{
    put_serial(serial, out).map_err(|_| WriteFault)
}

#[tactic(auto, unfolding(crate::specs::Machinery::TextParts::history_parts))]
fn put_history<W: Write>(history: &History, out: &mut Watched<W>) -> io::Result<()>
    ensures { Wrote W.contents out.old out.new (history_parts (history_of history.now)) result }
{
    put_head(history.edition(), out)?;
    put_events(history.events(), out)?;
    put_unfinished(history.unfinished(), out)?;
    put_orders(history.orders(), out)?;
    put_finals(history.finals(), out)?;
    put_tail(out)
}

#[tactic(auto, unfolding(crate::specs::Machinery::TextParts::serial_parts))]
fn put_serial<W: Write>(serial: &Serial, out: &mut Watched<W>) -> io::Result<()>
    ensures { Wrote W.contents out.old out.new (serial_parts (serial_txns serial.now)) result }
{
    put_line(serial_head(), out)?;
    put_txns(serial.txns(), out)?;
    put_tail(out)
}

fn put_head<W: Write>(edition: Edition, out: &mut Watched<W>) -> io::Result<()>
    ensures { Wrote W.contents out.old out.new (ended (head_text edition)) result }
{
    match edition {
        Edition::One => put_line(history_head(), out),
        Edition::Two => put_line(second_head(), out),
    }
}

fn put_tail<W: Write>(out: &mut Watched<W>) -> io::Result<()>
    ensures { Wrote W.contents out.old out.new (ended tail) result }
{
    put_line(tail(), out)
}

fn put_events<W: Write>(events: &Events, out: &mut Watched<W>) -> io::Result<()>
    ensures { Wrote W.contents out.old out.new (lines_of event_text (events_of events.now)) result }
{
    for i in 0..events.len() {
        let event = events.at(i);
        write_event(&event, out)?;
        put(b"\n", out)?;
    }
    Ok(())
}

fn put_unfinished<W: Write>(txns: &[Txn], out: &mut Watched<W>) -> io::Result<()>
    ensures { Wrote W.contents out.old out.new (lines_of unfinished_text txns.now) result }
{
    for txn in txns {
        write_unfinished(*txn, out)?;
        put(b"\n", out)?;
    }
    Ok(())
}

fn put_orders<W: Write>(orders: &Orders, out: &mut Watched<W>) -> io::Result<()>
    ensures { Wrote W.contents out.old out.new (lines_of order_text (orders_of orders.now)) result }
{
    for i in 0..orders.len() {
        write_order(orders.key(i), orders.writers(i), out)?;
        put(b"\n", out)?;
    }
    Ok(())
}

fn put_finals<W: Write>(finals: &Finals, out: &mut Watched<W>) -> io::Result<()>
    ensures { Wrote W.contents out.old out.new (lines_of final_text (finals_of finals.now)) result }
{
    for i in 0..finals.len() {
        let pair = finals.at(i);
        write_final(&pair, out)?;
        put(b"\n", out)?;
    }
    Ok(())
}

fn put_txns<W: Write>(txns: &[Txn], out: &mut Watched<W>) -> io::Result<()>
    ensures { Wrote W.contents out.old out.new (lines_of txn_text txns.now) result }
{
    for txn in txns {
        write_txn(*txn, out)?;
        put(b"\n", out)?;
    }
    Ok(())
}
