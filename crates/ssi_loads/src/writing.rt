//! Writing the first lines of a segment.

ghost use Rattle.std.specs.Prelude.{◌≡◌, ◌++◌, ◌∷◌, [], map, IfOk, OnOk};
ghost use Rattle.std.specs.List.{AllByRecursion};
ghost use Rattle.adya_line.specs.Meaning.Limits.{IsFinal};
ghost use Rattle.adya_values.specs.Mirror.Events.{final_of};
ghost use Rattle.adya_text.specs.Meaning.Texts.{with_ends};
ghost use Rattle.ssi_durable.specs.Meaning.Lines.{header};
ghost use Rattle.ssi_loads.specs.Meaning.Loads.{first_lines, load_of, put_line};

use adya_values::FinalPair;
use itoa::Buffer;
use std::alloc::{AllocError, Global};

/// The most operations of a transaction, and so the most rows that one loads.
const MAX_ROWS: usize = 65_535;

/// Returns the text of the first lines of the segment with this number, each with its line feed: the header, transactions that
/// write the rows in their order, 65,535 in each but the last one, and the line after which come the lines that were carried
/// out in the segment. Returns `AllocError` if memory ran out.
pub fn first_lines(alloc: Global, number: u32, rows: &[FinalPair]) -> Result<Vec<u8>, AllocError>
    ensures text { IfOk result (λ text. text.items ≡ with_ends (first_lines number (map final_of rows.now))) }
    ensures within { OnOk result (AllByRecursion IsFinal (map final_of rows.now)) }
{
    let mut text = Vec::new(alloc);
    put_header(number, &mut text)?;
    for group in rows.chunks(MAX_ROWS) {
        put_load(group, &mut text)?;
    }
    text.extend_from_slice(b"# loaded\n")?;
    Ok(text)
}

/// Writes the first line of the segment with this number.
fn put_header(number: u32, text: &mut Vec<u8>) -> Result<(), AllocError>
    ensures { OnOk result (text.new.items ≡ text.old.items ++ with_ends (header number ∷ [])) }
{
    text.extend_from_slice(b"# ssi log 1 segment ")?;
    text.extend_from_slice(Buffer::new().format(number).as_bytes())?;
    text.extend_from_slice(b"\n")
}

/// Writes a transaction that writes the rows.
fn put_load(rows: &[FinalPair], text: &mut Vec<u8>) -> Result<(), AllocError>
    ensures grown { OnOk result (text.new.items ≡ text.old.items ++ with_ends (load_of (map final_of rows.now))) }
    ensures within { OnOk result (AllByRecursion IsFinal (map final_of rows.now)) }
{
    text.extend_from_slice(b"begin load\n")?;
    put_rows(rows, text)?;
    text.extend_from_slice(b"commit load\n")
}

/// Writes a line for each row.
fn put_rows(rows: &[FinalPair], text: &mut Vec<u8>) -> Result<(), AllocError>
    ensures grown { OnOk result (text.new.items ≡ text.old.items ++ with_ends (map put_line (map final_of rows.now))) }
    ensures within { OnOk result (AllByRecursion IsFinal (map final_of rows.now)) }
{
    for row in rows {
        put_row(row, text)?;
    }
    Ok(())
}

/// Writes the line that writes the row.
fn put_row(row: &FinalPair, text: &mut Vec<u8>) -> Result<(), AllocError>
    ensures grown { OnOk result (text.new.items ≡ text.old.items ++ with_ends (put_line (final_of row.now) ∷ [])) }
    ensures within { OnOk result (IsFinal (final_of row.now)) }
{
    text.extend_from_slice(b"put load ")?;
    text.extend_from_slice(row.key.bytes())?;
    text.extend_from_slice(b" ")?;
    text.extend_from_slice(row.value.bytes())?;
    text.extend_from_slice(b"\n")
}
