//! A run over an input.

ghost use Rattle.std.specs.Prelude.{◌≡◌, List, [], ◌∷◌, ℕ, IsErr, true, false};
ghost use Rattle.std.specs.Option.{option_copied, option_and_then};
ghost use Rattle.devices.specs.Mirror.{has_failed};
ghost use Rattle.ssi_store.specs.Mirror.Stores.{IsAt};
ghost use Rattle.ssi_line.specs.Meaning.Steps.{Step};
ghost use Rattle.ssi_line.specs.Clauses.Ends.{WentOn, Took, EndsAs};
ghost use Rattle.ssi_line.specs.Clauses.Answers.{kept, Answered};

use crate::End;
use crate::carrying::carry_out;
use crate::lines::next_line;
use crate::short_line::ShortLine;
use adya_text::WriteFault;
use devices::{LineBuffer, Source, Watched};
use ssi_reads::Marks;
use ssi_store::Store;
use ssi_versions::Chains;
use std::alloc::Global;
use std::io::Write;

/// Carries out the lines of the input, one after the other, up to and with the first `stop`. It answers each before it
/// reads further, by one `write_all`, or several if a scan's rows make more than 4096 bytes. What follows the last line
/// feed is no line: it is not carried out, and has no answer.
///
/// A command whose answer could not be written has been carried out, and is the last. Beside what the store takes for its commands, only
/// `dump` takes memory. If memory runs out, `! 6 memory` is answered and nothing else of that line, and the run goes on.
pub fn serve<S: Source, W: Write, C: Chains + Drop, M: Marks + Drop>(
    alloc: Global,
    reader: &mut S,
    writer: &mut Watched<W>,
    store: &mut Store<C, M>,
) -> End
    ensures run { (lines : List (List ℕ)) × (steps : List Step) × (after : List ℕ)
        × Took (S.remaining reader.old) lines steps after (S.remaining reader.new)
        × WentOn (IsAt C.held M.marked) store.old steps store.new
        × EndsAs result W.contents steps after (S.remaining reader.new) writer.old writer.new }
    ensures read_fault { result ≡ End.ReadFault → S.is_failed reader.new ≡ true }
    ensures write_fault { result ≡ End.WriteFault → has_failed writer.new ≡ true }
    ensures eof { result ≡ End.Eof → S.is_failed reader.new ≡ false }
    ensures unfailed { (result ≡ End.ReadFault → ⊥) → S.is_failed reader.new ≡ true → S.is_failed reader.old ≡ true }
    ensures stream { S.same reader.old reader.new }
{
    let mut buffer = LineBuffer::new();
    let mut line = ShortLine::new();
    loop {
        match next_line(&mut buffer, reader, &mut line) {
            Ok(true) => {}
            Ok(false) => return End::Eof,
            Err(_) => return End::ReadFault,
        }
        match answer(alloc, line.text(), writer, store) {
            Ok(false) => {}
            Ok(true) => return End::Stop,
            Err(_) => return End::WriteFault,
        }
    }
}

/// Carries out one line, given without its line feed. `None` stands for a line of more than 4096 bytes, and so does one that is
/// given with as many. It writes the answer to `out`, and returns whether the line ends the run.
///
/// Returns `WriteFault` only if the device has failed. The line has been carried out then, too, and the device took a front
/// of the answer, but not all. Beside what the store takes for its commands, only `dump` takes memory; if that runs out,
/// `! 6 memory` is answered.
pub fn answer<W: Write, C: Chains + Drop, M: Marks + Drop>(
    alloc: Global,
    line: Option<&[u8]>,
    out: &mut Watched<W>,
    store: &mut Store<C, M>,
) -> Result<bool, WriteFault>
    ensures answered { (text : List ℕ) → option_and_then kept (option_copied line.entry) ≡ kept text → (step : Step)
        × Answered W.contents text step result out.old out.new
        × WentOn (IsAt C.held M.marked) store.old (step ∷ []) store.new }
    ensures fault { IsErr result → has_failed out.new ≡ true }
{
    let carried = carry_out(alloc, line, out, store);
    carried.written.and(Ok(carried.stops))
}
