//! Carrying out one line.

ghost use Rattle.std.specs.Prelude.{◌≡◌, List, [], ◌∷◌, ℕ, IsErr, true, false};
ghost use Rattle.std.specs.Option.{option_copied, option_and_then};
ghost use Rattle.devices.specs.Mirror.{has_failed};
ghost use Rattle.ssi_store.specs.Meaning.Courses.{Answer};
ghost use Rattle.ssi_store.specs.Mirror.Commands.{command_of, answer_of};
ghost use Rattle.ssi_line.specs.Meaning.Steps.{Step, Given, IsStepOf, step_text};
ghost use Rattle.ssi_line.specs.Clauses.Counting.{counts};
ghost use Rattle.ssi_line.specs.Clauses.Ends.{WentOn, WentOnLogged};
ghost use Rattle.ssi_line.specs.Clauses.Answers.{kept, Said, IsCarried};
ghost use Rattle.ssi_line.specs.Machinery.Answering.{IsDump};

use crate::dump::dump_text;
use crate::short_line::MAX_LINE_LEN;
use crate::{Carried, Line, ProtocolStore, read_line, write_reply};
use adya_text::WriteFault;
use devices::{Watched, put};
use ssi_store::{Command, Refusal, Reply};
use std::alloc::Global;
use std::io::Write;

/// Carries out one line as [`answer`](crate::answer) does, and returns what came of it, also if the answer can't be written.
pub fn carry_out<W: Write, S: ProtocolStore>(
    alloc: Global,
    line: Option<&[u8]>,
    out: &mut Watched<W>,
    store: &mut S,
) -> Carried
    ensures carried { (step : Step)
        × ((text : List ℕ) → option_and_then kept (option_copied line.entry) ≡ kept text → IsStepOf S.keeps text step)
        × IsCarried W.contents step result out.old out.new
        × WentOn S.is_at store.old (step ∷ []) store.new
        × WentOnLogged S.is_at store.old step store.new }
    ensures fault { IsErr result.written → has_failed out.new ≡ true }
{
    let Some(text) = short(line) else {
        return idle(say(b"? long\n", out));
    };
    match read_line(text) {
        None => idle(say(b"? syntax\n", out)),
        Some(Line::Stop) => Carried {
            stops: true,
            counted: false,
            written: say(b"stopped\n", out),
        },
        Some(Line::Dump) => idle(say_dump(alloc, store, out)),
        Some(Line::Do(command)) => carry_out_command(command, out, store),
    }
}

/// Returns what came of a line that changed nothing, with the writing of its answer.
fn idle(written: Result<(), WriteFault>) -> Carried
    ensures stops { result.stops ≡ false }
    ensures counted { result.counted ≡ false }
    ensures written { result.written ≡ written }
{
    Carried {
        stops: false,
        counted: false,
        written,
    }
}

fn carry_out_command<W: Write, S: ProtocolStore>(
    command: Command,
    out: &mut Watched<W>,
    store: &mut S,
) -> Carried
    ensures carried { (answer : Answer)
        × IsCarried W.contents (Given (command_of command) answer) result out.old out.new
        × WentOn S.is_at store.old (Given (command_of command) answer ∷ []) store.new
        × WentOnLogged S.is_at store.old (Given (command_of command) answer) store.new }
    ensures fault { IsErr result.written → has_failed out.new ≡ true }
{
    let reply = store.apply(command);
    store.refusals_change_nothing();
    store.stats_change_nothing();
    Carried {
        stops: false,
        counted: counts(&command, &reply),
        written: write_reply(&reply, out),
    }
}

/// Returns whether the line of the command counts, if this is the answer.
fn counts(command: &Command, answer: &Result<Reply, Refusal>) -> bool
    ensures { result ≡ counts (Given (command_of command.now) (answer_of answer.now)) }
{
    answer.is_ok() && !matches!(command, Command::Stat)
}

/// Returns the line, if it isn't too long.
fn short(line: Option<&[u8]>) -> Option<&[u8]>
    ensures { option_copied result ≡ option_and_then kept (option_copied line.entry) }
{
    let line = line?;
    if line.len() > MAX_LINE_LEN {
        return None;
    }
    Some(line)
}

/// Answers with the texts of the history so far and of a certificate, both at once, or says that memory ran out. A store without
/// its history isn't asked for it.
fn say_dump<W: Write, S: ProtocolStore>(
    alloc: Global,
    store: &S,
    out: &mut Watched<W>,
) -> Result<(), WriteFault>
    ensures told { (step : Step) × IsDump S.keeps (S.is_at store.now) step
        × Said W.contents out.old out.new (step_text step) result }
    ensures fault { IsErr result → has_failed out.new ≡ true }
{
    match store.texts(alloc) {
        Some(Ok(text)) => say(&text, out),
        Some(Err(_)) => write_reply(&Err(Refusal::Memory), out),
        None => say(b"? syntax\n", out),
    }
}

fn say<W: Write>(line: &[u8], out: &mut Watched<W>) -> Result<(), WriteFault>
    ensures said { Said W.contents out.old out.new line.now result }
    ensures fault { IsErr result → has_failed out.new ≡ true }
{
    put(line, out).map_err(|_| WriteFault)
}
