//! The store, tried by whole courses of commands over each pair of representations.
//!
//! Without arguments: each line of standard input names what is tried.
//!
//! The name of a folder is that of a worked course. For it the program says whether the replies, the history and the
//! certificate are those of the folder, the snapshots are those that follow from the replies, and the auditor says `yes`: for
//! the commands as they stand, with a collection after each of them, and with a dump after each of them; and, but for the
//! snapshots, for their lines as a script that comes in pieces of any size. The other names are these:
//!
//! - `longest_transaction`, `longest_script` and `longest_script_over_all_pairs`: a transaction of as many operations as one
//!   may have, as commands and as lines;
//! - `last_transaction`: the last transaction number;
//! - `scripts`: lines of any length, a second input to one store, a client that waits for each reply, a socket, and a socket
//!   served at once;
//! - `connections`: connections in memory, one after the other;
//! - `failing_devices`: readers and writers that fail at each of their calls;
//! - `hostile_lines`: lines that are no commands, and lines that are too long;
//! - `endless_streams`: inputs that never end;
//! - `many_sessions`: hundreds of transactions at once;
//! - `open_sessions`: which session has a transaction;
//! - `random_lines`: lines made by chance;
//! - `turn_calls`: turns of connections in memory, which are written again with their answers;
//! - `hub_calls`: calls of a hub, in the same way.
//!
//! With the name of a file: it holds courses, each ended by a line `end`. For each the program writes the replies, the
//! history, the certificate, the verdict on both, and a line `end of list`. `scripts/compare_store.py` reads them.
//!
//! With the name of a file and `hub` or `turns`: it holds calls of a hub, or turns. `scripts/hub_reference.py` and
//! `scripts/turns_reference.py` read what is written.
#![tactic(auto)]

mod answers;
mod at_once;
mod clients;
mod connections;
mod courses;
mod endless_streams;
mod failing_devices;
mod failing_scripts;
mod failing_serves;
mod faults;
mod hostile_lines;
mod hub_calls;
mod in_memory;
mod in_turn;
mod limits;
mod lists;
mod live;
mod many_sessions;
mod open_sessions;
mod random_lines;
mod runs;
mod scripts;
mod texts;
mod turn_calls;
mod worked;

use std::{env, io};

fn main(rt: HostRuntime) -> io::Result<()> {
    let mut arguments = env::args(&rt)?;
    let _program = arguments.next();
    let Some(path) = arguments.next() else {
        return write_named(&rt);
    };
    match arguments.next() {
        Some(kind) => write_calls(&rt, path.as_str(), kind.as_str()),
        None => lists::write_outcomes(&rt, path.as_str()),
    }
}

/// Writes the calls of the file, each with its answer.
fn write_calls(rt: &HostRuntime, path: &str, kind: &str) -> io::Result<()> {
    match kind {
        "turns" => turn_calls::write_answers(rt, path),
        _ => hub_calls::write_answers(rt, path),
    }
}

fn write_named(rt: &HostRuntime) -> io::Result<()> {
    for line in rt.lines(rt.alloc()) {
        let name = line?;
        write_lines(rt, name.as_str())?;
    }
    Ok(())
}

/// Writes what comes of what is named.
fn write_lines(rt: &HostRuntime, name: &str) -> io::Result<()> {
    match name {
        "longest_transaction" => write_line(rt, name, limits::longest_transaction(rt.alloc())),
        "longest_script" => write_line(rt, name, limits::longest_script(rt.alloc())),
        "longest_script_over_all_pairs" => write_line(
            rt,
            name,
            limits::longest_script_over_all_pairs(rt.alloc()),
        ),
        "last_transaction" => write_line(rt, name, limits::last_transaction(rt.alloc())),
        "scripts" => write_scripts(rt),
        "connections" => connections::write_lines(rt),
        "failing_devices" => failing_devices::write_lines(rt),
        "hostile_lines" => write_hostile_lines(rt),
        "endless_streams" => write_endless_streams(rt),
        "many_sessions" => write_many_sessions(rt),
        "open_sessions" => {
            write_line(rt, name, open_sessions::are_told(rt.alloc()) == Some(true))
        }
        "random_lines" => write_line(rt, name, random_lines::are_answered(rt)?),
        "turn_calls" => turn_calls::write_answers(rt, name),
        "hub_calls" => hub_calls::write_answers(rt, name),
        _ => print!(rt; "{}", worked::line_of(rt, name)?),
    }
}

fn write_scripts(rt: &HostRuntime) -> io::Result<()> {
    let alloc = rt.alloc();
    write_line(
        rt,
        "lines of any length",
        scripts::are_lines_told_apart(alloc),
    )?;
    write_line(
        rt,
        "rest of any length",
        scripts::is_long_rest_passed_over(alloc),
    )?;
    write_line(rt, "second input", scripts::are_sessions_the_stores(alloc))?;
    write_line(rt, "line after reply", in_turn::are_lines_answered(alloc))?;
    write_line(rt, "socket", scripts::are_peers_answered(rt)?)?;
    write_line(rt, "socket with texts", scripts::are_peers_recorded(rt)?)?;
    write_line(
        rt,
        "socket that fails",
        scripts::are_peers_recorded_at_a_fault(rt)?,
    )?;
    write_line(rt, "socket at once", at_once::are_peers_answered(rt)?)?;
    write_line(
        rt,
        "socket at once with texts",
        at_once::are_peers_recorded(rt)?,
    )
}

fn write_hostile_lines(rt: &HostRuntime) -> io::Result<()> {
    let alloc = rt.alloc();
    write_line(
        rt,
        "lines_that_are_no_commands",
        hostile_lines::are_no_commands(rt)?,
    )?;
    write_line(rt, "lines_of_letters", hostile_lines::are_letters(alloc))?;
    write_line(
        rt,
        "commands_in_lines_that_are_too_long",
        hostile_lines::are_too_long(alloc),
    )
}

fn write_endless_streams(rt: &HostRuntime) -> io::Result<()> {
    let alloc = rt.alloc();
    write_line(
        rt,
        "serve_endless_line",
        endless_streams::serves_a_line(alloc) == Some(true),
    )?;
    write_line(
        rt,
        "script_endless_line",
        endless_streams::runs_a_line(alloc),
    )?;
    write_line(
        rt,
        "serve_endless_line_feeds",
        endless_streams::serves_line_feeds(alloc) == Some(true),
    )
}

fn write_many_sessions(rt: &HostRuntime) -> io::Result<()> {
    for (name, pair) in many_sessions::PAIRS {
        let is_so = many_sessions::are_answered(rt.alloc(), pair) == Some(true);
        write_line(rt, name, is_so)?;
    }
    Ok(())
}

fn write_line(rt: &HostRuntime, name: &str, is_so: bool) -> io::Result<()> {
    let said = if is_so { "as defined" } else { "otherwise" };
    print!(rt; "{name}: {said}\n")
}
