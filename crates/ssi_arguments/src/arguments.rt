//! The arguments of the program, and what they ask for.

ghost use Rattle.std.specs.Prelude.{◌≡◌, ◌≢◌, ◌⊎◌, ℕ, List, [], ◌∷◌, ◌++◌, Option, option_map, true, map, drop, codes, string_bytes, IfOk, IfErr, IsErr, IsErrAnd, MatchResult};
ghost use Rattle.clap.specs.Words.{rows_of, found_of, first_of, kind_of, subcommand_rows_of, subcommand_of, fault_of};
ghost use Rattle.clap.specs.declared.error.kind.ErrorKind.TheVariants.{OutOfMemory, DisplayHelp, DisplayVersion};
ghost use Rattle.ssi_arguments.specs.Clauses.CommandLine.{app_for, path_in, is_given, manner_in, left_open_in, replies_in, request_in, request_named, request_served};
ghost use Rattle.ssi_arguments.specs.Clauses.Arguments.{Request, request_of, storage_for, arguments_of, folder_options_of, given, paths_of, are_plain, IsRefusal};
ghost use Rattle.ssi_arguments.specs.Clauses.Storage.{has_option, storage_in};
ghost use Rattle.ssi_arguments.specs.declared.arguments.LeftOpen.{LeftOpen};
ghost use Rattle.ssi_arguments.specs.declared.arguments.Replies.{Replies};
ghost use Rattle.ssi_arguments.specs.declared.storage.Storage.TheVariants.{Folder};
ghost use Rattle.ssi_arguments.specs.declared.arguments.NoTask.TheVariants.{Text, Memory};

use crate::command_line::command_line;
use crate::storage::{Storage, storage_of};
use clap::error::ErrorKind;
use clap::{ArgMatches, Error};
use std::alloc::{AllocError, Global};
use std::env::Args;
use std::rt::Env;
use std::{env, io};

/// What the arguments ask for. A path is an argument as it was given.
#[derive(Drop)]
pub enum Task<'a> {
    /// To audit the two texts on standard input.
    Pipe,
    /// To audit the history and the certificate in these files.
    Audit {
        history: &'a str,
        certificate: &'a str,
    },
    /// To find a certificate, or a cycle, of the history in this file.
    Order {
        history: &'a str,
    },
    /// To carry out the commands on standard input, and write the history and a certificate to these files.
    Script {
        history: &'a str,
        certificate: &'a str,
    },
    /// To carry out the commands of the connections to this socket, and write the history and a certificate to these
    /// files.
    Serve {
        socket: &'a str,
        history: &'a str,
        certificate: &'a str,
        manner: Manner,
    },
    /// To carry out the commands of the connections to this socket, all at once, on the store in this folder, with segments of
    /// this length, and with sessions that are aborted after so many seconds without a command. Both are as they were given:
    /// [`segment_len`](crate::segment_len) and [`idle_seconds`](crate::idle_seconds) read them.
    Keep {
        socket: &'a str,
        folder: &'a str,
        left_open: LeftOpen,
        replies: Replies,
        segment: Option<&'a str>,
        idle: Option<&'a str>,
    },
    /// To certify the finished segments in this folder.
    Seal {
        folder: &'a str,
    },
}

/// How the connections to a socket are served.
#[derive(Clone, Copy, Debug, PartialEq, Eq)]
pub enum Manner {
    /// One after the other.
    InTurn,
    /// All at once.
    AtOnce,
    /// All at once; when one ends, the sessions whose last command it sent are aborted.
    Aborting,
}

/// What becomes of the sessions whose last command came from a connection that has ended.
#[derive(Clone, Copy, Debug, PartialEq, Eq)]
pub enum LeftOpen {
    /// They stay open, and another connection may go on with them.
    Keep,
    /// They are aborted.
    Abort,
}

/// Which replies wait for the disk.
#[derive(Clone, Copy, Debug, PartialEq, Eq)]
pub enum Replies {
    /// Each waits until its line is on the disk.
    Synced,
    /// Only `committed` waits for the disk. Sessions that have a transaction are aborted at a start.
    Early,
}

/// Why the arguments ask for no task.
#[derive(Drop)]
pub enum NoTask {
    /// The parser has a text to print: help, the version, or what is wrong with the arguments.
    Text(Error),
    /// The arguments are not UTF-8.
    NotUtf8,
    /// Memory ran out.
    Memory,
}

impl From<AllocError> for NoTask {
    ghost from_gives = { λ _ none. none ≡ Memory };

    fn from(_: AllocError) -> NoTask {
        NoTask::Memory
    }
}

impl From<Error> for NoTask {
    ghost from_gives = { λ error none. (kind_of error ≡ OutOfMemory → none ≡ Memory)
        × (kind_of error ≢ OutOfMemory → none ≡ Text error) };

    fn from(error: Error) -> NoTask {
        match error.kind() {
            ErrorKind::OutOfMemory => NoTask::Memory,
            _ => NoTask::Text(error),
        }
    }
}

/// Returns the program's name and its arguments, as they were given. `NotUtf8` if one of them isn't UTF-8, `Memory` if
/// memory runs out.
pub fn given_arguments<R: Env + AllocGlobal>(rt: &R) -> Result<Vec<String>, NoTask>
    ensures { IfErr result (λ none. (none ≡ NoTask.NotUtf8) ⊎ (none ≡ NoTask.Memory)) }
{
    match env::args(rt) {
        Ok(arguments) => Ok(listed(rt.alloc(), arguments)?),
        Err(e) if e.kind() == io::ErrorKind::OutOfMemory => Err(NoTask::Memory),
        Err(_) => Err(NoTask::NotUtf8),
    }
}

fn listed(alloc: Global, arguments: Args) -> Result<Vec<String>, AllocError> {
    let mut listed = Vec::new(alloc);
    for argument in arguments {
        listed.push(argument)?;
    }
    Ok(listed)
}

/// Returns what the arguments ask for; the first string is the program's name. An argument that begins with a hyphen is
/// an option of the parser: `--help`, `--version`, or `--`, after which a path may begin with a hyphen. `Text` if the parser has
/// something to print, `Memory` if memory runs out. It never returns `NotUtf8`.
pub fn task_of<'a>(alloc: Global, arguments: &'a [String]) -> Result<Task<'a>, NoTask>
    // The parser has no fault at the arguments of a task, and the task is the one that its matches ask for.
    ensures task { let given = map string_bytes arguments.entry.now in let matched = subcommand_of (app_for given) given in
        IfOk result (λ task. (fault_of (app_for given) given ≡ []) × (request_of task ≡ request_in (storage_in (drop 1 given)) matched)) }
    // The text is of the first fault that the parser has at the arguments; help is one, and so is the version.
    ensures refusal { let given = map string_bytes arguments.entry.now in
        IfErr result (IsRefusal (fault_of (app_for given) given)) }
    ensures help { let rest = drop 1 (map string_bytes arguments.entry.now) in
        rest ≡ codes "--help" ∷ [] → IsErrAnd result (IsRefusal (DisplayHelp ∷ [])) }
    ensures version { let rest = drop 1 (map string_bytes arguments.entry.now) in
        rest ≡ codes "--version" ∷ [] → IsErrAnd result (IsRefusal (DisplayVersion ∷ [])) }
    // The arguments of a task whose paths don't begin with a hyphen ask for it; they are refused only if memory runs out.
    // Arguments that don't begin with a hyphen ask for nothing else.
    ensures asked { let rest = drop 1 (map string_bytes arguments.entry.now) in
        (request : Request) → are_plain (paths_of request) ≡ true → rest ≡ arguments_of request
        → MatchResult result (λ task. request_of task ≡ request) (λ none. none ≡ NoTask.Memory) }
    ensures no_other { let rest = drop 1 (map string_bytes arguments.entry.now) in
        are_plain rest ≡ true → IfOk result (λ task. rest ≡ arguments_of (request_of task)) }
    // A task keeps a store in a folder if and only if its arguments are those of `serve`, with the option `--data`. Beside it
    // they name only the socket, and don't have the option `--concurrent`.
    ensures kept { let rest = drop 1 (map string_bytes arguments.entry.now) in
        IfOk result (λ task. storage_for (request_of task) ≡ storage_in rest) }
    ensures kept_alone { let rest = drop 1 (map string_bytes arguments.entry.now) in
        (left_open : LeftOpen) (replies : Replies) (segment idle : Option (List ℕ)) (folder : List ℕ) (others : List (List ℕ))
        → are_plain (folder ∷ given segment ++ given idle ++ others) ≡ true
        → rest ≡ codes "serve" ∷ folder_options_of left_open replies segment idle folder ++ others
        → IfOk result (λ task. rest ≡ arguments_of (request_of task)) }
    ensures kept_at_once { let rest = drop 1 (map string_bytes arguments.entry.now) in
        storage_in rest ≡ Folder → has_option (codes "--concurrent") rest ≡ true → IsErr result }
{
    let storage = storage_of(arguments);
    let command = command_line(alloc, storage)?;
    let matches = command.try_get_matches_from(arguments)?;
    Ok(task_in(storage, &matches))
}

fn task_in<'a>(storage: Storage, matches: &ArgMatches<'a>) -> Task<'a>
    ensures { request_of result ≡ request_in storage (subcommand_rows_of matches.now) }
{
    match matches.subcommand() {
        None => Task::Pipe,
        Some((name, given)) => task_named(storage, name, given),
    }
}

fn task_named<'a>(storage: Storage, name: &str, given: &ArgMatches<'a>) -> Task<'a>
    ensures { request_of result ≡ request_named storage name.now (rows_of (found_of given.now)) }
{
    match name {
        "audit" => Task::Audit {
            history: path(given, "HISTORY"),
            certificate: path(given, "CERTIFICATE"),
        },
        "order" => Task::Order {
            history: path(given, "HISTORY"),
        },
        "script" => Task::Script {
            history: path(given, "HISTORY"),
            certificate: path(given, "CERTIFICATE"),
        },
        "seal" => Task::Seal {
            folder: path(given, "DIR"),
        },
        // `serve`, the only other one
        _ => task_served(storage, given),
    }
}

fn task_served<'a>(storage: Storage, given: &ArgMatches<'a>) -> Task<'a>
    ensures { request_of result ≡ request_served storage (rows_of (found_of given.now)) }
{
    match storage {
        Storage::Files => Task::Serve {
            socket: path(given, "SOCKET"),
            history: path(given, "HISTORY"),
            certificate: path(given, "CERTIFICATE"),
            manner: how_served(given),
        },
        Storage::Folder => Task::Keep {
            socket: path(given, "SOCKET"),
            folder: path(given, "data"),
            left_open: what_is_left(given),
            replies: what_waits(given),
            segment: text(given, "segment"),
            idle: text(given, "idle"),
        },
    }
}

/// Returns the value of an option, if it has one.
fn text<'a>(given: &ArgMatches<'a>, name: &str) -> Option<&'a str>
    ensures { option_map (λ text. text.now) result ≡ first_of name.now (rows_of (found_of given.now)) }
{
    given.get_str(name)
}

// The parser has seen to it that each path is there.
fn path<'a>(given: &ArgMatches<'a>, name: &str) -> &'a str
    ensures { result.now ≡ path_in (rows_of (found_of given.now)) name.now }
{
    given.get_str(name).unwrap_or("")
}

fn how_served(given: &ArgMatches<'_>) -> Manner
    ensures { result ≡ manner_in (rows_of (found_of given.now)) }
{
    if is_given(given, "abort-on-close") {
        return Manner::Aborting;
    }
    if is_given(given, "concurrent") {
        return Manner::AtOnce;
    }
    Manner::InTurn
}

fn what_is_left(given: &ArgMatches<'_>) -> LeftOpen
    ensures { result ≡ left_open_in (rows_of (found_of given.now)) }
{
    if is_given(given, "abort-on-close") {
        return LeftOpen::Abort;
    }
    LeftOpen::Keep
}

fn what_waits(given: &ArgMatches<'_>) -> Replies
    ensures { result ≡ replies_in (rows_of (found_of given.now)) }
{
    if is_given(given, "early") {
        return Replies::Early;
    }
    Replies::Synced
}

fn is_given(given: &ArgMatches<'_>, option: &str) -> bool
    ensures { result ≡ is_given (rows_of (found_of given.now)) option.now }
{
    match path(given, option) {
        "true" => true,
        _ => false,
    }
}
