//! The command line: its commands, their files and their help.

ghost use Rattle.std.specs.Prelude.{◌≡◌, false, codes, IfOk};
ghost use Rattle.clap.specs.Words.{App, app_of, new_app, rule_of, with_rule, with_subcommand};
ghost use Rattle.clap.specs.declared.builder.command.Command.TheViews.{out-Command as fields_of};
ghost use Rattle.ssi_arguments.specs.Clauses.CommandLine.{file_rule, flag_rule, value_rule, with_version, with_texts, audit_app, order_app, script_app, serve_app, files_app, folder_app, seal_app, ssi_app};

use crate::help;
use crate::storage::Storage;
use clap::{Arg, ArgAction, Command};
use std::alloc::{AllocError, Global};

/// The command line of the program, with the form of `serve` that keeps what it does there.
pub fn command_line<'a>(alloc: Global, storage: Storage) -> Result<Command<'a>, AllocError>
    ensures { IfOk result (λ c. app_of c ≡ ssi_app storage) }
{
    let ssi = versioned(bare(alloc, "ssi", help::ABOUT, help::MORE));
    let ssi = with_command(ssi, audit(alloc))?;
    let ssi = with_command(ssi, order(alloc))?;
    let ssi = with_command(ssi, script(alloc))?;
    let ssi = with_command(ssi, serve(alloc, storage))?;
    with_command(ssi, seal(alloc))
}

/// Adds what was made, if there was memory to make it.
fn with_command<'a>(
    command: Command<'a>,
    made: Result<Command<'a>, AllocError>,
) -> Result<Command<'a>, AllocError>
    ensures { (app : App) → IfOk made.entry (λ one. app_of one ≡ app) → IfOk made.entry (λ one. (fields_of one).has_globals ≡ false)
        → IfOk result (λ c. app_of c ≡ with_subcommand (app_of command.entry) app.top) }
{
    command.subcommand(made?)
}

fn audit<'a>(alloc: Global) -> Result<Command<'a>, AllocError>
    ensures app { IfOk result (λ c. app_of c ≡ audit_app) }
    ensures local { IfOk result (λ c. (fields_of c).has_globals ≡ false) }
{
    let audit = bare(alloc, "audit", help::AUDIT, help::AUDIT_MORE);
    with_texts(alloc, audit, help::HISTORY, help::CERTIFICATE)
}

fn order<'a>(alloc: Global) -> Result<Command<'a>, AllocError>
    ensures app { IfOk result (λ c. app_of c ≡ order_app) }
    ensures local { IfOk result (λ c. (fields_of c).has_globals ≡ false) }
{
    let order = bare(alloc, "order", help::ORDER, help::ORDER_MORE);
    with_file(alloc, order, "HISTORY", help::HISTORY)
}

fn script<'a>(alloc: Global) -> Result<Command<'a>, AllocError>
    ensures app { IfOk result (λ c. app_of c ≡ script_app) }
    ensures local { IfOk result (λ c. (fields_of c).has_globals ≡ false) }
{
    let script = bare(alloc, "script", help::SCRIPT, help::SCRIPT_MORE);
    with_texts(alloc, script, help::NEW_HISTORY, help::NEW_CERTIFICATE)
}

fn serve<'a>(alloc: Global, storage: Storage) -> Result<Command<'a>, AllocError>
    ensures app { IfOk result (λ c. app_of c ≡ serve_app storage) }
    ensures local { IfOk result (λ c. (fields_of c).has_globals ≡ false) }
{
    match storage {
        Storage::Files => serve_with_files(alloc),
        Storage::Folder => serve_with_folder(alloc),
    }
}

fn seal<'a>(alloc: Global) -> Result<Command<'a>, AllocError>
    ensures app { IfOk result (λ c. app_of c ≡ seal_app) }
    ensures local { IfOk result (λ c. (fields_of c).has_globals ≡ false) }
{
    let seal = bare(alloc, "seal", help::SEAL, help::SEAL_MORE);
    with_file(alloc, seal, "DIR", help::SEALED)
}

// The option `--data` is here for the help: with it, `serve` has the other form.
fn serve_with_files<'a>(alloc: Global) -> Result<Command<'a>, AllocError>
    ensures app { IfOk result (λ c. app_of c ≡ files_app) }
    ensures local { IfOk result (λ c. (fields_of c).has_globals ≡ false) }
{
    let serve = bare(alloc, "serve", help::SERVE, help::SERVE_MORE);
    let serve = with_file(alloc, serve, "SOCKET", help::SOCKET)?;
    let serve = with_texts(alloc, serve, help::NEW_HISTORY, help::NEW_CERTIFICATE)?;
    let serve = with_flag(alloc, serve, "concurrent", help::CONCURRENT)?;
    let serve = with_flag(alloc, serve, "abort-on-close", help::ABORT_ON_CLOSE)?;
    with_data(alloc, serve, false)
}

fn serve_with_folder<'a>(alloc: Global) -> Result<Command<'a>, AllocError>
    ensures app { IfOk result (λ c. app_of c ≡ folder_app) }
    ensures local { IfOk result (λ c. (fields_of c).has_globals ≡ false) }
{
    let serve = bare(alloc, "serve", help::SERVE, help::KEEP_MORE);
    let serve = with_file(alloc, serve, "SOCKET", help::SOCKET)?;
    let serve = with_flag(alloc, serve, "abort-on-close", help::KEEP_ABORT_ON_CLOSE)?;
    let serve = with_flag(alloc, serve, "early", help::EARLY)?;
    let serve = with_segment(alloc, serve)?;
    let serve = with_idle(alloc, serve)?;
    with_data(alloc, serve, true)
}

/// A command without files.
fn bare<'a>(alloc: Global, name: &'a str, about: &'a str, more: &'a str) -> Command<'a>
    ensures app { app_of result ≡ new_app name.entry.now }
    ensures local { (fields_of result).has_globals ≡ false }
{
    Command::new(alloc, name).about(about).after_help(more)
}

/// Adds the option `--version`.
fn versioned(command: Command<'_>) -> Command<'_>
    ensures { app_of result ≡ with_version (app_of command.entry) }
{
    command.version(help::VERSION)
}

/// Adds the files of a history and a certificate, with their help.
fn with_texts<'a>(
    alloc: Global,
    command: Command<'a>,
    history: &'a str,
    certificate: &'a str,
) -> Result<Command<'a>, AllocError>
    ensures app { IfOk result (λ c. app_of c ≡ with_texts (app_of command.entry)) }
    ensures local { (fields_of command.entry).has_globals ≡ false → IfOk result (λ c. (fields_of c).has_globals ≡ false) }
{
    let command = with_file(alloc, command, "HISTORY", history)?;
    with_file(alloc, command, "CERTIFICATE", certificate)
}

fn with_file<'a>(
    alloc: Global,
    command: Command<'a>,
    name: &'a str,
    help: &'a str,
) -> Result<Command<'a>, AllocError>
    ensures app { IfOk result (λ c. app_of c ≡ with_rule (app_of command.entry) (file_rule name.entry.now)) }
    ensures local { (fields_of command.entry).has_globals ≡ false → IfOk result (λ c. (fields_of c).has_globals ≡ false) }
{
    command.arg(file(alloc, name, help))
}

fn with_flag<'a>(
    alloc: Global,
    command: Command<'a>,
    name: &'a str,
    help: &'a str,
) -> Result<Command<'a>, AllocError>
    ensures app { IfOk result (λ c. app_of c ≡ with_rule (app_of command.entry) (flag_rule name.entry.now)) }
    ensures local { (fields_of command.entry).has_globals ≡ false → IfOk result (λ c. (fields_of c).has_globals ≡ false) }
{
    command.arg(flag(alloc, name, help))
}

/// Adds the option `--segment`.
fn with_segment<'a>(alloc: Global, command: Command<'a>) -> Result<Command<'a>, AllocError>
    ensures app { IfOk result (λ c. app_of c ≡ with_rule (app_of command.entry) (value_rule (codes "segment") false)) }
    ensures local { (fields_of command.entry).has_globals ≡ false → IfOk result (λ c. (fields_of c).has_globals ≡ false) }
{
    command.arg(value(alloc, "segment", "BYTES", help::SEGMENT))
}

/// Adds the option `--idle`.
fn with_idle<'a>(alloc: Global, command: Command<'a>) -> Result<Command<'a>, AllocError>
    ensures app { IfOk result (λ c. app_of c ≡ with_rule (app_of command.entry) (value_rule (codes "idle") false)) }
    ensures local { (fields_of command.entry).has_globals ≡ false → IfOk result (λ c. (fields_of c).has_globals ≡ false) }
{
    command.arg(value(alloc, "idle", "SECONDS", help::IDLE))
}

/// Adds the option `--data`.
fn with_data<'a>(
    alloc: Global,
    command: Command<'a>,
    is_required: bool,
) -> Result<Command<'a>, AllocError>
    ensures app { IfOk result (λ c. app_of c ≡ with_rule (app_of command.entry) (value_rule (codes "data") is_required)) }
    ensures local { (fields_of command.entry).has_globals ≡ false → IfOk result (λ c. (fields_of c).has_globals ≡ false) }
{
    let data = value(alloc, "data", "DIR", help::DATA);
    command.arg(data.required(is_required))
}

fn file<'a>(alloc: Global, name: &'a str, help: &'a str) -> Arg<'a>
    ensures rule { rule_of result ≡ file_rule name.entry.now }
    ensures local { result.global ≡ false }
{
    Arg::new(alloc, name).help(help).required(true)
}

/// An option that is the name after two hyphens.
fn flag<'a>(alloc: Global, name: &'a str, help: &'a str) -> Arg<'a>
    ensures rule { rule_of result ≡ flag_rule name.entry.now }
    ensures local { result.global ≡ false }
{
    Arg::new(alloc, name)
        .long(name)
        .action(ArgAction::SetTrue)
        .help(help)
}

/// An option that is the name after two hyphens, with a value.
fn value<'a>(alloc: Global, name: &'a str, value_name: &'a str, help: &'a str) -> Arg<'a>
    ensures rule { rule_of result ≡ value_rule name.entry.now false }
    ensures local { result.global ≡ false }
{
    Arg::new(alloc, name)
        .long(name)
        .value_name(value_name)
        .help(help)
}
