//! The arguments of the program.

use clap::{Arg, ArgAction, Command};
use std::alloc::{AllocError, Global};

/// The version of the program, and the program logic with which it is proved.
const VERSION: &str = "1.0.0 (logic dac8208d650f15bf)";

const ABOUT: &str = "Says whether a list-append history is serializable.";

const MORE: &str = "\
Reads a history as Jepsen records it, in EDN or JSON, from FILE or from standard
input, and writes `serializable`, or `not serializable` with the reason.

docs/lists.md describes the texts, the answers and the exit statuses.";

/// The command line of the program.
pub(crate) fn command_line<'a>(alloc: Global) -> Result<Command<'a>, AllocError> {
    let command = Command::new(alloc, "lists")
        .version(VERSION)
        .about(ABOUT)
        .after_help(MORE);
    let command = command.arg(file(alloc))?;
    let command = command.arg(format(alloc))?;
    let command = command.arg(order(alloc))?;
    let command = command.arg(dot(alloc))?;
    command.arg(json(alloc))
}

fn file<'a>(alloc: Global) -> Arg<'a> {
    Arg::new(alloc, "FILE").help("The file of the history; standard input if it is left out")
}

fn format<'a>(alloc: Global) -> Arg<'a> {
    Arg::new(alloc, "format")
        .long("format")
        .value_name("FORM")
        .action(ArgAction::Set)
        .help("The form of the text: edn or json; told by the text if it is left out")
}

fn order<'a>(alloc: Global) -> Arg<'a> {
    Arg::new(alloc, "order")
        .long("order")
        .value_name("ORDER")
        .action(ArgAction::Set)
        .help("The file for the order that was found: the index of each transaction, one a line")
}

fn dot<'a>(alloc: Global) -> Arg<'a> {
    Arg::new(alloc, "dot")
        .long("dot")
        .value_name("DOT")
        .action(ArgAction::Set)
        .help("The file for the cycle that was found, if one decides: a drawing for Graphviz")
}

fn json<'a>(alloc: Global) -> Arg<'a> {
    Arg::new(alloc, "json")
        .long("json")
        .action(ArgAction::SetTrue)
        .help("Write the answer as an object of JSON")
}
