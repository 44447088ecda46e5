//! The program `lists`: reads a list-append history and says whether an order of the transactions explains it.
#![tactic(auto)]

mod arguments;
mod hint;
mod late_file;
mod spot;
mod tasks;

use progress::Progress;
use std::io::IsTerminal;
use std::process::ExitCode;
use tasks::run;

fn main(rt: HostRuntime) -> ExitCode {
    let progress = Progress::if_terminal(rt.stderr().is_terminal());
    ExitCode::from(run(&rt, progress))
}
