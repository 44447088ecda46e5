//! The program `ssi`: audits histories by certificates, finds certificates or cycles, and runs the store.
#![tactic(auto)]

mod data;
mod grammar;
mod hint;
mod late_file;
mod noted;
mod output_file;
mod places;
mod problem;
mod replaced_file;
mod seal;
mod sockets;
mod tasks;

use progress::Progress;
use std::io::IsTerminal;
use std::process::ExitCode;
use tasks::run;

fn main(rt: HostRuntime) -> ExitCode {
    let progress = Progress::if_terminal(rt.stderr().is_terminal());
    ExitCode::from(run(&rt, progress))
}
