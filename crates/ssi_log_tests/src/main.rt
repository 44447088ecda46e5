//! The test cases of the log. For each the program writes whether it is as defined: values that were worked out by hand, and
//! runs on a disk in memory that stop at each call, or of which each write and each sync fails.
#![tactic(auto)]

mod course;
mod crashes;
mod turn;
mod worked;

use ssi_log::LogFault;
use std::io;

fn main(rt: HostRuntime) -> io::Result<()> {
    let alloc = rt.alloc();
    say(&rt, "two lines", worked::two_lines(alloc))?;
    say(&rt, "all arrives", worked::all_arrives(alloc))?;
    say(&rt, "front of a text", worked::front_of_a_text(alloc))?;
    say(&rt, "long text", worked::long_text(alloc))?;
    say(&rt, "refused", worked::refused(alloc))?;
    for seed in 0..24 {
        for calls in 0..30 {
            say_wrong(
                &rt,
                "stops",
                seed,
                calls,
                crashes::stops_after(alloc, seed, calls),
            )?;
            say_wrong(
                &rt,
                "fails",
                seed,
                calls,
                crashes::fails_after(alloc, seed, calls),
            )?;
        }
    }
    println!(rt; "720 runs that stop, and 720 of which a call fails")
}

/// Writes how a case went.
fn say(rt: &HostRuntime, name: &str, case: Result<bool, LogFault>) -> io::Result<()> {
    match case {
        Ok(true) => println!(rt; "{name}: as defined"),
        Ok(false) => println!(rt; "{name}: something else"),
        Err(fault) => println!(rt; "{name}: {fault:?}"),
    }
}

/// Writes how a run went, if it isn't as defined.
fn say_wrong(
    rt: &HostRuntime,
    name: &str,
    seed: u64,
    calls: u64,
    case: Result<bool, LogFault>,
) -> io::Result<()> {
    match case {
        Ok(true) => Ok(()),
        Ok(false) => println!(rt; "{name} after {calls} calls, seed {seed}: something else"),
        Err(fault) => println!(rt; "{name} after {calls} calls, seed {seed}: {fault:?}"),
    }
}
