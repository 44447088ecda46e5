//! The test cases of a server over a log. For each the program writes whether it is as defined: values that were worked out by
//! hand, logs that are recovered, and runs on a disk in memory that stop at each call, of which each write and each sync fails,
//! or whose disk is full.
#![tactic(auto)]

mod chance;
mod early;
mod life;
mod many;
mod plain;
mod recovering;
mod runs;
mod seen;
mod serving;
mod texts;
mod words;
mod worked;
mod wrong;

use runs::{Run, Trouble};
use seen::Seen;
use std::io;
use wrong::Wrong;

/// How many seeds there are of the runs with each trouble, and of those with many lines.
const SEEDS: u64 = 20;

fn main(rt: HostRuntime) -> io::Result<()> {
    let alloc = rt.alloc();
    say(&rt, "replies after a settle", worked::replies(alloc))?;
    say(&rt, "early replies", early::early_replies(alloc))?;
    say(&rt, "lines that count", worked::lines_that_count(alloc))?;
    say(&rt, "full disk", worked::full_disk(alloc))?;
    say(&rt, "replies after a recovery", recovering::goes_on(alloc))?;
    say(&rt, "torn line", recovering::torn_line(alloc))?;
    say(&rt, "full disk at a recovery", recovering::full_disk(alloc))?;
    say(&rt, "no log", recovering::no_log(alloc))?;
    say(&rt, "damaged line", recovering::damaged_line(alloc))?;
    let mut seen = Seen::NOTHING;
    for seed in 0..SEEDS {
        say_wrong(
            &rt,
            "many lines",
            seed,
            0,
            many::many_lines(alloc, seed, &mut seen),
        )?;
        say_runs(&rt, "stops", seed, Trouble::Stops, &mut seen)?;
        say_runs(&rt, "fails", seed, Trouble::Fails, &mut seen)?;
        say_runs(&rt, "full", seed, Trouble::Full, &mut seen)?;
    }
    println!(rt;
        "many lines, and runs that stop, that fail and whose disk is full: {SEEDS} seeds each"
    )?;
    say_seen(&rt, "replies given out", seen.given)?;
    say_seen(&rt, "replies given out early", seen.early)?;
    say_seen(&rt, "lines kept without a reply", seen.kept)?;
    say_seen(&rt, "lines lost", seen.lost)?;
    say_seen(&rt, "lines torn", seen.torn)?;
    say_seen(&rt, "full disks", seen.full)?;
    say_seen(&rt, "other faults", seen.failed)
}

/// Writes how a case went.
fn say(rt: &HostRuntime, name: &str, case: Result<(), Wrong>) -> io::Result<()> {
    match case {
        Ok(()) => println!(rt; "{name}: as defined"),
        Err(wrong) => println!(rt; "{name}: {wrong:?}"),
    }
}

/// Writes whether some run has shown this.
fn say_seen(rt: &HostRuntime, name: &str, is_seen: bool) -> io::Result<()> {
    let outcome = if is_seen { "seen" } else { "never seen" };
    println!(rt; "{name}: {outcome}")
}

/// Writes how a run went, if it isn't as defined.
fn say_wrong(
    rt: &HostRuntime,
    name: &str,
    seed: u64,
    calls: u64,
    case: Result<(), Wrong>,
) -> io::Result<()> {
    match case {
        Ok(()) => Ok(()),
        Err(wrong) => println!(rt; "{name} after {calls} calls, seed {seed}: {wrong:?}"),
    }
}

/// Writes how the runs with this trouble went, after each number of calls of the disk that their first life can make.
fn say_runs(
    rt: &HostRuntime,
    name: &str,
    seed: u64,
    trouble: Trouble,
    seen: &mut Seen,
) -> io::Result<()> {
    let calls = match Run::without_end(seed, trouble).go(rt.alloc(), seen) {
        Ok(calls) => calls,
        Err(wrong) => return println!(rt; "{name} never, seed {seed}: {wrong:?}"),
    };
    for calls in 0..calls {
        let run = Run {
            seed,
            trouble,
            calls,
        };
        say_wrong(rt, name, seed, calls, run.go(rt.alloc(), seen).and(Ok(())))?;
    }
    Ok(())
}
