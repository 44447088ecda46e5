//! Work for measuring the layers of the store by themselves: `ssi_bench chains|marks|tracker TRANSACTIONS KEYS
//! ROUNDS [open]`. It prints what the part holds at the end, and how many versions its reads have found or
//! readers its writes have met, both summed over the rounds. `bench/layers` runs it and measures.
#![tactic(auto)]

mod chain_work;
mod mark_work;
mod tracker_work;
mod work;

use crate::work::{Done, Work};
use ssi_reads::IndexMarks;
use ssi_versions::KeyChains;
use std::alloc::Global;
use std::env;
use std::io::Write;
use std::process::ExitCode;

fn main(rt: HostRuntime) -> ExitCode {
    let Some(done) = run(&rt) else {
        return ExitCode::FAILURE;
    };
    match writeln!(rt.stdout(), "{} {}", done.held, done.met) {
        Ok(()) => ExitCode::SUCCESS,
        Err(_) => ExitCode::FAILURE,
    }
}

/// Returns what the rounds that the arguments ask for have done; nothing if they ask for none or memory runs out.
fn run(rt: &HostRuntime) -> Option<Done> {
    let alloc = rt.alloc();
    let mut arguments = env::args(rt).ok()?;
    let _program = arguments.next();
    let part = arguments.next()?;
    let transactions = arguments.next()?.parse().ok()?;
    let keys = arguments.next()?.parse().ok()?;
    let rounds: u32 = arguments.next()?.parse().ok()?;
    let work = Work {
        transactions,
        keys,
        is_open: arguments.next().is_some(),
    };
    let (mut held, mut met) = (0u64, 0u64);
    for _ in 0..rounds {
        let done = round(alloc, part.as_str(), &work)?;
        held = held.wrapping_add(done.held);
        met = met.wrapping_add(done.met);
    }
    Some(Done { held, met })
}

/// Does the work once, over an empty part.
fn round(alloc: Global, part: &str, work: &Work) -> Option<Done> {
    match part {
        "chains" => chain_work::run(&mut KeyChains::new(alloc), work),
        "marks" => mark_work::run(&mut IndexMarks::new(alloc), work),
        "tracker" => tracker_work::run(alloc, IndexMarks::new(alloc), work),
        _ => None,
    }
}
