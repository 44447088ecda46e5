//! Commits over chains: each reads four keys and installs a version of one.

ghost use Rattle.std.specs.Prelude.{◌≡◌, [], suc};
ghost use Rattle.ssi_versions.specs.Mirror.{IsAbove};

use crate::work::{Done, Work, key_of, txn_of};
use adya_values::{Content, Mod, Version};
use ssi_versions::Chains;

const READS: u64 = 4;

/// Installs a version by each transaction, reads before it, and collects after each tenth of them. Each version that a read
/// finds is met.
pub(crate) fn run<C: Chains>(chains: &mut C, work: &Work) -> Option<Done>
    requires { C.held chains.old ≡ [] }
{
    let tenth = (work.transactions as u64 / 10).max(1);
    let mut seen = 0u64;
    for stamp in 1..work.transactions as u64 + 1 {
        seen = seen.wrapping_add(read(chains, work, stamp)?);
        install(chains, work, stamp)?;
        if stamp % tenth == 0 {
            collect(chains, work, stamp);
        }
    }
    Some(Done {
        held: chains.held(),
        met: seen,
    })
}

/// Reads some keys at the snapshot before the stamp. Returns how many of them have a version.
fn read<C: Chains>(chains: &C, work: &Work, stamp: u64) -> Option<u64> {
    let mut seen = 0u64;
    for nth in 0..READS {
        let key = key_of(work.chosen(stamp.wrapping_mul(8).wrapping_add(nth)))?;
        if chains.at(key, stamp.wrapping_sub(1)).is_some() {
            seen = seen.wrapping_add(1);
        }
    }
    Some(seen)
}

fn install<C: Chains>(chains: &mut C, work: &Work, stamp: u64) -> Option<()>
    requires { IsAbove stamp (C.held chains.old) }
    ensures { IsAbove (suc stamp) (C.held chains.new) }
{
    let key = key_of(work.chosen(stamp.wrapping_mul(8).wrapping_add(READS)))?;
    let version = Version {
        key,
        txn: txn_of(stamp)?,
        m: Mod::new(1).ok()?,
    };
    chains.install(stamp, &[(version, Content::Dead)]).ok()
}

/// Keeps what the newest snapshot sees, and the one that has been open since a tenth of the transactions.
fn collect<C: Chains>(chains: &mut C, work: &Work, stamp: u64)
    requires { IsAbove (suc stamp) (C.held chains.old) }
    ensures { IsAbove (suc stamp) (C.held chains.new) }
{
    let open = (work.transactions / 10) as u64;
    if work.is_open && open < stamp {
        chains.collect(&[open, stamp]);
    } else {
        chains.collect(&[stamp]);
    }
}
