//! Runs of several lives, each of which a crash ends.

ghost use Rattle.std.specs.Prelude.{◌≤◌};

use crate::chance::ByChance;
use crate::life::Life;
use crate::plain::new_store;
use crate::seen::Seen;
use crate::serving::live;
use crate::texts::{HEAD, LEAST_ROOM, file, text_of};
use crate::wrong::Wrong;
use disk_testing::{Coins, Lent, Mixing};
use sqlite_disk::{Crash, Fuse};
use ssi_durable::Release;
use std::alloc::Global;

/// What happens to the disk in a life.
#[derive(Clone, Copy, PartialEq, Eq)]
pub enum Trouble {
    /// The machine stops after so many calls.
    Stops,
    /// After so many writes and syncs one fails.
    Fails,
    /// The file can't grow, and the machine stops after so many calls.
    Full,
}

/// A run of three lives. There is trouble in two of them, in the first one after so many calls.
#[derive(Clone, Copy)]
pub struct Run {
    pub seed: u64,
    pub trouble: Trouble,
    pub calls: u64,
}

impl Run {
    /// A run whose first life goes on until all is done.
    pub fn without_end(seed: u64, trouble: Trouble) -> Run {
        Run {
            seed,
            trouble,
            calls: u64::MAX,
        }
    }

    /// Lives the three lives, and returns how many calls of the disk the first one has made.
    pub fn go(self, alloc: Global, seen: &mut Seen) -> Result<u64, Wrong> {
        let mut disk = file(alloc, self.seed, HEAD, self.more())?;
        self.go_on(alloc, &mut disk, seen)
    }

    fn go_on(self, alloc: Global, disk: &mut Mixing, seen: &mut Seen) -> Result<u64, Wrong> {
        let mut coins = Coins::new(self.seed);
        self.live(alloc, disk, &mut coins, seen)?;
        let calls = disk.calls();
        // a recovery writes the file piece by piece
        let pieces = disk.bytes().len() as u64 / 16_384;
        let second = Run {
            seed: self.seed,
            trouble: self.trouble,
            calls: pieces + coins.number() % 24,
        };
        second.live(alloc, disk, &mut coins, seen)?;
        let third = Run::without_end(self.seed, Trouble::Stops);
        third.live(alloc, disk, &mut coins, seen)?;
        Ok(calls)
    }

    /// Lives, crashes, and looks at what is left.
    fn live(
        self,
        alloc: Global,
        disk: &mut Mixing,
        coins: &mut Coins,
        seen: &mut Seen,
    ) -> Result<(), Wrong> {
        let mut life = Life::new(alloc, text_of(disk), self.release())?;
        self.live_until(alloc, disk, coins, &mut life)?;
        end(alloc, disk, &life, seen)
    }

    fn live_until(
        self,
        alloc: Global,
        disk: &mut Mixing,
        coins: &mut Coins,
        life: &mut Life,
    ) -> Result<(), Wrong> {
        let calls = self.prepare(disk);
        let disk = Fuse::new(Lent::new(disk), calls);
        live(alloc, disk, self.ahead(), life, &mut ByChance { coins })?;
        let has_trouble = life.has_failed || life.was_full && self.trouble != Trouble::Full;
        if has_trouble && self.calls == u64::MAX {
            return Err(Wrong::Failed);
        }
        Ok(())
    }

    /// Returns after how many calls the machine is to stop.
    fn prepare(self, disk: &mut Mixing) -> u64 {
        match self.trouble {
            Trouble::Stops => self.calls,
            Trouble::Fails => {
                disk.fail_after(self.calls);
                u64::MAX
            }
            Trouble::Full => {
                disk.fill();
                self.calls
            }
        }
    }

    /// How much room a log has at first, beside the least. On a full disk, and with every fourth seed, it is little: soon the file
    /// has to grow.
    fn more(self) -> usize
        ensures { result ≤ 20000 }
    {
        if self.trouble == Trouble::Full || self.seed % 8 == 3 || self.seed % 8 == 6 {
            40
        } else {
            20_000
        }
    }

    /// With every second seed only `committed` waits for the disk.
    fn release(self) -> Release {
        if self.seed % 2 == 0 {
            Release::Synced
        } else {
            Release::Early
        }
    }

    /// How much room a recovery is to make. On a full disk there is what there is.
    fn ahead(self) -> usize {
        if self.trouble == Trouble::Full {
            return 0;
        }
        LEAST_ROOM + self.more()
    }
}

/// The machine crashes, and what it leaves has to be as defined.
pub fn end(alloc: Global, disk: &mut Mixing, life: &Life, seen: &mut Seen) -> Result<(), Wrong> {
    disk.crash();
    let left = text_of(disk);
    seen.add(life.seen(left));
    life.may_leave(alloc, &mut new_store(alloc), left)
}
