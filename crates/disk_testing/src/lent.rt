//! A disk that is lent.

use sqlite_disk::{Disk, Tally};
use std::io;

/// A disk that whoever owns it has lent: each call is one of that disk.
#[derive(Drop)]
pub struct Lent<'a, D: Disk> {
    disk: &'a mut D,
}

impl<'a, D: Disk> Lent<'a, D> {
    /// Lends the disk.
    pub fn new(disk: &'a mut D) -> Lent<'a, D> {
        Lent { disk }
    }
}

impl<D: Disk> Disk for Lent<'_, D> {
    ghost seen = { λ l. D.Disk.seen l.disk.now };

    ghost may_leave = { λ l. D.Disk.may_leave l.disk.now };

    ghost is_usable = { λ l. D.Disk.is_usable l.disk.now };

    ghost faults = { λ l. D.Disk.faults l.disk.now };

    ghost tally_of = { λ l. D.Disk.tally_of l.disk.now };

    ghost is_clean = { λ l. D.Disk.is_clean l.disk.now };

    ghost key_of = { λ l. D.Disk.key_of l.disk.now };

    ghost is_fair = { λ l. D.Disk.is_fair l.disk.now };

    ghost is_mixing = { λ l. D.Disk.is_mixing l.disk.now };

    ghost fair_if_clean = { λ l. D.Disk.fair_if_clean l.disk.now };

    ghost seen_may_stay = { λ l. D.Disk.seen_may_stay l.disk.now };

    fn mixes(&self) -> bool {
        self.disk.mixes()
    }

    fn key(&self) -> u64 {
        self.disk.key()
    }

    fn tally(&self) -> Tally {
        self.disk.tally()
    }

    fn may_be_used(&self) -> bool {
        self.disk.may_be_used()
    }

    fn len(&mut self) -> io::Result<usize> {
        self.disk.len()
    }

    fn read_at(&mut self, at: usize, buf: &mut [u8]) -> io::Result<()> {
        self.disk.read_at(at, buf)
    }

    fn read_checked(&mut self, key: u64, want: u64, at: usize, buf: &mut [u8]) -> io::Result<()> {
        self.disk.read_checked(key, want, at, buf)
    }

    fn write_at(&mut self, at: usize, bytes: &[u8]) -> io::Result<()> {
        self.disk.write_at(at, bytes)
    }

    fn set_len(&mut self, len: usize) -> io::Result<()> {
        self.disk.set_len(len)
    }

    fn sync(&mut self) -> io::Result<()> {
        self.disk.sync()
    }
}
