//! A file in memory of which a crash leaves each byte old or new.

ghost use Rattle.std.specs.Prelude.{◌≡◌, ◌⊎◌, ◌≤◌, ◌<◌, length, slice_index, MatchOption, true, false, refl, IfOk, OnOk, OnErr, is_ok};
ghost use Rattle.sqlite_disk.specs.Disk.{CountsFault, Cut, Holds, Mixed};
ghost use Rattle.sqlite_disk.specs.Refusal.{finds_no_room};
ghost use Rattle.disk_testing.specs.Leaving.{MayLeave, seen_stays};

use crate::coins::Coins;
use crate::written::Written;
use sqlite_disk::{Crash, Disk, Tally};
use std::alloc::{AllocError, Global};
use std::io;

/// A file in memory. After a crash each byte that was written and not synced is the old one or the new one, as coins fall.
#[derive(Drop)]
pub struct Mixing {
    /// What a read returns, and what it returned at the last sync.
    bytes: Vec<u8>,
    synced: Vec<u8>,
    written: Written,
    is_usable: bool,
    faults: u64,
    coins: Coins,
    /// How many writes and syncs come before one that fails, if one is to.
    before_fault: Option<u64>,
    /// The file can't grow.
    is_full: bool,
    /// How many calls there were.
    calls: u64,
    ghost grown: { length synced.items ≤ length bytes.items },
}

impl Mixing {
    /// A file that is empty. Each crash leaves what coins of this seed choose.
    pub fn new(alloc: Global, seed: u64) -> Mixing
        ensures { result.is_usable ≡ true }
    {
        Mixing {
            bytes: Vec::new(alloc),
            synced: Vec::new(alloc),
            written: Written::NOTHING,
            is_usable: true,
            faults: 0,
            coins: Coins::new(seed),
            before_fault: None,
            is_full: false,
            calls: 0,
        }
    }

    /// A file that has these bytes, all of them on the disk. Each crash leaves what coins of this seed choose.
    pub fn with_bytes(alloc: Global, seed: u64, bytes: &[u8]) -> Result<Mixing, AllocError> {
        let mut disk = Mixing::new(alloc, seed);
        disk.bytes.extend_from_slice(bytes)?;
        disk.synced.extend_from_slice(bytes)?;
        Ok(disk)
    }

    /// After so many writes and syncs one fails: of a write half of the bytes are written then.
    pub fn fail_after(&mut self, calls: u64)
        ensures { self.new.is_usable ≡ self.old.is_usable }
    {
        self.before_fault = Some(calls);
    }

    /// From now on each write that makes the file longer fails, after half of its bytes.
    pub fn fill(&mut self) {
        self.is_full = true;
    }

    /// Returns how many calls of the file there were.
    pub fn calls(&self) -> u64 {
        self.calls
    }

    /// What a read returns.
    pub fn bytes(&self) -> &[u8] {
        &self.bytes
    }
}

/// Counts a write or a sync, and returns whether it is to fail.
fn is_to_fail(before_fault: &mut Option<u64>) -> bool {
    let Some(calls) = *before_fault else {
        return false;
    };
    *before_fault = calls.checked_sub(1);
    calls == 0
}

impl Disk for Mixing {
    ghost seen = { λ m. m.bytes.items };

    ghost may_leave = { λ m. MayLeave m.synced.items m.bytes.items };

    ghost is_usable = { λ m. m.is_usable };

    ghost faults = { λ m. m.faults };

    ghost is_clean = { λ _. true };

    ghost is_mixing = { λ _. true };

    ghost tally_of = { λ _. record { caught = 0; refused = 0 } };

    ghost key_of = { λ _. 0 };

    ghost is_fair = { λ _ _. true };

    ghost fair_if_clean = { λ _ _ _. refl };

    ghost seen_may_stay = { λ m. seen_stays m.synced.items m.bytes.items m.grown };

    fn mixes(&self) -> bool {
        true
    }

    fn key(&self) -> u64 {
        0
    }

    fn tally(&self) -> Tally {
        Tally {
            caught: 0,
            refused: 0,
        }
    }

    fn may_be_used(&self) -> bool {
        self.is_usable
    }

    fn len(&mut self) -> io::Result<usize> {
        self.calls = self.calls.saturating_add(1);
        Ok(self.bytes.len())
    }

    fn read_at(&mut self, at: usize, buf: &mut [u8]) -> io::Result<()> {
        self.calls = self.calls.saturating_add(1);
        if at > self.bytes.len() || buf.len() > self.bytes.len() - at {
            return Err(io::ErrorKind::UnexpectedEof.into());
        }
        buf.copy_from_slice(&self.bytes[at..at + buf.len()]);
        Ok(())
    }

    // A log never asks for it.
    fn read_checked(
        &mut self,
        _key: u64,
        _want: u64,
        _at: usize,
        _buf: &mut [u8],
    ) -> io::Result<()> {
        refuse(&mut self.faults)
    }

    fn write_at(&mut self, at: usize, bytes: &[u8]) -> io::Result<()> {
        self.calls = self.calls.saturating_add(1);
        self.written.add(at, bytes.len());
        let fails = is_to_fail(&mut self.before_fault)
            || self.is_full && bytes.len() > self.bytes.len().saturating_sub(at);
        let n = if fails { bytes.len() / 2 } else { bytes.len() };
        if overwrite(&mut self.bytes, at, bytes, n).is_err() || fails {
            return refuse(&mut self.faults);
        }
        Ok(())
    }

    // A log never asks for it.
    fn set_len(&mut self, _len: usize) -> io::Result<()> {
        refuse(&mut self.faults)
    }

    fn sync(&mut self) -> io::Result<()> {
        self.calls = self.calls.saturating_add(1);
        if is_to_fail(&mut self.before_fault) || replace(&mut self.synced, &self.bytes).is_err() {
            self.is_usable = false;
            return refuse(&mut self.faults);
        }
        self.written = Written::NOTHING;
        Ok(())
    }
}

/// No call fails after a crash, unless that is asked for once more. If memory runs out, another crash may leave what this one
/// may have left.
impl Crash for Mixing {
    fn crash(&mut self) {
        self.is_usable = true;
        self.before_fault = None;
        self.is_full = false;
        choose(&mut self.bytes, &self.synced, self.written, &mut self.coins);
        if replace(&mut self.synced, &self.bytes).is_ok() {
            self.written = Written::NOTHING;
        }
    }
}

/// Counts a call that fails.
fn refuse(faults: &mut u64) -> io::Result<()>
    ensures fails { is_ok result ≡ false }
    ensures kind { finds_no_room result ≡ false }
    ensures faults { CountsFault result faults.old faults.new }
{
    *faults = faults.saturating_add(1);
    Err(io::Error::other("the test wants it so"))
}

fn replace(file: &mut Vec<u8>, bytes: &[u8]) -> Result<(), AllocError>
    ensures ok { OnOk result (file.new.items ≡ bytes.now) }
    ensures err { OnErr result (file.new.items ≡ file.old.items) }
{
    if file.len() == bytes.len() {
        file[..].copy_from_slice(bytes);
        return Ok(());
    }
    let mut copy = Vec::new(*file.allocator());
    copy.extend_from_slice(bytes)?;
    *file = copy;
    Ok(())
}

fn resize(file: &mut Vec<u8>, len: usize) -> Result<(), AllocError>
    ensures len { OnOk result (length file.new.items ≡ len) }
    ensures others { Cut len file.old.items file.new.items }
{
    file.resize(len, 0)
}

/// Writes the first n of the bytes.
fn overwrite(file: &mut Vec<u8>, at: usize, bytes: &[u8], n: usize) -> Result<(), AllocError>
    requires { n ≤ length bytes.now }
    ensures written { OnOk result (n ≡ length bytes.now → Holds file.new.items at bytes.now) }
    ensures mixed { Mixed at bytes.now file.old.items file.new.items }
{
    let end = at.checked_add(n).ok_or(AllocError)?;
    if end > file.len() {
        resize(file, end)?;
    }
    file[at..end].copy_from_slice(&bytes[..n]);
    Ok(())
}

/// Makes of a file what a crash leaves of it.
fn choose(bytes: &mut Vec<u8>, synced: &[u8], written: Written, coins: &mut Coins)
    requires { length synced.now ≤ length bytes.old.items }
    ensures { MayLeave synced.now bytes.old.items bytes.new.items }
{
    let (from, to) = written.within(bytes.len());
    for i in from..to {
        let Some(byte) = choose_byte(synced, i, bytes[i], coins) else {
            bytes.truncate(i);
            return;
        };
        bytes[i] = byte;
    }
}

/// What a crash leaves of a byte, or `None` if the file ends before it.
fn choose_byte(synced: &[u8], i: usize, new: u8, coins: &mut Coins) -> Option<u8>
    ensures { MatchOption result (length synced.now ≤ i)
        (λ b. i < length synced.now → (b ≡ slice_index synced.now i) ⊎ (b ≡ new)) }
{
    let Some(old) = synced.get(i) else {
        return match coins.number() % 8 {
            0 => None,
            1 => Some(b'#'),
            2 => Some(0),
            _ => Some(new),
        };
    };
    Some(if coins.toss() { new } else { *old })
}
