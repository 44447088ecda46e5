//! Runs that a crash or a fault of the disk cuts off, each of which begins again with what is left.

ghost use Rattle.std.specs.Prelude.{◌≡◌, true, IfOk, OnOk};

use crate::course::Course;
use crate::turn::restart;
use disk_testing::Mixing;
use memchr::memrchr;
use sqlite_disk::{Crash, Disk, Fuse};
use ssi_log::{Log, LogFault};
use std::alloc::Global;
use std::io;

/// A file with so many zeros, all of them on the disk.
pub fn zeros(alloc: Global, seed: u64, n: usize) -> Result<Mixing, LogFault>
    ensures { IfOk result (λ disk. disk.is_usable ≡ true) }
{
    let mut zeros = Vec::new(alloc);
    zeros.resize(n, 0)?;
    let mut disk = Mixing::new(alloc, seed);
    match write_and_sync(&mut disk, &zeros) {
        Ok(()) => Ok(disk),
        Err(error) => Err(LogFault::Failed(error)),
    }
}

fn write_and_sync(disk: &mut Mixing, bytes: &[u8]) -> io::Result<()>
    requires { disk.old.is_usable ≡ true }
    ensures { OnOk result (disk.new.is_usable ≡ true) }
{
    disk.write_at(0, bytes)?;
    disk.sync()
}

/// The text up to its last line feed.
fn whole_lines(text: &[u8]) -> &[u8] {
    match memrchr(b'\n', text) {
        Some(at) => &text[..=at],
        None => &text[..0],
    }
}

/// The machine stops at a call of the disk. Then the log is opened with the whole lines that are left, goes on, and crashes
/// again.
pub fn stops_after(alloc: Global, seed: u64, calls: u64) -> Result<bool, LogFault> {
    let disk = zeros(alloc, seed, 40)?;
    let mut log = Log::new(Fuse::new(disk, calls));
    let mut course = Course::from(alloc, b"")?;
    let _ = run(&mut log, alloc, &mut course);
    let mut disk = log.into_disk();
    disk.crash();
    goes_on(alloc, disk, &course)
}

/// A write or a sync fails, and the machine crashes after it. Until then a log that isn't open refuses each call, and one whose
/// disk was full is extended.
pub fn fails_after(alloc: Global, seed: u64, calls: u64) -> Result<bool, LogFault> {
    let mut disk = zeros(alloc, seed, 40)?;
    disk.fail_after(calls);
    let mut log = Log::new(disk);
    let mut course = Course::from(alloc, b"")?;
    let is_as_it_says = match run(&mut log, alloc, &mut course) {
        Err(LogFault::Failed(_)) => is_closed(&mut log),
        Err(LogFault::Full(_)) => log.extend(9).is_ok(),
        Err(_) => false,
        Ok(()) => true,
    };
    let mut disk = log.into_disk();
    disk.crash();
    Ok(is_as_it_says && goes_on(alloc, disk, &course)?)
}

/// Opens the log and follows the course until a call fails.
fn run<D: Disk>(log: &mut Log<D>, alloc: Global, course: &mut Course) -> Result<(), LogFault> {
    restart(log, alloc)?;
    course.follow(log)
}

/// Each call that adds anything says that the log isn't open.
fn is_closed<D: Disk>(log: &mut Log<D>) -> bool {
    matches!(log.append(b"x"), Err(LogFault::Closed))
        && matches!(log.sync(), Err(LogFault::Closed))
        && matches!(log.extend(1), Err(LogFault::Closed))
}

/// What is left is what the course has kept, and a log that begins with its lines keeps what is added to these.
fn goes_on<D: Crash + Drop>(alloc: Global, disk: D, before: &Course) -> Result<bool, LogFault> {
    let mut course = Course::from(alloc, b"")?;
    let mut log = Log::new(disk);
    let has_left = begins_again(&mut log, alloc, before, &mut course);
    let mut disk = log.into_disk();
    disk.crash();
    let mut log = Log::new(disk);
    let again = log.read(alloc)?;
    Ok(has_left? && course.is_kept_by(&again))
}

/// Opens a log with the whole lines that are left, and follows a new course.
fn begins_again<D: Disk>(
    log: &mut Log<D>,
    alloc: Global,
    before: &Course,
    course: &mut Course,
) -> Result<bool, LogFault> {
    let left = log.read(alloc)?;
    let lines = whole_lines(&left);
    log.resume(lines, 30)?;
    *course = Course::from(alloc, lines)?;
    course.follow(log)?;
    Ok(before.is_kept_by(&left))
}
