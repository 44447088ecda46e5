//! The names of segments.

use crate::say;
use crate::trouble::Trouble;
use ssi_files::{Ending, SegmentNumber, file_name, number_of};
use std::io;

const LAST: u32 = 99_999_999;

pub(crate) fn say_names(rt: &HostRuntime) -> Result<(), Trouble> {
    say(rt, "numbers", numbers_end())?;
    say(rt, "names", are_named())?;
    for line in rt.lines(rt.alloc()) {
        say_name(rt, line?.as_str())?;
    }
    Ok(())
}

fn say_name(rt: &HostRuntime, name: &str) -> io::Result<()> {
    match number_of(name.as_bytes(), Ending::Log) {
        Some(number) => println!(rt; "'{name}': segment {}", number.get()),
        None => println!(rt; "'{name}': no segment"),
    }
}

fn numbers_end() -> bool {
    let (Some(first), Some(last)) = (SegmentNumber::new(1), SegmentNumber::new(LAST)) else {
        return false;
    };
    SegmentNumber::new(0).is_none()
        && SegmentNumber::new(LAST + 1).is_none()
        && first.next() == SegmentNumber::new(2)
        && last.next().is_none()
        && last.get() == LAST
}

fn are_named() -> bool {
    let Some(number) = SegmentNumber::new(1_020_304) else {
        return false;
    };
    file_name(number, Ending::Log) == *b"01020304.log"
        && file_name(number, Ending::New) == *b"01020304.new"
        && number_of(b"01020304.new", Ending::New) == Some(number)
}
