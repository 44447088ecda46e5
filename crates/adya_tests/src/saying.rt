//! The lines that the program writes.

use devices::{Watched, put_number};
use std::io;
use std::io::Write;

/// Writes the parts one after the other.
pub(crate) fn say(rt: &HostRuntime, parts: &[&str]) -> io::Result<()> {
    let mut out = rt.stdout();
    for part in parts {
        out.write_all(part.as_bytes())?;
    }
    Ok(())
}

/// Writes for each case whether it is as defined.
pub(crate) fn say_cases(rt: &HostRuntime, cases: &[(&str, bool)]) -> io::Result<()> {
    for (name, is_so) in cases {
        let said = if *is_so {
            ": as defined\n"
        } else {
            ": otherwise\n"
        };
        say(rt, &[*name, said])?;
    }
    Ok(())
}

/// Writes the parts, the number, and the last part.
pub(crate) fn say_number(
    rt: &HostRuntime,
    parts: &[&str],
    number: u64,
    last: &str,
) -> io::Result<()> {
    say(rt, parts)?;
    put_number(number, &mut Watched::new(rt.stdout()))?;
    say(rt, &[last])
}
