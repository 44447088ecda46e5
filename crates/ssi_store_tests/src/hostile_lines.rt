//! Lines that are no commands.

ghost use Rattle.std.specs.Prelude.{◌<◌};

use crate::answers::answers_to;
use crate::texts::are_accepted;
use adya_testing::Pieces;
use devices::Watched;
use ssi_line::End;
use std::alloc::{AllocError, Global};
use std::{fs, io};

/// Whether each line of the file `no_commands` is answered as one that is no command. They have at most 4096 bytes, and
/// some have limits of a scan above 65535, as numbers that are 1 in fewer bits and others.
pub(crate) fn are_no_commands(rt: &HostRuntime) -> io::Result<bool> {
    let text = fs::read(rt, "no_commands")?;
    let Some(lines) = text.strip_suffix(b"\n") else {
        return Ok(false);
    };
    Ok(
        lines.split(|b| *b == b'\n').all(|line| is_answered(rt.alloc(), line, b"? syntax\n")
            == Some(true)),
    )
}

/// Whether lines of so many letters are read if they aren't too long.
pub(crate) fn are_letters(alloc: Global) -> bool {
    [4095, 4096].iter().all(|length| is_front_answered(alloc, b"", *length, b"? syntax\n")
        == Some(true))
        && [4097, 8192, 8193, 100_000].iter().all(|length| is_front_answered(
            alloc,
            b"",
            *length,
            b"? long\n",
        ) == Some(true))
}

/// Whether a line that is too long isn't carried out, even if it begins as a command does.
pub(crate) fn are_too_long(alloc: Global) -> bool {
    ["begin A ", "stop ", "stop", "put A x "].iter().all(|front| is_front_answered(
        alloc,
        front.as_bytes(),
        4097,
        b"? long\n",
    ) == Some(true))
}

/// Whether a line of these bytes and so many letters gets this reply and changes nothing.
fn is_front_answered(alloc: Global, front: &[u8], length: usize, reply: &[u8]) -> Option<bool> {
    let line = with_letters(alloc, front, length).ok()?;
    is_answered(alloc, &line, reply)
}

fn with_letters(alloc: Global, front: &[u8], length: usize) -> Result<Vec<u8>, AllocError> {
    let mut line = Vec::from_slice(alloc, front)?;
    for _ in 0..length {
        line.push(b'a')?;
    }
    Ok(line)
}

/// Whether the line gets this reply and changes nothing: the commands after it are answered.
fn is_answered(alloc: Global, line: &[u8], reply: &[u8]) -> Option<bool> {
    let mut script = Vec::from_slice(alloc, line).ok()?;
    script
        .extend_from_slice(b"\nbegin A\nput A x 1\ncommit A\n")
        .ok()?;
    let mut input = Watched::new(Pieces::new(&script, 1000));
    let answers = answers_to(alloc, &mut input)?;
    let others = answers.replies.strip_prefix(reply)?;
    Some(
        answers.end == End::Eof
            && others == b"begun 1\ndone\ncommitted\n".as_slice()
            && answers.texts.history.as_slice()
                == b"adya 1\nw1(x.1:1,1)\nc1\n[x:1]\n{x,1}\nend\n".as_slice()
            && are_accepted(&answers.texts),
    )
}
