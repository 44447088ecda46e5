//! A store without a log, which says what is to be replied.

use crate::wrong::Wrong;
use devices::Watched;
use ssi_line::answer;
use ssi_reads::IndexMarks;
use ssi_store::Store;
use ssi_versions::KeyChains;
use std::alloc::{AllocError, Global};

/// A store.
pub type Plain = Store<KeyChains, IndexMarks>;

/// Makes an empty store.
pub fn new_store(alloc: Global) -> Plain {
    Store::new(alloc, KeyChains::new(alloc), IndexMarks::new(alloc))
}

/// Carries out the line, and returns the reply. A store whose history is a log isn't asked for it.
pub fn reply_to(alloc: Global, store: &mut Plain, line: &[u8]) -> Result<Vec<u8>, AllocError> {
    if line == b"dump".as_slice() {
        return Vec::from_slice(alloc, b"? syntax\n");
    }
    let mut out = Watched::new(Vec::new(alloc));
    let written = answer(alloc, Some(line), &mut out, store);
    if written.is_err() {
        return Err(AllocError);
    }
    Ok(out.into_inner())
}

/// Carries out all of these lines, and returns the replies.
pub fn replies_to(alloc: Global, store: &mut Plain, lines: &[u8]) -> Result<Vec<u8>, AllocError> {
    let mut replies = Vec::new(alloc);
    for line in lines.split(|b| *b == b'\n') {
        if !line.is_empty() {
            replies.extend_from_slice(&reply_to(alloc, store, line)?)?;
        }
    }
    Ok(replies)
}

/// Carries out the lines of a log, each of which has to count if it is no comment.
pub fn carry_out_log(alloc: Global, store: &mut Plain, lines: &[u8]) -> Result<(), Wrong> {
    for line in lines.split(|b| *b == b'\n') {
        if !line.is_empty() && !line.starts_with(b"#") {
            let reply = reply_to(alloc, store, line)?;
            if !counts(line, &reply) {
                return Err(Wrong::Counted);
            }
        }
    }
    Ok(())
}

/// Whether a line that gets this reply belongs into the log: it is a command that wasn't refused, and none of these three.
pub fn counts(line: &[u8], reply: &[u8]) -> bool {
    !matches!(line, b"stat" | b"dump" | b"stop") && !matches!(reply, [b'!' | b'?', ..])
}
