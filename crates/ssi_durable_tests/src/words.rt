//! Lines made by chance.

use disk_testing::Coins;
use std::alloc::{AllocError, Global};

/// What the lines are like. S stands for a session, K for a key and V for a value or a limit. Some are no commands.
const FORMS: [&str; 24] = [
    "begin S",
    "begin S",
    "begin S",
    "get S K",
    "get S K",
    "put S K V",
    "put S K V",
    "put S K V",
    "put S K V",
    "del S K",
    "scan S K K",
    "scan S K K V",
    "commit S",
    "commit S",
    "commit S",
    "abort S",
    "collect",
    "stat",
    "dump",
    "stop",
    "get S",
    "# loaded",
    " ",
    "",
];

/// Returns a line. Now and then its line feed is missing, so that the next line goes on with it.
pub fn line_by_chance(alloc: Global, coins: &mut Coins) -> Result<Vec<u8>, AllocError> {
    let form = FORMS[coins.number() as usize % FORMS.len()];
    let mut line = Vec::new(alloc);
    for b in form.bytes() {
        line.push(word_for(b, coins))?;
    }
    if coins.number() % 16 > 0 {
        line.push(b'\n')?;
    }
    Ok(line)
}

fn word_for(b: u8, coins: &mut Coins) -> u8 {
    match b {
        b'S' => one_of(b"abc", coins),
        b'K' => one_of(b"kmp", coins),
        b'V' => one_of(b"123", coins),
        _ => b,
    }
}

fn one_of(words: &[u8; 3], coins: &mut Coins) -> u8 {
    words[coins.number() as usize % words.len()]
}
