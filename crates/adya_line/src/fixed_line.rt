//! The lines that each text has once.

ghost use Rattle.std.specs.Prelude.{◌≡◌, ◌↔◌, IsTrue};
ghost use Rattle.adya_line.specs.Meaning.Spelling.{history_head, second_head, serial_head, tail};

/// Returns the first line of a history, without its line feed: `adya 1`.
pub fn history_head() -> &'static [u8]
    ensures { result.now ≡ history_head }
{
    b"adya 1"
}

/// Returns the first line of a history of the second edition, without its line feed: `adya 2`.
pub fn second_head() -> &'static [u8]
    ensures { result.now ≡ second_head }
{
    b"adya 2"
}

/// Returns the first line of a certificate, without its line feed: `serial 1`.
pub fn serial_head() -> &'static [u8]
    ensures { result.now ≡ serial_head }
{
    b"serial 1"
}

/// Returns the last line of a history and of a certificate, without its line feed: `end`.
pub fn tail() -> &'static [u8]
    ensures { result.now ≡ tail }
{
    b"end"
}

pub(crate) fn is_history_head(line: &[u8]) -> bool
    ensures { IsTrue result ↔ (line.now ≡ history_head) }
{
    line == history_head()
}

pub(crate) fn is_second_head(line: &[u8]) -> bool
    ensures { IsTrue result ↔ (line.now ≡ second_head) }
{
    line == second_head()
}

pub(crate) fn is_serial_head(line: &[u8]) -> bool
    ensures { IsTrue result ↔ (line.now ≡ serial_head) }
{
    line == serial_head()
}

/// Returns whether the line, without its line feed, is the last one of a text: `end`.
pub fn is_tail(line: &[u8]) -> bool
    ensures { IsTrue result ↔ (line.now ≡ tail) }
{
    line == tail()
}
