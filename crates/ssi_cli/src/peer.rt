//! The stream of one of many connections.

ghost use Rattle.std.specs.Prelude.{◌≡◌, ◌≢◌, ◌≤◌, ◌<◌, ◌⊎◌, ℕ, true, false, length, take};
ghost use Rattle.std.specs.Io.KnownBytes.{Consumes, Appends, Keeps, IsAtEnd};
ghost use Rattle.ssi_cli.specs.Clauses.Peers.{HasWritten, IsTaken};
ghost use Rattle.ssi_cli.specs.Mirror.{stream_of, input_of, may_read, is_due};

use crate::stream::Stream;
use std::io::ErrorKind;

/// The stream of a connection, and what the system has said of it.
#[derive(Drop)]
pub struct Peer<S> {
    stream: S,
    input: Input,
    // whether a read may find something
    readable: bool,
    // whether the system has said that the client sends no more, so that a read that fills less than its room isn't the last
    hangs_up: bool,
    // whether something has happened since the last turn
    due: bool,
}

/// Whether the client still sends.
#[derive(Clone, Copy, Debug, PartialEq, Eq)]
pub enum Input {
    /// More may come.
    Open,
    /// A read has found the end.
    Ended,
    /// A read has failed.
    Failed,
}

/// What the system has reported of a connection.
#[derive(Clone, Copy, Debug, PartialEq, Eq)]
pub enum Ready {
    /// The client sends no more, or the connection is broken.
    HangsUp,
    /// A read may find something.
    Readable,
    /// There is room to write.
    Writable,
}

/// What became of a write.
pub enum Sent {
    /// So many bytes were written.
    Bytes(usize),
    /// There is no room now; an event comes when there is.
    Later,
    /// The client takes no more.
    Never,
}

impl<S: Stream> Peer<S> {
    /// Makes one of a connection of which nothing was reported: nothing is read of it before [`note`](Peer::note) says that
    /// something may have come.
    pub fn new(stream: S) -> Peer<S>
        ensures stream { stream_of result ≡ stream }
        ensures input { input_of result ≡ Input.Open }
        ensures unready { may_read result ≡ false }
        ensures idle { is_due result ≡ false }
    {
        Peer {
            stream,
            input: Input::Open,
            readable: false,
            hangs_up: false,
            due: false,
        }
    }

    /// Returns the stream.
    pub fn stream(&self) -> &S
        ensures { result.now ≡ stream_of self.now }
    {
        &self.stream
    }

    /// Notes what the system has reported.
    pub fn note(&mut self, ready: Ready)
        ensures stream { stream_of self.new ≡ stream_of self.old }
        ensures input { input_of self.new ≡ input_of self.old }
        ensures readable { ready ≢ Ready.Writable → input_of self.old ≡ Input.Open → may_read self.new ≡ true }
        ensures due { is_due self.new ≡ true }
    {
        self.due = true;
        if ready == Ready::HangsUp {
            self.hangs_up = true;
        }
        if ready == Ready::Readable || self.hangs_up {
            self.readable = self.input == Input::Open;
        }
    }

    /// Returns whether it has a turn now.
    pub fn is_due(&self) -> bool
        ensures { result ≡ is_due self.now }
    {
        self.due
    }

    /// Its turn is over, and it has another in the next round, or waits for an event.
    pub fn set_due(&mut self, due: bool)
        ensures stream { stream_of self.new ≡ stream_of self.old }
        ensures input { input_of self.new ≡ input_of self.old }
        ensures readable { may_read self.new ≡ may_read self.old }
        ensures due { is_due self.new ≡ due }
    {
        self.due = due;
    }

    /// Returns whether a read may find something.
    pub fn is_readable(&self) -> bool
        ensures { result ≡ may_read self.now }
    {
        self.readable
    }

    /// Returns whether no more is read of it: all that the client sent is read, or a read has failed.
    pub fn has_ended(&self) -> bool
        ensures ended { result ≡ true → input_of self.now ≢ Input.Open }
        ensures open { result ≡ false → input_of self.now ≡ Input.Open }
    {
        self.input != Input::Open
    }

    /// Reads what has come, as far as there is room for it. Returns how many bytes it read: none also at the end, and at a
    /// failure, which ends it.
    pub fn read(&mut self, room: &mut [u8]) -> usize
        ensures bound { result ≤ length room.new }
        ensures bytes { Consumes (S.remaining (stream_of self.old)) (S.remaining (stream_of self.new)) (take result room.new) }
        ensures written { S.contents (stream_of self.new) ≡ S.contents (stream_of self.old) }
        ensures ended { 0 < length room.new → input_of self.new ≡ Input.Ended
            → (input_of self.old ≡ Input.Ended) ⊎ IsAtEnd (S.remaining (stream_of self.new)) }
        ensures failed { S.is_steady (stream_of self.old) ≡ true → input_of self.new ≡ Input.Failed → input_of self.old ≡ Input.Failed }
        ensures steady { S.is_steady (stream_of self.old) ≡ true → (S.is_steady (stream_of self.new) ≡ true)
            × ((0 < result) ⊎ (input_of self.new ≡ Input.Ended)) }
    {
        match self.stream.pull(room) {
            Ok(0) => {
                self.end(Input::Ended);
                0
            }
            Ok(count) => {
                self.readable = count == room.len() || self.hangs_up;
                count
            }
            Err(e) if e.kind() == ErrorKind::WouldBlock => {
                self.readable = false;
                0
            }
            Err(e) if e.kind() == ErrorKind::Interrupted => 0,
            Err(_) => {
                self.end(Input::Failed);
                0
            }
        }
    }

    fn end(&mut self, input: Input)
        ensures stream { stream_of self.new ≡ stream_of self.old }
        ensures input { input_of self.new ≡ input }
    {
        self.input = input;
        self.readable = false;
    }

    /// Writes a front of the bytes, which are some.
    pub fn write(&mut self, bytes: &[u8]) -> Sent
        ensures bytes { HasWritten S.contents result (stream_of self.old) (stream_of self.new) bytes.now }
        ensures read { S.remaining (stream_of self.new) ≡ S.remaining (stream_of self.old) }
        ensures input { input_of self.new ≡ input_of self.old }
        ensures steady { S.is_steady (stream_of self.old) ≡ true → 0 < length bytes.now
            → (S.is_steady (stream_of self.new) ≡ true) × ((count : ℕ) × (result ≡ Sent.Bytes count) × (0 < count)) }
        ensures taken { S.never_waits (stream_of self.old) ≡ true → 0 < length bytes.now
            → (S.never_waits (stream_of self.new) ≡ true) × IsTaken result }
    {
        match self.stream.push(bytes) {
            Ok(0) => Sent::Never,
            Ok(count) => Sent::Bytes(count),
            Err(e) if e.kind() == ErrorKind::WouldBlock => Sent::Later,
            Err(e) if e.kind() == ErrorKind::Interrupted => Sent::Bytes(0),
            Err(_) => Sent::Never,
        }
    }
}
