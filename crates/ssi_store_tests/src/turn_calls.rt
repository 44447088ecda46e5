//! Turns of connections whose streams are in memory, tried call by call.
//!
//! Each line of the file is a call. `/` stands for a line feed. A line that begins with `#` says what comes next. The answers
//! that are wanted of the first calls were worked by hand; those after the line `# by chance` were made by
//! scripts/turns_reference.py, which also made the calls. The calls are these:
//!
//! - `new keep`, `new abort`: begins anew; what a connection leaves open stays open, or is aborted
//! - `connect READS WRITES TEXT`: a client connects that sends the text and no more; the answer is its token. Its first reads
//!   and writes go as the lists say: `3,w,x` takes at most 3 bytes, would wait, and fails
//! - `turn T N`: a turn, with room for N bytes; the answer is `open`, `again` if it has more to do at once, why it was closed,
//!   or `gone`
//! - `part T`: its end after `stop`; the answer is why it was closed, or `gone`
//! - `got T`: the answer is what the client has got
//! - `read T`: the answer is how many bytes of it were read

use crate::answers::{FastStore, new_store};
use crate::clients::Client;
use crate::hub_calls::{number, sent, shown};
use crate::worked::text;
use ssi_cli::{Closing, Peer, Ready, Users, part, turn};
use ssi_hub::Hub;
use std::alloc::{AllocError, Global};
use std::{fs, io};

/// The most bytes of one read.
const ROOM: usize = 16384;

/// Writes the calls of the file again, each with its answer.
pub(crate) fn write_answers(rt: &HostRuntime, path: &str) -> io::Result<()> {
    let bytes = fs::read(rt, path)?;
    let mut tried = Tried::new(rt.alloc(), "keep");
    for call in text(&bytes).lines() {
        let answer = tried.answer(rt.alloc(), call)?;
        print!(rt; "{call}{answer}\n")?;
    }
    Ok(())
}

/// A connection of the hub.
#[derive(Drop)]
struct Connection {
    token: u64,
    peer: Peer<Client>,
}

/// Connections on one store.
#[derive(Drop)]
struct Tried {
    hub: Hub,
    store: FastStore,
    users: Option<Users>,
    connections: Vec<Connection>,
}

impl Tried {
    fn new(alloc: Global, at_close: &str) -> Tried {
        Tried {
            hub: Hub::new(alloc),
            store: new_store(alloc),
            users: (at_close == "abort").then(|| Users::new(alloc)),
            connections: Vec::new(alloc),
        }
    }

    /// Returns what is written behind the line.
    fn answer(&mut self, alloc: Global, line: &str) -> Result<String, AllocError> {
        let (name, rest) = line.split_once(" ").unwrap_or((line, ""));
        let (first, rest) = rest.split_once(" ").unwrap_or((rest, ""));
        match name {
            "new" => {
                *self = Tried::new(alloc, first);
                Ok(String::new(alloc))
            }
            "connect" => self.connect(alloc, first, rest),
            "turn" => self.take_turn(alloc, number(first), number(rest)),
            "part" => self.end(alloc, number(first)),
            "got" => match self.connection(number(first)) {
                Some(connection) => shown(alloc, connection.peer.stream().got()),
                None => Ok(String::new(alloc)),
            },
            "read" => match self.connection(number(first)) {
                Some(connection) => format!(in alloc; ": {}", connection.peer.stream().read_len()),
                None => Ok(String::new(alloc)),
            },
            _ => Ok(String::new(alloc)),
        }
    }

    fn connect(&mut self, alloc: Global, reads: &str, rest: &str) -> Result<String, AllocError> {
        let (writes, text) = rest.split_once(" ").unwrap_or((rest, ""));
        let client = Client::new(alloc, sent(alloc, text)?, reads, writes)?;
        let token = self.hub.opened(alloc)?;
        let peer = Peer::new(client);
        self.connections.push(Connection { token, peer })?;
        format!(in alloc; ": {token}")
    }

    fn connection(&self, token: usize) -> Option<&Connection> {
        self.connections.iter().find(|c| c.token == token as u64)
    }

    /// A turn of the connection, after the system has reported that it may be read and written.
    fn take_turn(
        &mut self,
        alloc: Global,
        token: usize,
        most: usize,
    ) -> Result<String, AllocError> {
        let token = token as u64;
        let Some(connection) = self.connections.iter_mut().find(|c| c.token == token) else {
            return Ok(String::new(alloc));
        };
        let was_open = self.hub.is_open(token);
        let mut room = [0u8; ROOM];
        let len = most.min(ROOM);
        connection.peer.note(Ready::Readable);
        let taken = turn(
            alloc,
            token,
            &mut connection.peer,
            &mut self.users,
            &mut self.hub,
            &mut self.store,
            &mut room[..len],
        );
        let said = match taken {
            Ok(()) if !was_open => "gone",
            Ok(()) if connection.peer.is_due() => "again",
            Ok(()) => "open",
            Err(why) => named(why),
        };
        format!(in alloc; ": {said}")
    }

    /// Ends the connection as after `stop`.
    fn end(&mut self, alloc: Global, token: usize) -> Result<String, AllocError> {
        let token = token as u64;
        let Some(connection) = self.connections.iter_mut().find(|c| c.token == token) else {
            return Ok(String::new(alloc));
        };
        let said = if self.hub.is_open(token) {
            named(part(token, &mut connection.peer, &mut self.hub))
        } else {
            "gone"
        };
        format!(in alloc; ": {said}")
    }
}

fn named(why: Closing) -> &'static str {
    match why {
        Closing::Ended => "ended",
        Closing::Broken => "broken",
        Closing::Memory => "memory",
        Closing::Stopped => "stopped",
    }
}
