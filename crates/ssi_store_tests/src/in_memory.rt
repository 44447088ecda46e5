//! Listeners whose connections are in memory.

use crate::failing_scripts::Device;
use crate::faults::{Fault, Writer, watched_reader, watched_writer};
use adya_testing::{FailsAt, Pieces};
use devices::Watched;
use ssi_cli::Listener;
use std::alloc::Global;
use std::io;
use std::io::{Error, ErrorKind, Read, Write};

/// What a client sends, and how its connection fails.
#[derive(Clone, Copy)]
pub(crate) struct Client<'a> {
    pub(crate) sends: &'a [u8],
    reads: Fault,
    writes: Fault,
}

impl<'a> Client<'a> {
    /// Makes one whose connection doesn't fail.
    pub(crate) fn new(sends: &'a [u8]) -> Client<'a> {
        Client {
            sends,
            reads: Fault::None,
            writes: Fault::None,
        }
    }

    /// The same client, whose reader or writer fails so.
    pub(crate) fn failing(mut self, device: Device, fault: Fault) -> Client<'a> {
        match device {
            Device::Input => self.reads = fault,
            _ => self.writes = fault,
        }
        self
    }
}

/// A reader or a writer of the connection with this number.
#[derive(Drop)]
pub(crate) struct Side<D> {
    number: usize,
    device: D,
}

impl<D: Read> Read for Side<D> {
    fn read(&mut self, buf: &mut [u8]) -> io::Result<usize> {
        self.device.read(buf)
    }
}

impl<D: Write> Write for Side<D> {
    fn write(&mut self, buf: &[u8]) -> io::Result<usize> {
        self.device.write(buf)
    }

    fn flush(&mut self) -> io::Result<()> {
        self.device.flush()
    }
}

/// A connection that was closed: the numbers of its reader and its writer, and the latter.
#[derive(Drop)]
struct Closed {
    reader: usize,
    writer: usize,
    device: FailsAt<Writer>,
}

/// A listener that hands out a connection for each of its clients, in their order. Each comes in pieces of 7 bytes and takes a
/// byte a call.
#[derive(Drop)]
pub(crate) struct InMemory<'a> {
    alloc: Global,
    clients: &'a [Client<'a>],
    // the call of `accept` that fails, counted from 1; 0 if none does before no client is left
    failing_call: usize,
    calls: usize,
    accepted: usize,
    // in the order in which they were closed
    closed: Vec<Closed>,
}

impl<'a> InMemory<'a> {
    /// Makes one for these clients, whose k-th call of `accept`, counted from 1, fails; if k is 0, none does before no client
    /// is left.
    pub(crate) fn new(alloc: Global, clients: &'a [Client<'a>], k: usize) -> InMemory<'a> {
        InMemory {
            alloc,
            clients,
            failing_call: k,
            calls: 0,
            accepted: 0,
            closed: Vec::new(alloc),
        }
    }

    /// Returns how often it was asked for a connection.
    pub(crate) fn calls(&self) -> usize {
        self.calls
    }

    /// Whether the clients with these replies, and no others, were accepted and got them, and their connections were closed in
    /// this order.
    pub(crate) fn has_served(&self, replies: &[&[u8]]) -> bool {
        if self.accepted != replies.len() || self.closed.len() != replies.len() {
            return false;
        }
        for (number, (closed, replies)) in self.closed.iter().zip(replies).enumerate() {
            let is_it = closed.reader == number && closed.writer == number;
            if !is_it || closed.device.get_ref().bytes() != *replies {
                return false;
            }
        }
        true
    }
}

impl<'a> Listener for InMemory<'a> {
    type Reader = Watched<Side<FailsAt<Pieces<'a>>>>;

    type Writer = Side<FailsAt<Writer>>;

    /// Fails also if a connection is still open.
    fn accept(
        &mut self,
    ) -> io::Result<
        (
            Watched<Side<FailsAt<Pieces<'a>>>>,
            Watched<Side<FailsAt<Writer>>>,
        ),
    > {
        self.calls = self.calls.saturating_add(1);
        let number = self.accepted;
        if self.calls == self.failing_call || self.closed.len() != number {
            return Err(Error::from(ErrorKind::WouldBlock));
        }
        let Some(client) = self.clients.get(number) else {
            return Err(Error::from(ErrorKind::WouldBlock));
        };
        self.accepted = number.saturating_add(1);
        let reader = Side {
            number,
            device: watched_reader(client.sends, 7, client.reads).into_inner(),
        };
        let writer = Side {
            number,
            device: watched_writer(self.alloc, client.writes).into_inner(),
        };
        Ok((Watched::new(reader), Watched::new(writer)))
    }

    /// One that there is no memory for isn't noted.
    fn close(
        &mut self,
        reader: Watched<Side<FailsAt<Pieces<'a>>>>,
        writer: Watched<Side<FailsAt<Writer>>>,
    )
        ensures { Unit {0} }
    {
        let reader = reader.into_inner();
        let writer = writer.into_inner();
        let _ = self.closed.push(Closed {
            reader: reader.number,
            writer: writer.number,
            device: writer.device,
        });
    }
}
