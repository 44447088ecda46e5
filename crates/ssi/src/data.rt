//! The service of a store that keeps its data in a folder.

use crate::problem::{Problem, unbound};
use crate::sockets::{bound_anew, polled};
use mio::Poll;
use mio::net::UnixListener;
use sqlite_disk::Unknown;
use ssi_cli::{AtClose, Fault, Status, listen, new_live_store};
use ssi_data::{
    Clients, DataFault, Halt, Idle, Rotation, Segment, Started, abort_open, open_last, rotate,
    serve, start,
};
use ssi_durable::{Recovered, Release, Server};
use ssi_files::{FileDisk, Folder, SegmentNumber};
use ssi_reads::IndexMarks;
use ssi_store::LiveStore;
use ssi_versions::KeyChains;
use std::{fs, io};

/// What a file held that was found, nobody knows.
type FoundDisk = FileDisk<Unknown>;

/// Its history is the log, so the store keeps none.
type LoggedStore = LiveStore<KeyChains, IndexMarks>;

type FileServer = Server<LoggedStore, FoundDisk>;

type FileClients = Clients<LoggedStore, FoundDisk>;

/// Where a store keeps its data, and how its connections are served.
#[derive(Clone, Copy)]
pub struct DataService<'a> {
    pub folder: &'a str,
    pub socket: &'a str,
    pub at_close: AtClose,
    pub release: Release,
    /// The next segment is begun once the log has more bytes, and more than twice as many as its loads.
    pub segment: usize,
    /// A session that had no command for so many seconds is aborted.
    pub idle: Option<u64>,
}

/// A server of what the folder has, and what was found there.
#[derive(Drop)]
struct Opened {
    segments: Segments,
    server: FileServer,
    idle: Option<Idle>,
    count: usize,
    recovered: Recovered,
}

/// A folder, which is locked until it is dropped, and the number of its last segment.
#[derive(Drop)]
struct Segments {
    folder: Folder,
    last: SegmentNumber,
}

impl<'a> DataService<'a> {
    /// Serves the store until a client sends `stop`. A socket that was left at the path is removed if its server is gone.
    pub fn run(self, rt: &HostRuntime) -> Result<Status, Problem<'a>> {
        let Opened {
            mut segments,
            server,
            idle,
            count,
            recovered,
        } = match self.opened(rt) {
            Ok(opened) => opened,
            Err(fault) => return Err(self.problem(fault)),
        };
        let listener = match bound_anew(rt, self.socket) {
            Ok(listener) => listener,
            Err(e) => return Err(unbound(rt, self.socket, e.kind())),
        };
        self.say_listening(rt, count, recovered);
        let clients = Clients::new(
            rt.alloc(),
            server,
            self.at_close,
            idle,
            self.segment,
            recovered.loaded,
        );
        let served = self.serve_bound(rt, &mut segments, clients, listener);
        // A file that can't be removed is no fault.
        let _ = fs::remove_file(rt, self.socket);
        served
    }

    /// Locks the folder, and starts a server of what it has. With `AtClose::Abort` no session has a transaction then: those of
    /// clients that had a connection are left. Nor has one with `Release::Early`, since replies to lines of it may be lost.
    fn opened(self, rt: &HostRuntime) -> Result<Opened, DataFault> {
        let mut folder = Folder::open(rt, self.folder)?;
        let Segment {
            disk,
            number,
            count,
        } = open_last(rt, &mut folder, Unknown)?;
        let alloc = rt.alloc();
        let store = new_live_store(alloc);
        let Started {
            mut server,
            recovered,
        } = start(alloc, store, disk, number.get(), self.release)?;
        if self.aborts_at_start() && !abort_open(alloc, &mut server)? {
            return Err(DataFault::Memory);
        }
        Ok(Opened {
            segments: Segments {
                folder,
                last: number,
            },
            server,
            idle: self.idle_from(rt)?,
            count,
            recovered,
        })
    }

    fn aborts_at_start(self) -> bool {
        self.at_close == AtClose::Abort || self.release == Release::Early
    }

    /// For how long a session may have no command from now on, if there is a bound.
    fn idle_from(self, rt: &HostRuntime) -> Result<Option<Idle>, DataFault> {
        let Some(limit) = self.idle else {
            return Ok(None);
        };
        match Idle::new(rt, limit) {
            Ok(idle) => Ok(Some(idle)),
            Err(error) => Err(DataFault::System(error)),
        }
    }

    fn serve_bound(
        self,
        rt: &HostRuntime,
        segments: &mut Segments,
        mut clients: FileClients,
        listener: std::os::unix::net::UnixListener,
    ) -> Result<Status, Problem<'a>> {
        let Ok((mut poll, mut listener)) = polled(rt, listener) else {
            return Err(self.socket_fault());
        };
        self.serve_clients(rt, segments, &mut poll, &mut listener, &mut clients)
    }

    fn serve_clients(
        self,
        rt: &HostRuntime,
        segments: &mut Segments,
        poll: &mut Poll,
        listener: &mut UnixListener,
        clients: &mut FileClients,
    ) -> Result<Status, Problem<'a>> {
        let Some(mut events) = listen(rt.alloc(), poll, listener) else {
            return Err(self.socket_fault());
        };
        for _ in 0..u64::MAX {
            match serve(rt, poll, listener, &mut events, clients) {
                Halt::Stopped => return Ok(Status::Fine),
                Halt::Full(why) => self.say_full(rt, why),
                Halt::Rotate => self.begin_next(rt, segments, clients)?,
                Halt::Failed(fault) => return Err(self.problem(DataFault::from(fault))),
                Halt::SocketFault => return Err(self.socket_fault()),
            }
        }
        Err(self.socket_fault())
    }

    /// Begins the next segment, unless there is no room for it.
    fn begin_next(
        self,
        rt: &HostRuntime,
        segments: &mut Segments,
        clients: &mut FileClients,
    ) -> Result<(), Problem<'a>> {
        let Some(number) = segments.last.next() else {
            // There is no number for another one.
            clients.put_off();
            return Ok(());
        };
        let store = new_live_store(rt.alloc());
        match rotate(rt, &mut segments.folder, number, store, clients) {
            Ok(Rotation::Begun) => {
                segments.last = number;
                self.say_begun(rt, number);
                Ok(())
            }
            Ok(Rotation::Kept(why)) => {
                self.say_kept(rt, number, why);
                Ok(())
            }
            Err(fault) => Err(self.problem(fault)),
        }
    }

    fn say_listening(self, rt: &HostRuntime, segments: usize, recovered: Recovered) {
        let (folder, socket) = (self.folder, self.socket);
        let Recovered { lines, torn, .. } = recovered;
        let _ = eprintln!(rt;
            "ssi: listening at {socket} ({folder}: segments {segments}, lines {lines}, torn bytes {torn})"
        );
    }

    fn say_begun(self, rt: &HostRuntime, number: SegmentNumber) {
        let (folder, number) = (self.folder, number.get());
        let _ = eprintln!(rt; "ssi: {folder}: segment {number}");
    }

    fn say_kept(self, rt: &HostRuntime, number: SegmentNumber, why: DataFault) {
        let (folder, number) = (self.folder, number.get());
        let _ = eprintln!(rt; "ssi: {folder}: segment {number} can't be made now: {why}");
    }

    fn say_full(self, rt: &HostRuntime, why: io::Error) {
        let folder = self.folder;
        let _ = eprintln!(rt; "ssi: {folder}: the log can't grow, so all lines wait: {why}");
    }

    fn problem(self, fault: DataFault) -> Problem<'a> {
        match fault {
            DataFault::Memory => Problem::Fault(Fault::Memory),
            fault => Problem::Data(self.folder, fault),
        }
    }

    fn socket_fault(self) -> Problem<'a> {
        Problem::Fault(Fault::Socket(self.socket))
    }
}
