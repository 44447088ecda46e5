//! Why a run ends without an answer.

use crate::sockets::is_socket;
use ssi_cli::{Fault, Status};
use ssi_data::DataFault;
use std::alloc::AllocError;
use std::fs::Files;
use std::io::ErrorKind;
use std::net::Net;
use std::os::unix::net::UnixStream;

/// Why a run ends without an answer.
#[derive(Drop)]
pub enum Problem<'a> {
    /// A fault, whose line says all.
    Fault(Fault<'a>),
    /// A fault before the run began, and its reason.
    Early(Fault<'a>, &'static str),
    /// Two arguments, by their names in the help, lead to one file.
    OneFile(&'static str, &'static str),
    /// The folder of a store that keeps its data, and why it can't be used.
    Data(&'a str, DataFault),
    /// The folder, and the number of the segment whose texts can't be written.
    Unsealed(&'a str, u32),
}

impl<'a> From<Fault<'a>> for Problem<'a> {
    fn from(fault: Fault<'a>) -> Problem<'a> {
        Problem::Fault(fault)
    }
}

impl From<AllocError> for Problem<'_> {
    fn from(_: AllocError) -> Self {
        Problem::Fault(Fault::Memory)
    }
}

impl Problem<'_> {
    /// Prints a line on standard error, and returns the status of a run that ends so.
    pub fn report<R: Eprint>(self, rt: &R) -> Status {
        match self {
            Problem::Fault(fault) => fault.report(rt),
            Problem::Early(fault, reason) => {
                let _ = eprintln!(rt; "{fault}: {reason}");
                Status::Failed
            }
            Problem::Data(path, fault) => {
                let _ = eprintln!(rt; "ssi: data fault: {path}: {fault}");
                Status::Failed
            }
            Problem::Unsealed(path, number) => {
                let _ = eprintln!(rt; "ssi: write fault: {path}: the texts of segment {number}");
                Status::Failed
            }
            Problem::OneFile(one, other) => {
                let _ = eprintln!(rt; "ssi: {one} and {other} are the same file");
                Status::WrongArguments
            }
        }
    }
}

/// The problem of a file that can't be written, if an attempt ended with this kind of error.
pub fn unwritable(path: &str, kind: ErrorKind) -> Problem<'_> {
    let reason = match kind {
        ErrorKind::NotFound => "there is no such folder",
        ErrorKind::NotADirectory => "a part of the path is not a folder",
        ErrorKind::PermissionDenied => "permission denied",
        ErrorKind::IsADirectory => "it is a folder",
        ErrorKind::AddrInUse => "it is a socket",
        ErrorKind::ReadOnlyFilesystem => "the file system is read-only",
        ErrorKind::InvalidFilename => "a name in the path is too long",
        ErrorKind::StorageFull | ErrorKind::QuotaExceeded => "there is no space left",
        ErrorKind::OutOfMemory => return Problem::Fault(Fault::Memory),
        _ => "it can't be opened",
    };
    Problem::Early(Fault::Write(path), reason)
}

/// The problem of a socket that can't be made, if the attempt ended with this kind of error.
pub fn unbound<'a, R: Files + Net>(rt: &R, path: &'a str, kind: ErrorKind) -> Problem<'a> {
    let reason = match kind {
        ErrorKind::AddrInUse | ErrorKind::AlreadyExists => what_is_there(rt, path),
        ErrorKind::NotFound => "there is no such folder",
        ErrorKind::NotADirectory => "a part of the path is not a folder",
        ErrorKind::PermissionDenied => "permission denied",
        ErrorKind::ReadOnlyFilesystem => "the file system is read-only",
        ErrorKind::InvalidInput | ErrorKind::InvalidFilename => {
            "the path has more than 107 bytes, or is empty"
        }
        _ => return Problem::Fault(Fault::Socket(path)),
    };
    Problem::Early(Fault::Socket(path), reason)
}

fn what_is_there<R: Files + Net>(rt: &R, path: &str) -> &'static str {
    if !is_socket(rt, path) {
        return "another file is there";
    }
    match UnixStream::connect(rt, path) {
        Ok(_) => "a server listens at it",
        Err(e) if e.kind() == ErrorKind::ConnectionRefused => {
            "no server listens at it any more: remove the file"
        }
        Err(_) => "a socket is there that can't be used",
    }
}
