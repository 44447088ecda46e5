//! Why the program has no answer.

ghost use Rattle.std.specs.Prelude.{◌≡◌, Some, codes};
ghost use Rattle.ssi_cli.specs.Clauses.Fault.{line_of, read_fault, write_fault, socket_fault, out_of_memory};

use crate::ScriptFault;
use crate::runs::CommandsFault;
use crate::status::Status;
use adya_audit::RunFault;
use std::fmt;

/// Why the program has no answer. It prints as the line on standard error. That line names a path as it was given, and
/// the standard streams as `stdin` and `stdout`.
#[derive(Debug, Drop)]
pub enum Fault<'a> {
    /// The file at this path can't be opened, or reading it failed.
    Read(&'a str),
    /// Writing to this stream, or to the file at this path, failed.
    Write(&'a str),
    /// The socket at this path can't be made, or accepting a connection to it failed.
    Socket(&'a str),
    /// Memory ran out.
    Memory,
}

impl<'a> Fault<'a> {
    /// The fault of a run that reads a history and a certificate at these places, and writes to standard output.
    pub fn of_run(fault: RunFault, history: &'a str, certificate: &'a str) -> Fault<'a>
        ensures history { fault ≡ RunFault.ReadHistory → line_of result ≡ read_fault history.entry.now }
        ensures certificate { fault ≡ RunFault.ReadSerial → line_of result ≡ read_fault certificate.entry.now }
        ensures write { fault ≡ RunFault.Write → line_of result ≡ write_fault (codes "stdout") }
        ensures memory { fault ≡ RunFault.Memory → line_of result ≡ out_of_memory }
    {
        match fault {
            RunFault::ReadHistory => Fault::Read(history),
            RunFault::ReadSerial => Fault::Read(certificate),
            RunFault::Write => Fault::Write("stdout"),
            RunFault::Memory => Fault::Memory,
        }
    }

    /// The fault of a run that reads commands from standard input, answers them on standard output, and writes a history
    /// and a certificate to these places.
    pub fn of_commands(fault: CommandsFault, history: &'a str, certificate: &'a str) -> Fault<'a>
        ensures input { fault ≡ CommandsFault.Input → line_of result ≡ read_fault (codes "stdin") }
        ensures output { fault ≡ CommandsFault.Output → line_of result ≡ write_fault (codes "stdout") }
        ensures history { fault ≡ CommandsFault.Texts ScriptFault.History → line_of result ≡ write_fault history.entry.now }
        ensures certificate { fault ≡ CommandsFault.Texts ScriptFault.Certificate
            → line_of result ≡ write_fault certificate.entry.now }
        ensures memory { fault ≡ CommandsFault.Texts ScriptFault.Memory → line_of result ≡ out_of_memory }
    {
        match fault {
            CommandsFault::Input => Fault::Read("stdin"),
            CommandsFault::Output => Fault::Write("stdout"),
            CommandsFault::Texts(fault) => Fault::of_texts(fault, history, certificate),
        }
    }

    /// The fault of a run that writes a history and a certificate to these places.
    pub fn of_texts(fault: ScriptFault, history: &'a str, certificate: &'a str) -> Fault<'a>
        ensures history { fault ≡ ScriptFault.History → line_of result ≡ write_fault history.entry.now }
        ensures certificate { fault ≡ ScriptFault.Certificate → line_of result ≡ write_fault certificate.entry.now }
        ensures memory { fault ≡ ScriptFault.Memory → line_of result ≡ out_of_memory }
    {
        match fault {
            ScriptFault::History => Fault::Write(history),
            ScriptFault::Certificate => Fault::Write(certificate),
            ScriptFault::Memory => Fault::Memory,
        }
    }

    /// Prints the fault on standard error, and returns the status of a run that ends with it. If standard error fails too,
    /// only the status shows the fault.
    pub fn report<R: Eprint>(self, rt: &R) -> Status
        ensures { result ≡ Status.Failed }
    {
        let _ = eprintln!(rt; "{self}");
        Status::Failed
    }
}

impl fmt::Display for Fault<'_> {
    ghost output = { λ fault. Some (line_of fault) };

    fn fmt<W: fmt::Write>(&self, f: &mut fmt::Formatter<W>) -> fmt::Result {
        match self {
            Fault::Read(place) => write!(f, "ssi: read fault: {place}"),
            Fault::Write(place) => write!(f, "ssi: write fault: {place}"),
            Fault::Socket(place) => write!(f, "ssi: socket fault: {place}"),
            Fault::Memory => write!(f, "ssi: memory"),
        }
    }
}
