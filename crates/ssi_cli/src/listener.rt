//! Where connections are accepted, one after the other.

ghost use Rattle.std.specs.Prelude.{IfOk, OnErr};
ghost use Rattle.devices.specs.declared.watched.Watched.{Watched};

use devices::{Source, Watched};
use std::io;
use std::io::Write;
use std::os::unix::net::{UnixListener, UnixStream};

/// Accepts connections and takes them back to close them. Each has a reader for what its client sends and a writer for what
/// the client gets.
pub trait Listener {
    /// Reads what the client of a connection sends.
    type Reader: Source;

    /// Writes to the client of a connection.
    type Writer: Write;

    // `accept` returned a connection: the listener before, the reader and the writer, the listener after
    ghost accepts: { Self → Self.Reader → Watched Self.Writer → Self → Type 0 } = { λ _ _ _ _. Unit {0} };

    // `accept` failed
    ghost fails: { Self → Self → Type 0 } = { λ _ _. Unit {0} };

    // `close` took a connection back
    ghost closes: { Self → Self.Reader → Watched Self.Writer → Self → Type 0 } = { λ _ _ _ _. Unit {0} };

    /// Waits for a connection.
    fn accept(&mut self) -> io::Result<(Self::Reader, Watched<Self::Writer>)>
        ensures accepted { IfOk result (λ connection. accepts self.old connection.0 connection.1 self.new) }
        ensures failed { OnErr result (fails self.old self.new) };

    /// Closes a connection.
    fn close(&mut self, reader: Self::Reader, writer: Watched<Self::Writer>)
        ensures { closes self.old reader writer self.new };
}

/// No contract can say what a socket gives or takes. `accept` fails also if there is no second handle of the connection, which
/// its writer has.
impl Listener for UnixListener {
    type Reader = Watched<UnixStream>;

    type Writer = UnixStream;

    fn accept(&mut self) -> io::Result<(Watched<UnixStream>, Watched<UnixStream>)> {
        let (stream, _) = UnixListener::accept(self)?;
        let writer = stream.try_clone()?;
        Ok((Watched::new(stream), Watched::new(writer)))
    }

    fn close(&mut self, reader: Watched<UnixStream>, writer: Watched<UnixStream>)
        ensures { Unit {0} }
    {
        drop(reader);
        drop(writer);
    }
}
