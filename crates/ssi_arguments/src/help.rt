//! The help texts, in lines of at most 80 columns. Arguments and statuses are described in docs/formats.md alone.

/// The version of the program, and the program logic with which it is proved.
pub const VERSION: &str = "1.0.0 (logic dac8208d650f15bf)";

/// What the program does.
pub const ABOUT: &str = "Audits histories of database transactions, and runs a serializable store.";

/// What follows the list of commands.
pub const MORE: &str = "\
Without a command, ssi reads a history and then a certificate from standard
input, and audits them as `audit` does.

docs/formats.md describes all texts, arguments and exit statuses.";

/// What `audit` does.
pub const AUDIT: &str = "Audits a history by a certificate";

/// What `audit` writes.
pub const AUDIT_MORE: &str = "\
Writes `yes`, or `no` with the first fault.

docs/formats.md describes all texts, arguments and exit statuses.";

/// What `order` does.
pub const ORDER: &str = "Finds a certificate of a history, or a cycle";

/// What `order` writes.
pub const ORDER_MORE: &str = "\
Writes a certificate with which `audit` says yes, or a cycle if there is none.
If the history itself has a fault, writes the `no` that names it.

docs/formats.md describes all texts, arguments and exit statuses.";

/// What `script` does.
pub const SCRIPT: &str = "Carries out commands on a new store";

/// What `script` reads and writes.
pub const SCRIPT_MORE: &str = "\
Reads commands from standard input, one a line, and replies to each at once.
After `stop`, or at the end of the input, writes the history of the store to one
file and a certificate to the other. `audit` says yes to them.

docs/formats.md describes all commands, arguments and exit statuses.";

/// What `serve` does.
pub const SERVE: &str = "Carries out the commands of connections to a socket";

/// What `serve` reads and writes.
pub const SERVE_MORE: &str = "\
Makes a Unix socket, and carries out the commands of its connections on one new
store, as `script` does. After `stop`, writes both files and removes the socket.
With --data the only argument is SOCKET, and all connections are served at once.

docs/formats.md describes all commands, arguments and exit statuses.";

/// What `serve --data` reads and writes.
pub const KEEP_MORE: &str = "\
Makes a Unix socket, and carries out the commands of all its connections at once
on the store in the folder. After `stop`, removes the socket.

docs/formats.md describes all commands, arguments and exit statuses.";

/// The argument that names a history.
pub const HISTORY: &str = "The file of the history";

/// The argument that names a certificate.
pub const CERTIFICATE: &str = "The file of the certificate";

/// The argument that names a socket.
pub const SOCKET: &str = "The path of the socket; no file may be there";

/// The argument that names the history to write.
pub const NEW_HISTORY: &str = "The file for the history; created or overwritten";

/// The argument that names the certificate to write.
pub const NEW_CERTIFICATE: &str = "The file for the certificate; created or overwritten";

/// The option that serves all connections at once.
pub const CONCURRENT: &str = "Serve all connections at once";

/// The option that aborts what a connection leaves open.
pub const ABORT_ON_CLOSE: &str = "The same, and abort the sessions of clients that leave";

/// The same option, where all connections are served at once anyway.
pub const KEEP_ABORT_ON_CLOSE: &str = "Abort the sessions of clients that leave";

/// The option with which few replies wait for the disk.
pub const EARLY: &str = "Let only `committed` wait for the disk";

/// The option that names a folder.
pub const DATA: &str = "The folder of the data; in place of both files";

/// The option that says how long segments are.
pub const SEGMENT: &str = "Begin the next log after so many; 65536 to 2^40";

/// The option that says how long a session may be idle.
pub const IDLE: &str = "Abort a session that had no command for so long";

/// What `seal` does.
pub const SEAL: &str = "Certifies what a store that keeps its data has done";

/// What `seal` writes.
pub const SEAL_MORE: &str = "\
Writes a history and a certificate beside each segment in DIR but the last,
and `yes` if each segment begins with what the one before ended with.

docs/formats.md describes all texts, arguments and exit statuses.";

/// The argument that names a folder to certify.
pub const SEALED: &str = "The folder of the data; a server may use it";
