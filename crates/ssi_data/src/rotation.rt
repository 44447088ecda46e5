//! The way of a server from one segment to the next.

ghost use Rattle.std.specs.Prelude.{◌≡◌, IsTrue, IfOk};
ghost use Rattle.ssi_store.specs.Meaning.Courses.{New};
ghost use Rattle.ssi_files.specs.Machinery.Folders.{calls_of};
ghost use Rattle.ssi_files.specs.Meaning.Premises.{is_kept};
ghost use Rattle.ssi_data.specs.Clauses.Faults.{may_wait};
ghost use Rattle.ssi_data.specs.Clauses.Rotations.{HasRotated};
ghost use Rattle.ssi_data.specs.Mirror.{server_of, users_of};

use crate::clients::Clients;
use crate::fault::DataFault;
use crate::segment::next_segment;
use sqlite_disk::{Disk, Start, is_no_room};
use ssi_files::{FileDisk, Folder, SegmentNumber};
use ssi_line::ProtocolStore;
use ssi_log::LogFault;

/// The system's numbers for no more open files: in a process, and at all.
const NO_DESCRIPTOR: [i32; 2] = [24, 23];

/// What came of a try to begin the next segment.
#[derive(Debug, Drop)]
pub enum Rotation {
    /// The server has begun it.
    Begun,
    /// The server goes on with the segment that it has, for this reason: memory ran out, or there is no room on the disk, or
    /// for one more open file. It may be tried again later.
    Kept(DataFault),
}

/// Begins the next segment, which has this number: aborts each session that has a transaction, and goes on with this store,
/// which is new, and the log of the next segment, once both have the contents. The connections stay as they are.
///
/// After `Kept` the aborts stand. An error comes if the log of the segment before has failed, or if the folder or the file of
/// the next segment can't be used or synced. Then the server may not go on.
pub fn rotate<T: ProtocolStore + Drop, S: Start>(
    rt: &HostRuntime,
    folder: &mut Folder,
    number: SegmentNumber,
    store: T,
    clients: &mut Clients<T, FileDisk<S>>,
) -> Result<Rotation, DataFault>
    ensures rotated { T.is_at store (New 1)
        → IfOk result (HasRotated T.keeps T.is_at number (server_of clients.old) (server_of clients.new)) }
    ensures published { IfOk result (λ r. r ≡ Rotation.Begun → IsTrue (is_kept number (calls_of folder.new))) }
    ensures users { users_of clients.new ≡ users_of clients.old }
{
    match clients.abort_open(rt.alloc()) {
        Ok(true) => {}
        Ok(false) => return Ok(put_off(clients, DataFault::Memory)),
        Err(LogFault::Full(error)) => return Ok(put_off(clients, DataFault::System(error))),
        Err(fault) => return Err(DataFault::from(fault)),
    }
    match next_segment(rt, folder, number, store, clients.server()) {
        Ok(next) => {
            folder.publish(rt, number)?;
            clients.begin(next);
            Ok(Rotation::Begun)
        }
        Err(fault) if may_wait(&fault) => {
            // It is removed before the next try as well.
            let _ = folder.remove_new(rt);
            Ok(put_off(clients, fault))
        }
        Err(fault) => Err(fault),
    }
}

fn put_off<T: ProtocolStore + Drop, D: Disk + Drop>(
    clients: &mut Clients<T, D>,
    fault: DataFault,
) -> Rotation
    ensures result { result ≡ Rotation.Kept fault }
    ensures server { server_of clients.new ≡ server_of clients.old }
    ensures users { users_of clients.new ≡ users_of clients.old }
{
    clients.put_off();
    Rotation::Kept(fault)
}

/// Returns whether it may be tried again after this fault.
fn may_wait(fault: &DataFault) -> bool
    ensures { result ≡ may_wait fault.now }
{
    match fault {
        DataFault::Memory => true,
        DataFault::System(error) => {
            is_no_room(error)
                || match error.raw_os_error() {
                    Some(code) => NO_DESCRIPTOR.contains(&code),
                    None => false,
                }
        }
        _ => false,
    }
}
