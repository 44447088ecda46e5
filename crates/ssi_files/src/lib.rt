//! Files of the system as disks by the record of their calls, and the folder that they lie in.
#![tactic(auto)]

mod directory;
mod fault;
mod file_disk;
mod folder;
mod host;
mod name;
mod number;
mod record;

pub use fault::FolderFault;
pub use file_disk::{FileDisk, FoundOrNew};
pub use folder::Folder;
pub use host::Host;
pub use name::{Ending, file_name, number_of};
pub use number::SegmentNumber;
pub use sqlite_disk::{Start, Unknown};
