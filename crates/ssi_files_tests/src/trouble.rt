//! What may go wrong in a case.

use ssi_files::FolderFault;
use ssi_log::LogFault;
use std::alloc::AllocError;
use std::io;

#[derive(Debug, Drop)]
pub(crate) enum Trouble {
    Folder(FolderFault),
    Log(LogFault),
    System(io::Error),
}

impl From<FolderFault> for Trouble {
    fn from(fault: FolderFault) -> Trouble {
        Trouble::Folder(fault)
    }
}

impl From<LogFault> for Trouble {
    fn from(fault: LogFault) -> Trouble {
        Trouble::Log(fault)
    }
}

impl From<io::Error> for Trouble {
    fn from(error: io::Error) -> Trouble {
        Trouble::System(error)
    }
}

impl From<AllocError> for Trouble {
    fn from(error: AllocError) -> Trouble {
        Trouble::System(error.into())
    }
}
