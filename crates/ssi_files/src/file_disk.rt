//! A file as a disk.

ghost use Rattle.std.specs.Prelude.{◌≡◌, [], IfOk};
ghost use Rattle.ssi_files.specs.Meaning.Files.{HasJust, is_mixing};

use crate::host::Host;
use sqlite_disk::{Modelled, Start};
use std::fs::File;
use std::io;
use std::marker::PhantomData;

/// What files held when they were opened: one that was found what `S` says, and a new one nothing.
#[derive(Drop)]
pub struct FoundOrNew<S: Start> {
    found: PhantomData<S>,
}

impl<S: Start> Start for FoundOrNew<S> {
    ghost log = { S.Start.log };

    ghost db = { [] };

    ghost is_mixing = { S.Start.is_mixing };

    fn mixes() -> bool {
        S::mixes()
    }
}

/// An open file as a disk by the record of its calls.
pub type FileDisk<S> = Modelled<Host, FoundOrNew<S>>;

/// A file that was there before.
pub(crate) fn found_file<S: Start>(file: File) -> io::Result<FileDisk<S>>
    ensures held { IfOk result (λ disk. HasJust S.Start.log disk) }
    ensures mixing { IfOk result (λ disk. is_mixing disk ≡ S.Start.is_mixing) }
{
    Ok(Modelled::new(Host::settle(file)?, true, 0))
}

/// A file that was made just now.
pub(crate) fn new_file<S: Start>(file: File) -> io::Result<FileDisk<S>>
    ensures held { IfOk result (λ disk. HasJust [] disk) }
    ensures mixing { IfOk result (λ disk. is_mixing disk ≡ S.Start.is_mixing) }
{
    Ok(Modelled::new(Host::settle(file)?, false, 0))
}
