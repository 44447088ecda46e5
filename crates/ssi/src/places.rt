//! Where the paths of a run's files lead.

use std::alloc::AllocError;
use std::fs;
use std::fs::{Files, Metadata};
use std::io::ErrorKind;
use std::os::unix::fs::MetadataExt;
use std::path::{Path, PathBuf};

/// How many links a path is followed through.
const LINKS: usize = 40;

/// What a path leads to.
#[derive(Drop)]
pub enum Place {
    /// A regular file.
    Regular(Node),
    /// A name in a folder, at which there is no file.
    Missing(Node, PathBuf),
    /// Anything else: a device, a pipe, a folder, or what can't be looked up.
    Other,
}

/// A file or a folder by its device and its number there.
#[derive(Clone, Copy, PartialEq, Eq)]
pub struct Node {
    device: u64,
    number: u64,
}

impl Node {
    fn of(found: &Metadata) -> Node {
        Node {
            device: found.dev(),
            number: found.ino(),
        }
    }
}

/// Returns whether both paths lead to one regular file, or to one name at which there is no file yet.
pub fn lead_to_one_file<R: Files + AllocGlobal>(
    rt: &R,
    one: &str,
    other: &str,
) -> Result<bool, AllocError> {
    let first = place_of(rt, one)?;
    let second = place_of(rt, other)?;
    Ok(match (&first, &second) {
        (Place::Regular(a), Place::Regular(b)) => *a == *b,
        (Place::Missing(a, name), Place::Missing(b, other)) => {
            *a == *b && name.file_name() == other.file_name()
        }
        _ => false,
    })
}

/// Returns what the path leads to.
pub fn place_of<R: Files + AllocGlobal>(rt: &R, path: &str) -> Result<Place, AllocError> {
    match fs::metadata(rt, path) {
        Ok(found) if found.is_file() => Ok(Place::Regular(Node::of(&found))),
        Err(e) if e.kind() == ErrorKind::NotFound => missing(rt, path),
        _ => Ok(Place::Other),
    }
}

fn missing<R: Files + AllocGlobal>(rt: &R, path: &str) -> Result<Place, AllocError> {
    let end = end_of_links(rt, path)?;
    let is_name = match end.file_name() {
        Some(name) => end.as_str().ends_with(name),
        None => false,
    };
    if !is_name {
        return Ok(Place::Other);
    }
    match fs::metadata(rt, folder_of(end.as_path())) {
        Ok(folder) => Ok(Place::Missing(Node::of(&folder), end)),
        Err(_) => Ok(Place::Other),
    }
}

/// Returns the path that is left if the links at the end of this one are followed, whether or not there is a file.
pub fn end_of_links<R: Files + AllocGlobal>(rt: &R, path: &str) -> Result<PathBuf, AllocError> {
    let mut end = PathBuf::from_str(rt.alloc(), path)?;
    for _ in 0..LINKS {
        let Ok(next) = fs::read_link(rt, end.as_path()) else {
            return Ok(end);
        };
        end = folder_of(end.as_path()).join(rt.alloc(), next.as_path())?;
    }
    Ok(end)
}

/// Returns the folder of a file's path.
pub fn folder_of(path: Path<'_>) -> Path<'_> {
    match path.parent() {
        Some(folder) if !folder.as_str().is_empty() => folder,
        _ => Path::new("."),
    }
}
