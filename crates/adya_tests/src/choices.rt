//! Which certificate and which cycle are found.

use crate::orders;
use std::alloc::Global;

/// Whether the certificate or the cycle that is found of a history is the one after the line `%`.
pub(crate) fn is_found(alloc: Global, case: &str) -> bool {
    match case.split_once("%\n") {
        Some((history, wanted)) => {
            orders::of_text(alloc, history.as_bytes()).as_slice() == wanted.as_bytes()
        }
        None => false,
    }
}
