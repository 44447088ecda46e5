//! Which session has a transaction.

use crate::answers::new_store;
use crate::runs::said;
use ssi_store::Session;
use std::alloc::Global;

/// Commands, each with the sessions that have a transaction after it. The last commit is in conflict with the one before.
const COURSE: [(&str, &[&str]); 13] = [
    ("get A x", &[]),
    ("begin A", &["A"]),
    ("begin A", &["A"]),
    ("begin B", &["A", "B"]),
    ("abort A", &["B"]),
    ("commit A", &["B"]),
    ("begin C", &["B", "C"]),
    ("put B x 1", &["B", "C"]),
    ("put C x 2", &["B", "C"]),
    ("collect", &["B", "C"]),
    ("commit B", &["C"]),
    ("commit C", &[]),
    ("stat", &[]),
];

/// Whether a store tells a session that has a transaction as long as there is one; nothing if memory runs out.
pub(crate) fn are_told(alloc: Global) -> Option<bool> {
    let mut store = new_store(alloc);
    if store.open_session().is_some() {
        return Some(false);
    }
    for (line, open) in COURSE {
        said(alloc, &mut store, line)?;
        if !is_one_of(store.open_session(), open) {
            return Some(false);
        }
    }
    Some(true)
}

/// Whether the session is one of these, or there is none of them.
fn is_one_of(session: Option<Session>, open: &[&str]) -> bool {
    let Some(session) = session else {
        return open.is_empty();
    };
    for name in open {
        if name.as_bytes() == session.bytes() {
            return true;
        }
    }
    false
}
