//! Files of cases.

use crate::saying::{say, say_number};
use crate::{audits, choices, graphs, lines};
use std::alloc::Global;
use std::{fs, io};

/// A file has fewer cases.
const MOST_CASES: u64 = 1_000_000;

/// What the cases of a file are.
#[derive(Clone, Copy)]
enum Kind {
    /// Lines that are read as events and written again.
    Events,
    /// Lines that are refused.
    No(lines::Kind),
    /// Graphs, each with its order or its cycle.
    Graphs,
    /// Arcs, and what is left of them without repeats.
    Arcs,
    /// Histories, each with its certificate or its cycle.
    Choices,
    /// Histories and certificates, each two with the verdict.
    Verdicts,
}

impl Kind {
    fn of(folder: &str) -> Option<Kind> {
        Some(match folder {
            "events" => Kind::Events,
            "no_events" => Kind::No(lines::Kind::Event),
            "no_unfinished" => Kind::No(lines::Kind::Unfinished),
            "no_orders" => Kind::No(lines::Kind::Order),
            "no_finals" => Kind::No(lines::Kind::Final),
            "no_txns" => Kind::No(lines::Kind::Txn),
            "graphs" => Kind::Graphs,
            "arcs" => Kind::Arcs,
            "choices" => Kind::Choices,
            "verdicts" => Kind::Verdicts,
            _ => return None,
        })
    }

    /// Returns what stands after each case.
    fn end(self) -> &'static str {
        match self {
            Kind::Choices | Kind::Verdicts => "%%\n",
            _ => "\n",
        }
    }

    /// Whether the case is as defined.
    fn holds(self, alloc: Global, case: &str) -> bool {
        match self {
            Kind::Events => lines::is_event(alloc, case.as_bytes()),
            Kind::No(kind) => kind.refuses(alloc, case.as_bytes()),
            Kind::Graphs => graphs::is_found(alloc, case),
            Kind::Arcs => graphs::are_each_once(alloc, case),
            Kind::Choices => choices::is_found(alloc, case),
            Kind::Verdicts => audits::is_verdict(alloc, case),
        }
    }

    /// Returns how many cases the text has. An error is the number of the first that isn't as defined or has no end.
    fn count(self, alloc: Global, text: &str) -> Result<u64, u64> {
        let mut rest = text;
        for n in 1..=MOST_CASES {
            if rest.is_empty() {
                return Ok(n - 1);
            }
            let Some((case, after)) = rest.split_once(self.end()) else {
                return Err(n);
            };
            if !self.holds(alloc, case) {
                return Err(n);
            }
            rest = after;
        }
        Err(MOST_CASES)
    }
}

/// Writes how many cases the file has, or the first that isn't as defined, after the name of the file.
pub(crate) fn say_count(rt: &HostRuntime, folder: &str, name: &str) -> io::Result<()> {
    let Some(kind) = Kind::of(folder) else {
        return say(rt, &[name, ": no such cases\n"]);
    };
    let bytes = fs::read(rt, name)?;
    match kind.count(rt.alloc(), str::from_utf8(&bytes).unwrap_or("?")) {
        Ok(count) => say_number(rt, &[name, ": "], count, " as defined\n"),
        Err(n) => say_number(rt, &[name, ": case "], n, " otherwise\n"),
    }
}
