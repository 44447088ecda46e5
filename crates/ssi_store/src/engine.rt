//! The engine of a store: its parts, and what each command does to them.

ghost use Rattle.std.specs.Prelude.{◌≡◌, ◌<◌, ◌≤◌, ◌+◌, [], true};
ghost use Rattle.indexmap.specs.IndexMap.{index_map_len};
ghost use Rattle.ssi_versions.specs.Mirror.{IsAbove};
ghost use Rattle.ssi_reads.specs.Clauses.Marks.{IsEmpty};
ghost use Rattle.ssi_conflict.specs.Computing.Steps.{smallest_ordered_pivot};
ghost use Rattle.ssi_store.specs.Machinery.Rosters.{AreBelow};
ghost use Rattle.ssi_store.specs.Mirror.Rosters.{open_in};

use crate::open::Open;
use crate::past::Past;
use crate::roster::Roster;
use crate::{Command, Refusal, Reply, Session};
use adya_values::{Content, Txn};
use indexmap::IndexMap;
use ssi_conflict::Tracker;
use ssi_reads::Marks;
use ssi_versions::Chains;
use std::alloc::Global;

/// The parts of a store. They stand for each course that is as they were told; [`Store`](crate::Store) has one.
#[derive(Drop)]
pub(crate) struct Engine<C: Chains + Drop, M: Marks + Drop, P: Past + Drop> {
    pub(crate) alloc: Global,
    pub(crate) chains: C,
    pub(crate) sessions: IndexMap<Session, Open>,
    pub(crate) roster: Roster,
    pub(crate) tracker: Tracker<M>,
    pub(crate) past: P,
    pub(crate) commits: u64,
    pub(crate) next: u64,
    pub(crate) ghost room: { commits + index_map_len sessions < next },
    pub(crate) ghost few: { next ≤ 4294967296 },
    pub(crate) ghost above: { IsAbove (commits + 1) (C.held chains) },
    pub(crate) ghost early: { AreBelow next (open_in roster) },
    pub(crate) ghost places: { P.has_places past (index_map_len sessions) ≡ true },
}

impl<C: Chains + Drop, M: Marks + Drop, P: Past + Drop> Engine<C, M, P> {
    ghost use Rattle.ssi_store.specs.Meaning.Courses.{Course, New};
    ghost use Rattle.ssi_store.specs.Meaning.Replies.{IsAnswer};
    ghost use Rattle.ssi_store.specs.Mirror.Commands.{command_of, answer_of};
    ghost use Rattle.ssi_store.specs.Mirror.Standing.{IsAt, GoesOn};

    /// Makes an empty engine, without a past, whose first transaction has this number. Takes no memory.
    pub(crate) fn with_next(alloc: Global, chains: C, marks: M, past: P, next: Txn) -> Self
        requires versions { C.held chains ≡ [] }
        requires places { P.has_places past 0 ≡ true }
        ensures { IsEmpty (M.marked marks) → P.recorded past [] → P.started past [] → IsAt C.held M.marked P.recorded P.started result (New next) }
    {
        Engine {
            alloc,
            chains,
            sessions: IndexMap::new(alloc),
            roster: Roster::new(alloc),
            tracker: Tracker::new(alloc, marks),
            past,
            commits: 0,
            next: u64::from(next.get()),
        }
    }

    /// Carries out one command.
    pub(crate) fn apply(&mut self, command: Command) -> Result<Reply, Refusal>
        ensures stands { GoesOn C.held M.marked P.recorded P.started self.old self.new (command_of command) (answer_of result) }
        ensures answers { (c : Course) → IsAt C.held M.marked P.recorded P.started self.old c → IsAnswer smallest_ordered_pivot c (command_of command) (answer_of result) }
    {
        match command {
            Command::Begin { session } => self.begin(session),
            Command::Get { session, key } => self.get(session, key),
            Command::Put {
                session,
                key,
                value,
            } => self.write(session, key, Content::Live(value)),
            Command::Del { session, key } => self.write(session, key, Content::Dead),
            Command::Scan { session, low, high } => self.scan(session, low, high),
            Command::ScanFirst {
                session,
                low,
                high,
                limit,
            } => self.scan_first(session, low, high, limit),
            Command::Commit { session } => self.commit(session),
            Command::Abort { session } => self.abort(session),
            Command::Collect => self.collect(),
            Command::Stat => self.stat(),
        }
    }
}
