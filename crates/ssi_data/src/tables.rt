//! What is noted of the sessions that lines are commands of.

ghost use Rattle.std.specs.Prelude.{◌≡◌, ℕ, Bool, List, Some, true, is_some, if◌then◌else◌, IfOk, IfSome, IsSome};
ghost use Rattle.ssi_line.specs.Meaning.Steps.{Step, IsStepOf};
ghost use Rattle.ssi_line.specs.Clauses.Answers.{kept};
ghost use Rattle.ssi_cli.specs.Clauses.Leaving.{HasForgotten};
ghost use Rattle.ssi_cli.specs.Meaning.Users.{session_in, is_it};
ghost use Rattle.ssi_cli.specs.Mirror.{last_at};
ghost use Rattle.ssi_data.specs.Clauses.Timing.{HasRoomIn, is_noting};

use ssi_cli::Users;
use ssi_store::Session;
use std::alloc::{AllocError, Global};

/// What is noted of sessions, as far as there are tables of that.
#[derive(Drop)]
pub struct Tables {
    /// The connection that sent the last command of each. It is kept if sessions are aborted when a connection is closed.
    pub(crate) users: Option<Users>,
    /// The second in which each had its last command, in the place of a connection. It is kept if sessions are aborted that had
    /// none for long.
    pub(crate) times: Option<Users>,
    /// The second that it is.
    pub(crate) second: u64,
}

/// The session that a line is a command of, if it is one, for each of the tables.
#[derive(Drop)]
pub(crate) struct Noting {
    used: Option<Session>,
    timed: Option<Session>,
}

impl Tables {
    /// Returns whether there is a table.
    pub(crate) fn is_noting(&self) -> bool
        ensures { result ≡ is_noting self.now }
    {
        self.users.is_some() || self.times.is_some()
    }

    /// Makes room to note that the connection has sent this line. [`note`](Tables::note) is to be told what is returned once the
    /// line is carried out. `AllocError` if memory runs out. The tables say what they said.
    pub(crate) fn prepare(
        &mut self,
        alloc: Global,
        token: u64,
        line: &[u8],
    ) -> Result<Noting, AllocError>
        ensures used { IfOk result (λ noting. is_some self.old.users ≡ true → (keeps : Bool) (text : List ℕ) (step : Step)
            → kept line.now ≡ kept text → IsStepOf keeps text step → session_in step ≡ noting.used) }
        ensures timed { IfOk result (λ noting. is_some self.old.times ≡ true → (keeps : Bool) (text : List ℕ) (step : Step)
            → kept line.now ≡ kept text → IsStepOf keeps text step → session_in step ≡ noting.timed) }
        ensures users_room { IfOk result (λ noting. IsSome noting.used → HasRoomIn self.new.users) }
        ensures times_room { IfOk result (λ noting. IsSome noting.timed → HasRoomIn self.new.times) }
        ensures users { (s : List ℕ) → last_at self.new.users s ≡ last_at self.old.users s }
        ensures times { (s : List ℕ) → last_at self.new.times s ≡ last_at self.old.times s }
        ensures users_table { is_some self.new.users ≡ is_some self.old.users }
        ensures times_table { is_some self.new.times ≡ is_some self.old.times }
        ensures clock { self.new.second ≡ self.old.second }
    {
        let second = self.second;
        Ok(Noting {
            used: prepare(alloc, &mut self.users, token, line)?,
            timed: prepare(alloc, &mut self.times, second, line)?,
        })
    }

    /// Returns a session that had its last command in this second. `None` if there is none; then the second is forgotten.
    pub(crate) fn next_at(&mut self, second: u64) -> Option<Session>
        ensures some { IfSome result (λ s. last_at self.old.times s ≡ Some second) }
        ensures times { (s : List ℕ) → last_at self.new.times s ≡ last_at self.old.times s }
        ensures users { self.new.users ≡ self.old.users }
        ensures clock { self.new.second ≡ self.old.second }
    {
        let Some(times) = &mut self.times else {
            return None;
        };
        let next = times.next_of(second);
        if next.is_none() {
            times.remove(second);
        }
        next
    }

    /// Forgets when a session that [`next_at`](Tables::next_at) has returned had its last command.
    pub(crate) fn forget_time(&mut self, second: u64, session: &Session)
        ensures times { HasForgotten self.old.times self.new.times }
        ensures users { self.new.users ≡ self.old.users }
        ensures clock { self.new.second ≡ self.old.second }
    {
        if let Some(times) = &mut self.times {
            times.forget(second, session);
        }
    }

    /// Notes what [`prepare`](Tables::prepare) has returned.
    pub(crate) fn note(&mut self, token: u64, noting: Noting)
        requires users { IsSome noting.used → HasRoomIn self.old.users }
        requires times { IsSome noting.timed → HasRoomIn self.old.times }
        ensures users { (s : List ℕ) (u : ℕ) → last_at self.new.users s ≡ Some u
            → (if is_it s noting.used then Some token else last_at self.old.users s) ≡ Some u }
        ensures times { (s : List ℕ) (u : ℕ) → last_at self.new.times s ≡ Some u
            → (if is_it s noting.timed then Some self.old.second else last_at self.old.times s) ≡ Some u }
        ensures users_table { is_some self.new.users ≡ is_some self.old.users }
        ensures times_table { is_some self.new.times ≡ is_some self.old.times }
        ensures clock { self.new.second ≡ self.old.second }
    {
        let second = self.second;
        note(&mut self.users, token, noting.used);
        note(&mut self.times, second, noting.timed);
    }
}

/// Makes room in the table, if there is one, and returns the session that the line is a command of, if it is one.
fn prepare(
    alloc: Global,
    table: &mut Option<Users>,
    at: u64,
    line: &[u8],
) -> Result<Option<Session>, AllocError>
    ensures session { IfOk result (λ session. is_some table.old ≡ true → (keeps : Bool) (text : List ℕ) (step : Step)
        → kept line.now ≡ kept text → IsStepOf keeps text step → session_in step ≡ session) }
    ensures room { IfOk result (λ session. IsSome session → HasRoomIn table.new) }
    ensures same { (s : List ℕ) → last_at table.new s ≡ last_at table.old s }
    ensures table { is_some table.new ≡ is_some table.old }
{
    match table {
        Some(users) => users.prepare(alloc, at, line),
        None => Ok(None),
    }
}

/// Notes in the table, if there is one, that the session was used.
fn note(table: &mut Option<Users>, at: u64, session: Option<Session>)
    requires { IsSome session → HasRoomIn table.old }
    ensures noted { (s : List ℕ) (u : ℕ) → last_at table.new s ≡ Some u
        → (if is_it s session then Some at else last_at table.old s) ≡ Some u }
    ensures table { is_some table.new ≡ is_some table.old }
{
    if let Some(users) = table {
        users.note_used(at, session);
    }
}
