//! Which connection has used each session last.

ghost use Rattle.std.specs.Prelude.{◌≡◌, ◌≤◌, ℕ, Bool, List, length, true, None, Some, OnOk, OnErr, IfOk, IsSome, IfSome, is_some, if◌then◌else◌};
ghost use Rattle.ssi_store.specs.Mirror.Commands.{command_of};
ghost use Rattle.ssi_line.specs.Meaning.Steps.{Step, IsStepOf};
ghost use Rattle.ssi_line.specs.Clauses.Answers.{kept};
ghost use Rattle.ssi_cli.specs.Clauses.Serving.{aborts};
ghost use Rattle.ssi_cli.specs.Meaning.Users.{session_of, session_in, is_it};
ghost use Rattle.ssi_cli.specs.Machinery.UsersRoom.{HasRoom};
ghost use Rattle.ssi_cli.specs.Mirror.{last_at, last_in};

use crate::AtClose;
use indexmap::{IndexMap, IndexSet};
use ssi_line::laws::commands_are_words;
use ssi_line::{Line, read_line};
use ssi_store::{Command, Session};
use std::alloc::{AllocError, Global};

/// The most bytes of a line, without its line feed.
const MAX_LINE_LEN: usize = 4096;

/// For each session the connection that sent the last command of it.
#[derive(Drop)]
pub struct Users {
    last: IndexMap<Session, u64>,
    // the sessions that each connection has used; another may have used them since
    used: IndexMap<u64, IndexSet<Session>>,
}

impl Users {
    /// Makes a table without sessions.
    pub fn new(alloc: Global) -> Users
        ensures { (s : List ℕ) → last_in result s ≡ None }
    {
        Users {
            last: IndexMap::new(alloc),
            used: IndexMap::new(alloc),
        }
    }

    /// Notes that the connection has sent this line: if it is a command of a session, the connection has used that one last.
    /// `AllocError` if memory runs out; then each session has the user that it had.
    pub fn note(&mut self, alloc: Global, token: u64, line: &[u8]) -> Result<(), AllocError>
        ensures ok { OnOk result ((keeps : Bool) (text : List ℕ) (step : Step)
            → kept line.now ≡ kept text → IsStepOf keeps text step
            → (s : List ℕ) → last_in self.new s ≡ (if is_it s (session_in step) then Some token else last_in self.old s)) }
        ensures err { OnErr result ((s : List ℕ) → last_in self.new s ≡ last_in self.old s) }
    {
        let session = self.prepare(alloc, token, line)?;
        self.note_used(token, session);
        Ok(())
    }

    /// Makes room to note that the connection has sent this line. Returns the session that it is a command of, if it is one:
    /// [`note_used`](Users::note_used) is to be told of it once the line is carried out. `AllocError` if memory runs out. Each
    /// session has the user that it had.
    pub fn prepare(
        &mut self,
        alloc: Global,
        token: u64,
        line: &[u8],
    ) -> Result<Option<Session>, AllocError>
        ensures session { IfOk result (λ session. (keeps : Bool) (text : List ℕ) (step : Step)
            → kept line.now ≡ kept text → IsStepOf keeps text step
            → session_in step ≡ session) }
        ensures room { IfOk result (λ session. IsSome session → HasRoom self.new) }
        ensures users { (s : List ℕ) → last_in self.new s ≡ last_in self.old s }
    {
        let Some(session) = session_in(line) else {
            return Ok(None);
        };
        self.make_room(alloc, token, session)?;
        Ok(Some(session))
    }

    /// Makes room to note that the connection has used the session.
    fn make_room(&mut self, alloc: Global, token: u64, session: Session) -> Result<(), AllocError>
        ensures room { OnOk result (HasRoom self.new) }
        ensures users { (s : List ℕ) → last_in self.new s ≡ last_in self.old s }
    {
        if !self.is_last(token, &session) {
            self.add(alloc, token, session)?;
        }
        self.last.reserve(1)
    }

    /// Notes that the connection has used this session last, if it is one. [`prepare`](Users::prepare) has made room for it.
    pub fn note_used(&mut self, token: u64, session: Option<Session>)
        requires { IsSome session → HasRoom self.old }
        ensures { (s : List ℕ) → last_in self.new s ≡ (if is_it s session then Some token else last_in self.old s) }
    {
        if let Some(session) = session {
            let _noted = self.last.insert(session, token);
        }
    }

    fn is_last(&self, token: u64, session: &Session) -> bool
        ensures { result ≡ true → last_in self.now session.now ≡ Some token }
    {
        match self.last.get(session) {
            Some(last) => *last == token,
            None => false,
        }
    }

    fn add(&mut self, alloc: Global, token: u64, session: Session) -> Result<(), AllocError>
        ensures { self.new.last ≡ self.old.last }
    {
        if let Some(sessions) = self.used.get_mut(&token) {
            return put(sessions, session);
        }
        let mut sessions = IndexSet::new(alloc);
        put(&mut sessions, session)?;
        self.keep(token, sessions)
    }

    fn keep(&mut self, token: u64, sessions: IndexSet<Session>) -> Result<(), AllocError>
        ensures { self.new.last ≡ self.old.last }
    {
        match self.used.insert(token, sessions) {
            Ok(_) => Ok(()),
            Err(_) => Err(AllocError),
        }
    }

    /// Returns a session that the connection has used last. `None` if there is none.
    pub fn next_of(&mut self, token: u64) -> Option<Session>
        ensures user { IfSome result (λ s. last_in self.old s ≡ Some token) }
        ensures last { self.new.last ≡ self.old.last }
    {
        for _ in 0..u64::MAX {
            let session = self.last_used(token)?;
            if self.is_last(token, &session) {
                return Some(session);
            }
            self.pop(token);
        }
        None
    }

    fn last_used(&self, token: u64) -> Option<Session> {
        let session = self.used.get(&token)?.last()?;
        Some(*session)
    }

    fn pop(&mut self, token: u64)
        ensures { self.new.last ≡ self.old.last }
    {
        if let Some(sessions) = self.used.get_mut(&token) {
            let _ = sessions.pop();
        }
    }

    /// Forgets a session that [`next_of`](Users::next_of) has returned.
    pub fn forget(&mut self, token: u64, session: &Session)
        ensures { (s : List ℕ) → last_in self.new s ≡ (if is_it s (Some session.now) then None else last_in self.old s) }
    {
        let _ = self.last.swap_remove(session);
        self.pop(token);
    }

    /// Forgets a connection.
    pub fn remove(&mut self, token: u64)
        ensures { self.new.last ≡ self.old.last }
    {
        let _ = self.used.swap_remove(&token);
    }
}

/// Returns a table without sessions exactly if sessions are to be aborted when a connection is closed.
pub fn users_for(alloc: Global, at_close: AtClose) -> Option<Users>
    ensures table { is_some result ≡ aborts at_close }
    ensures none { (s : List ℕ) → last_at result s ≡ None }
{
    match at_close {
        AtClose::Keep => None,
        AtClose::Abort => Some(Users::new(alloc)),
    }
}

fn put(sessions: &mut IndexSet<Session>, session: Session) -> Result<(), AllocError> {
    match sessions.insert(session) {
        Ok(_) => Ok(()),
        Err(_) => Err(AllocError),
    }
}

/// Returns the session that the line is a command of, if it is one.
#[tactic(auto, using(crate::proofs::UsedLines::long_named))]
fn session_in(line: &[u8]) -> Option<Session>
    ensures { (keeps : Bool) (text : List ℕ) (step : Step)
        → kept line.now ≡ kept text → IsStepOf keeps text step → session_in step ≡ result }
{
    commands_are_words();
    if line.len() > MAX_LINE_LEN {
        return None;
    }
    session_in_short(line)
}

fn session_in_short(line: &[u8]) -> Option<Session>
    requires { length line.now ≤ 4096 }
    ensures { (keeps : Bool) (text : List ℕ) (step : Step)
        → kept line.now ≡ kept text → IsStepOf keeps text step → session_in step ≡ result }
{
    let Some(asked) = read_line(line) else {
        return None;
    };
    match asked {
        Line::Do(command) => session_of(command),
        Line::Stop => None,
        Line::Dump => None,
    }
}

fn session_of(command: Command) -> Option<Session>
    ensures { result ≡ session_of (command_of command) }
{
    match command {
        Command::Begin { session } => Some(session),
        Command::Get { session, .. } => Some(session),
        Command::Put { session, .. } => Some(session),
        Command::Del { session, .. } => Some(session),
        Command::Scan { session, .. } => Some(session),
        Command::ScanFirst { session, .. } => Some(session),
        Command::Commit { session } => Some(session),
        Command::Abort { session } => Some(session),
        Command::Collect => None,
        Command::Stat => None,
    }
}
