//! A store that many connections use, with a log of the lines that it has carried out.

ghost use Rattle.std.specs.Prelude.{◌≡◌, ℕ, List, [], ◌∷◌, ◌++◌, None, Some, true, false, IfOk, OnOk, OnErr, IfErr, IfSome, IfNone, MatchResult, MatchOption, if◌then◌else◌, is_some, not, ◌&&◌, nat_eq, nat_le, nat_lt, length, map, min, take, drop, codes, option_map};
ghost use Rattle.std.specs.List.{starts_with};
ghost use Rattle.adya_keys.specs.Meaning.Keys.{Bytes};
ghost use Rattle.adya_line.specs.Meaning.Lines.{IsPlain};
ghost use Rattle.adya_values.specs.Mirror.Events.{final_of};
ghost use Rattle.ssi_store.specs.Meaning.Contents.{contents_after};
ghost use Rattle.ssi_store.specs.Meaning.Courses.{Course, txn_in};
ghost use Rattle.ssi_hub.specs.Clauses.Calls.{Call, Opened, Received, Wrote, Closed, with_call};
ghost use Rattle.ssi_hub.specs.Clauses.Buffers.{Buffers, with_received, with_written};
ghost use Rattle.ssi_hub.specs.Clauses.Clipping.{has_line};
ghost use Rattle.ssi_hub.specs.Clauses.Stepping.{may_step};
ghost use Rattle.ssi_hub.specs.Mirror.{buffers_of, next_token, is_stopped, Changed, IsSame};
ghost use Rattle.ssi_log.specs.Meaning.Texts.{text_of};
ghost use Rattle.ssi_log.specs.Machinery.Standing.{disk_of, end_of};
ghost use Rattle.ssi_durable.specs.Meaning.Lines.{whole_lines};
ghost use Rattle.ssi_durable.specs.Meaning.Logs.{logged};
ghost use Rattle.ssi_durable.specs.Clauses.Journals.{HasAll, is_full};
ghost use Rattle.ssi_durable.specs.Clauses.Recovery.{IsReplayed};
ghost use Rattle.ssi_durable.specs.Clauses.Holding.{is_early};
ghost use Rattle.ssi_durable.specs.Clauses.Serving.{Began, begun_next, from_start};
ghost use Rattle.ssi_durable.specs.Mirror.Holds.{HasHeld, all_wait, held_len};
ghost use Rattle.ssi_durable.specs.Mirror.Journals.{HasRoom};
ghost use Rattle.ssi_durable.specs.Machinery.Noting.{noted};
ghost use Rattle.ssi_durable.specs.Clauses.Counts.{HasVersions, commits_with, is_counted};

use crate::Release;
use crate::buffer::Noted;
use crate::holds::Holds;
use crate::journal::{Journal, is_full};
use adya_values::FinalPair;
use sqlite_disk::Disk;
use ssi_hub::{CarriedLine, Hub};
use ssi_line::ProtocolStore;
use ssi_line::laws::commands_are_words;
use ssi_log::{Log, LogFault};
use ssi_store::{Command, Reply, Session};
use std::alloc::{AllocError, Global};

/// Connections that use one store at once, and the log of the lines that it has carried out. A reply is given out only once
/// all lines before it that count are on the disk; with [`Release::Early`] this is so of `committed` alone.
#[derive(Drop)]
pub struct Server<S: Drop, D: Disk> {
    hub: Hub,
    store: S,
    journal: Journal<D>,
    noted: Noted,
    release: Release,
    // which replies wait, if not all do
    holds: Holds,
    // how many lines that count were those of a `commit`, since the server was made
    commits: u64,
}

impl<S: ProtocolStore + Drop, D: Disk + Drop> Server<S, D> {
    ghost use Rattle.ssi_durable.specs.Mirror.Servers.{Serves, HasStepped, hub_of, store_of, log_of, is_settled, has_failed, gives_early, holds_of, to_give, unsent_of, commits_of, HasCounted};

    /// A server of a store that stands for the lines of its log, and that has no connection yet. `AllocError` if memory runs out.
    pub fn new(
        alloc: Global,
        store: S,
        log: Log<D>,
        release: Release,
    ) -> Result<Server<S, D>, AllocError>
        ensures serves { (n : ℕ) (lines : List Bytes) → IsReplayed S.is_at n lines store
            → HasAll log lines → IfOk result (λ server. Serves S.keeps S.is_at n (from_start (is_early release) lines) server []) }
        ensures log { IfOk result (λ server. log_of server ≡ log) }
        ensures settled { IfOk result (λ server. is_settled server ≡ true) }
        ensures commits { IfOk result (λ server. commits_of server ≡ 0) }
    {
        Ok(Server {
            hub: Hub::new(alloc),
            store,
            journal: Journal::new(alloc, log)?,
            noted: Noted::new(alloc)?,
            release,
            holds: Holds::new(alloc),
            commits: 0,
        })
    }

    /// Opens a connection, and returns its token, as the hub does.
    pub fn opened(&mut self, alloc: Global) -> Result<u64, AllocError>
        ensures serves { (n : ℕ) (began : Began) (calls : List Call) → Serves S.keeps S.is_at n began self.old calls
            → MatchResult result (λ t. Serves S.keeps S.is_at n began self.new (Opened t ∷ calls))
            (λ _. Serves S.keeps S.is_at n began self.new calls) }
        ensures token { IfOk result (λ t. t ≡ next_token (hub_of self.old)) }
        ensures stopped { is_stopped (hub_of self.new) ≡ is_stopped (hub_of self.old) }
        ensures settled { is_settled self.new ≡ is_settled self.old }
        ensures failed { has_failed self.new ≡ has_failed self.old }
        ensures commits { commits_of self.new ≡ commits_of self.old }
    {
        self.hub.opened(alloc)
    }

    /// The connection has sent these bytes. `AllocError` if memory runs out; then nothing has changed.
    pub fn received(&mut self, token: u64, bytes: &[u8]) -> Result<(), AllocError>
        ensures serves { (n : ℕ) (began : Began) (calls : List Call) → Serves S.keeps S.is_at n began self.old calls
            → MatchResult result
            (λ _. Serves S.keeps S.is_at n began self.new (with_call (Received token bytes.now) calls))
            (λ _. Serves S.keeps S.is_at n began self.new calls) }
        ensures ok { OnOk result (Changed (hub_of self.old) (hub_of self.new) token
            (option_map (with_received bytes.now) (buffers_of (hub_of self.old) token))) }
        ensures err { OnErr result (IsSame (hub_of self.old) (hub_of self.new)) }
        ensures settled { is_settled self.new ≡ is_settled self.old }
        ensures failed { has_failed self.new ≡ has_failed self.old }
        ensures commits { commits_of self.new ≡ commits_of self.old }
    {
        self.hub.received(token, bytes)
    }

    /// Carries out the first line that waits of the connection, and returns what came of it. `None` if no line of it may be
    /// carried out; then nothing is done.
    ///
    /// Before that there is room for the line in the log: if there is none, the line waits. `Full` if the file can't grow, as on
    /// a full disk: the call may be tried again. After any other fault the log has failed, and nothing more is carried out or given
    /// out.
    pub fn step(&mut self, alloc: Global, token: u64) -> Result<Option<CarriedLine>, LogFault>
        ensures serves { (n : ℕ) (began : Began) (calls : List Call) → Serves S.keeps S.is_at n began self.old calls
            → MatchResult result (λ stepped. MatchOption stepped (Serves S.keeps S.is_at n began self.new calls)
            (λ carried. HasStepped S.keeps S.is_at n began token calls self.old self.new carried))
            (λ _. Serves S.keeps S.is_at n began self.new calls) }
        ensures when { IfOk result (λ stepped.
            is_some stepped ≡ may_step (is_stopped (hub_of self.old)) (buffers_of (hub_of self.old) token)) }
        ensures commits { MatchResult result (λ stepped. HasCounted token (is_counted stepped) self.old self.new)
            (λ _. commits_of self.new ≡ commits_of self.old) }
        ensures fault { IfErr result (λ fault. is_full fault ≡ false → has_failed self.new ≡ true) }
    {
        if !self.hub.wants_run(token) {
            return Ok(None);
        }
        self.make_room(token)?;
        Ok(self.carry_out(alloc, token))
    }

    /// Makes room for the first line that waits of the connection. If the file can't grow, `stop` needs none.
    fn make_room(&mut self, token: u64) -> Result<(), LogFault>
        ensures serves { (n : ℕ) (began : Began) (calls : List Call) → Serves S.keeps S.is_at n began self.old calls
            → Serves S.keeps S.is_at n began self.new calls }
        ensures hub { self.new.hub ≡ self.old.hub }
        ensures store { self.new.store ≡ self.old.store }
        ensures commits { self.new.commits ≡ self.old.commits }
        ensures room { OnOk result (HasRoom self.new.journal) }
        ensures going { OnOk result (has_failed self.new ≡ false) }
        ensures fault { IfErr result (λ fault. is_full fault ≡ false → has_failed self.new ≡ true) }
    {
        let Err(fault) = self.journal.make_room() else {
            return Ok(());
        };
        if is_full(&fault) && is_stop(&self.hub, token) {
            return Ok(());
        }
        Err(fault)
    }

    /// Carries out a line for which there is room. `None` if no line of the connection may be carried out.
    fn carry_out(&mut self, alloc: Global, token: u64) -> Option<CarriedLine>
        requires room { HasRoom self.old.journal }
        requires going { has_failed self.old ≡ false }
        ensures none { IfNone result ((n : ℕ) (began : Began) (calls : List Call)
            → Serves S.keeps S.is_at n began self.old calls → Serves S.keeps S.is_at n began self.new calls) }
        ensures some { IfSome result (λ carried. (n : ℕ) (began : Began) (calls : List Call)
            → Serves S.keeps S.is_at n began self.old calls
            → HasStepped S.keeps S.is_at n began token calls self.old self.new carried) }
        ensures commits { HasCounted token (is_counted result) self.old self.new }
        ensures when { is_some result ≡ may_step (is_stopped (hub_of self.old)) (buffers_of (hub_of self.old) token) }
    {
        note(&self.hub, token, &mut self.noted);
        let before = self.unsent_len(token);
        let Some(carried) = self.hub.step(alloc, token, &mut self.store) else {
            return None;
        };
        commands_are_words();
        if !carried.counted {
            return Some(carried);
        }
        self.commits = commits_with(self.noted.bytes(), self.commits);
        self.journal.add(self.noted.bytes());
        hold(self.release, &self.hub, token, before, &mut self.holds);
        Some(carried)
    }

    /// Returns how many bytes are unsent, if only `committed` waits; otherwise it makes no difference.
    fn unsent_len(&self, token: u64) -> usize
        ensures { gives_early self.now ≡ true → (b : Buffers) → buffers_of (hub_of self.now) token ≡ Some b
            → result ≡ length b.unsent }
    {
        match self.release {
            Release::Early => self.hub.to_write(token).len(),
            Release::Synced => 0,
        }
    }

    /// Waits until all lines that count are on the disk. After that the replies to all lines may be given out. If it fails, then
    /// nothing more is carried out or given out.
    pub fn settle(&mut self) -> Result<(), LogFault>
        ensures serves { (n : ℕ) (began : Began) (calls : List Call) → Serves S.keeps S.is_at n began self.old calls
            → Serves S.keeps S.is_at n began self.new calls }
        ensures settled { OnOk result (is_settled self.new ≡ true) }
        ensures failed { OnErr result (has_failed self.new ≡ true) }
        ensures given { OnOk result ((t : ℕ) → to_give self.new t ≡ unsent_of (buffers_of (hub_of self.new) t)) }
        ensures hub { hub_of self.new ≡ hub_of self.old }
        ensures commits { commits_of self.new ≡ commits_of self.old }
    {
        self.journal.settle()?;
        self.journal.settled_lines_are_sure();
        self.holds.clear();
        Ok(())
    }

    /// Returns a session that has a transaction, as [`AnyStore::open_session`](ssi_store::AnyStore::open_session) does.
    pub fn open_session(&self) -> Option<Session>
        ensures some { IfSome result (λ s. (c : Course) → S.is_at (store_of self.now) c → is_some (txn_in s c) ≡ true) }
        ensures none { IfNone result ((c : Course) → S.is_at (store_of self.now) c → (s : Bytes) → txn_in s c ≡ None) }
    {
        self.store.open_session()
    }

    /// Returns what the store holds, as [`AnyStore::contents`](ssi_store::AnyStore::contents) does.
    pub fn contents(&self) -> Result<Vec<FinalPair>, AllocError>
        ensures { IfOk result (λ v. (c : Course) → S.is_at (store_of self.now) c → map final_of v.items ≡ contents_after c) }
    {
        self.store.contents()
    }

    /// Returns how many commands `commit` were carried out since the server was made, those answered with `conflict` or `unsafe`
    /// among them, but none that was refused: 2^64-1 if there are more.
    pub fn commits(&self) -> u64
        ensures { result ≡ commits_of self.now }
    {
        self.commits
    }

    /// Returns how many versions the store holds, as `stat` counts them. No call of the server shows it.
    pub fn versions(&mut self) -> u64
        ensures serves { (n : ℕ) (began : Began) (calls : List Call) → Serves S.keeps S.is_at n began self.old calls
            → Serves S.keeps S.is_at n began self.new calls }
        ensures versions { (c : Course) → S.is_at (store_of self.old) c → HasVersions c result }
        ensures hub { hub_of self.new ≡ hub_of self.old }
        ensures log { log_of self.new ≡ log_of self.old }
        ensures settled { is_settled self.new ≡ is_settled self.old }
        ensures failed { has_failed self.new ≡ has_failed self.old }
        ensures commits { commits_of self.new ≡ commits_of self.old }
    {
        let counts = self.store.apply(Command::Stat);
        self.store.stats_change_nothing();
        match counts {
            Ok(Reply::Stat { versions, .. }) => versions,
            _ => 0,
        }
    }

    /// Returns how many bytes the log has, but for lines that are not on their way to the disk yet.
    pub fn log_len(&self) -> usize
        ensures { result ≡ end_of (log_of self.now) }
    {
        self.journal.log_len()
    }

    /// Begins another segment: goes on with this store and its log. All lines that count are on the disk before that. The
    /// connections stay as they are, with what waits of them and what is to be written to them.
    pub fn rotate(&mut self, store: S, log: Log<D>)
        requires { is_settled self.old ≡ true }
        ensures serves { (n next : ℕ) (began : Began) (lines : List Bytes) (calls : List Call)
            → Serves S.keeps S.is_at n began self.old calls → IsReplayed S.is_at next lines store
            → HasAll log lines → Serves S.keeps S.is_at next (begun_next began lines calls) self.new calls }
        // A crash leaves all lines of the segment that was left.
        ensures left { (n : ℕ) (began : Began) (calls : List Call) (file : List ℕ)
            → Serves S.keeps S.is_at n began self.old calls → D.may_leave (disk_of (log_of self.old)) file
            → (since : List Call) × (calls ≡ since ++ began.before)
            × (whole_lines (text_of file) ≡ began.lines ++ logged since) }
        ensures hub { hub_of self.new ≡ hub_of self.old }
        ensures log { log_of self.new ≡ log }
        ensures settled { is_settled self.new ≡ true }
        ensures going { has_failed self.new ≡ false }
        ensures commits { commits_of self.new ≡ commits_of self.old }
    {
        self.journal.settled_lines_are_sure();
        self.store = store;
        self.journal.go_on_with(log);
        self.holds.clear();
    }

    /// Returns the bytes that are to be written to the connection: the replies that are not written and don't wait. None once the
    /// log has failed.
    pub fn to_write(&self, token: u64) -> &[u8]
        ensures { result.now ≡ to_give self.now token }
    {
        match self.release {
            Release::Early if self.journal.has_failed() => &[],
            Release::Early => self.holds.front(token, self.hub.to_write(token)),
            Release::Synced if self.journal.is_settled() => self.hub.to_write(token),
            Release::Synced => &[],
        }
    }

    /// The first `count` bytes of [`to_write`](Server::to_write) were written to the connection, or all if there are no more.
    pub fn written(&mut self, token: u64, count: usize)
        ensures serves { (n : ℕ) (began : Began) (calls : List Call) → Serves S.keeps S.is_at n began self.old calls
            → Serves S.keeps S.is_at n began self.new (with_call (Wrote token (take count (to_give self.old token))) calls) }
        ensures given { to_give self.new token ≡ drop count (to_give self.old token) }
        ensures written { Changed (hub_of self.old) (hub_of self.new) token
            (option_map (with_written (min count (length (to_give self.old token)))) (buffers_of (hub_of self.old) token)) }
        ensures stopped { is_stopped (hub_of self.new) ≡ is_stopped (hub_of self.old) }
        ensures settled { is_settled self.new ≡ is_settled self.old }
        ensures failed { has_failed self.new ≡ has_failed self.old }
        ensures commits { commits_of self.new ≡ commits_of self.old }
    {
        self.journal.settled_lines_are_sure();
        let count = count.min(self.to_write(token).len());
        self.hub.written(token, count);
        self.holds.written(token, count);
    }

    /// The connection is gone, as [`Hub::closed`] has it.
    pub fn closed(&mut self, token: u64)
        ensures serves { (n : ℕ) (began : Began) (calls : List Call) → Serves S.keeps S.is_at n began self.old calls
            → Serves S.keeps S.is_at n began self.new (with_call (Closed token) calls) }
        ensures closed { Changed (hub_of self.old) (hub_of self.new) token None }
        ensures settled { is_settled self.new ≡ is_settled self.old }
        ensures failed { has_failed self.new ≡ has_failed self.old }
        ensures commits { commits_of self.new ≡ commits_of self.old }
    {
        self.hub.closed(token);
    }

    /// Returns the first whole line that waits of the connection, as [`Hub::next_line`] does.
    pub fn next_line(&self, token: u64) -> Option<&[u8]>
        ensures some { IfSome result (λ line. IsPlain line.now × ((b : Buffers) × (rest : List ℕ)
            × (buffers_of (hub_of self.now) token ≡ Some b) × (b.waiting ≡ line.now ++ (10 ∷ rest)))) }
        ensures none { IfNone result ((b : Buffers) → buffers_of (hub_of self.now) token ≡ Some b → has_line b.waiting ≡ false) }
    {
        self.hub.next_line(token)
    }

    /// Returns whether the connection is open.
    pub fn is_open(&self, token: u64) -> bool
        ensures { result ≡ is_some (buffers_of (hub_of self.now) token) }
    {
        self.hub.is_open(token)
    }

    /// Returns whether more bytes are to be read from the connection, as [`Hub::wants_read`] does.
    pub fn wants_read(&self, token: u64) -> bool
        ensures { MatchOption (buffers_of (hub_of self.now) token) (result ≡ false) (λ b. result ≡
            (not (is_stopped (hub_of self.now)) && (not (has_line b.waiting) && nat_le (length b.unsent) 65536))) }
    {
        self.hub.wants_read(token)
    }

    /// Returns whether a line of the connection may be carried out.
    pub fn wants_run(&self, token: u64) -> bool
        ensures { MatchOption (buffers_of (hub_of self.now) token) (result ≡ false) (λ b. result ≡
            (not (is_stopped (hub_of self.now)) && (has_line b.waiting && nat_le (length b.unsent) 65536))) }
    {
        self.hub.wants_run(token)
    }

    /// Returns whether replies of the connection are not written, whether they may be given out or not.
    pub fn wants_write(&self, token: u64) -> bool
        ensures { MatchOption (buffers_of (hub_of self.now) token) (result ≡ false) (λ b. result ≡ nat_lt 0 (length b.unsent)) }
    {
        self.hub.wants_write(token)
    }

    /// Returns whether `stop` was carried out.
    pub fn is_stopped(&self) -> bool
        ensures { result ≡ is_stopped (hub_of self.now) }
    {
        self.hub.is_stopped()
    }

    /// Returns which replies wait for the disk.
    pub fn release(&self) -> Release
        ensures { is_early result ≡ gives_early self.now }
    {
        self.release
    }

    /// Returns whether a reply may wait until all lines that count are on the disk.
    pub fn is_waiting(&self) -> bool
        ensures { result ≡ false → has_failed self.now ≡ false
            → (t : ℕ) → to_give self.now t ≡ unsent_of (buffers_of (hub_of self.now) t) }
    {
        match self.release {
            Release::Early => !self.holds.is_empty(),
            Release::Synced => !self.journal.is_settled(),
        }
    }

    /// Returns of how many connections a `committed` waits, if no other reply does; a connection that is gone counts until then as well.
    /// None if memory ran out for that.
    pub fn waiting(&self) -> usize
        ensures { result ≡ held_len (holds_of self.now) }
    {
        self.holds.len()
    }

    /// Returns whether all lines that count are on the disk.
    pub fn is_settled(&self) -> bool
        ensures { result ≡ is_settled self.now }
    {
        self.journal.is_settled()
    }
}

/// Notes the first line that waits of the connection.
fn note(hub: &Hub, token: u64, to: &mut Noted)
    ensures { (b : Buffers) → buffers_of hub.now token ≡ Some b → has_line b.waiting ≡ true
        → (line rest : List ℕ) × IsPlain line × (b.waiting ≡ line ++ (10 ∷ rest)) × (to.new ≡ noted line) }
{
    if let Some(line) = hub.next_line(token) {
        to.note(line);
    }
}

/// Notes that the last reply to the connection waits, if only `committed` does and it is that. If it is lost then it isn't known, and
/// all wait.
fn hold(release: Release, hub: &Hub, token: u64, before: usize, holds: &mut Holds)
    ensures lost { is_early release ≡ true → buffers_of hub.now token ≡ None → all_wait holds.new ≡ true }
    ensures held { is_early release ≡ true → (b : Buffers) → buffers_of hub.now token ≡ Some b
        → HasHeld token before (starts_with nat_eq (drop before b.unsent) (codes "committed")) holds.old holds.new }
{
    if !release.is_early() {
        return;
    }
    if !hub.is_open(token) {
        holds.hold_all();
        return;
    }
    if is_committed(hub.to_write(token), before) {
        holds.hold(token, before);
    }
}

/// Returns whether the reply is `committed` that begins after so many bytes.
fn is_committed(unsent: &[u8], before: usize) -> bool
    ensures { result ≡ starts_with nat_eq (drop before unsent.now) (codes "committed") }
{
    unsent[unsent.len().min(before)..].starts_with(b"committed")
}

/// Returns how many commits there were, with this line, which counts.
fn commits_with(line: &[u8], commits: u64) -> u64
    ensures { result ≡ commits_with line.now commits }
{
    if line.starts_with(b"commit ") {
        commits.saturating_add(1)
    } else {
        commits
    }
}

/// Returns whether the first line that waits of the connection is `stop`.
fn is_stop(hub: &Hub, token: u64) -> bool {
    match hub.next_line(token) {
        Some(line) => line == b"stop".as_slice(),
        None => false,
    }
}
