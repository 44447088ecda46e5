//! Laws of lines, each proved as the contract of a function that changes nothing.

ghost use Rattle.std.specs.Prelude.{◌≡◌, ◌++◌, ℕ, List, true, false};
ghost use Rattle.std.specs.List.{All, AllByRecursion};
ghost use Rattle.adya_line.specs.Meaning.Lines.{IsPlain};
ghost use Rattle.adya_text.specs.Meaning.Texts.{with_ends};
ghost use Rattle.ssi_store.specs.Meaning.Courses.{Course};
ghost use Rattle.ssi_hub.specs.Clauses.Calls.{Call};
ghost use Rattle.ssi_durable.specs.Meaning.Lines.{torn, whole_lines};
ghost use Rattle.ssi_log.specs.Meaning.Texts.{text_of};
ghost use Rattle.ssi_log.specs.Machinery.Standing.{disk_of};
ghost use Rattle.ssi_durable.specs.Meaning.Lives.{AreLives, IsKept, IsLife};
ghost use Rattle.ssi_durable.specs.Meaning.EarlyLives.{AreEarlyLives, EarlyLife, IsEarlyKept, IsEarlyLife};
ghost use Rattle.ssi_durable.specs.Clauses.Serving.{Began};
ghost use Rattle.ssi_durable.specs.Mirror.Servers.{Serves, log_of};
ghost use Rattle.ssi_durable.specs.Meaning.Replays.{Replays};

use crate::Server;
use sqlite_disk::Disk;
use ssi_line::ProtocolStore;
use ssi_line::laws::lines_ask_for_one_thing;

/// A text is its whole lines, each with a line feed, and then what is torn; and no other lines make it.
pub fn texts_fall_into_lines()
    ensures parts { (text : List ℕ) → text ≡ with_ends (whole_lines text) ++ torn text }
    ensures whole { (text : List ℕ) → All IsPlain (whole_lines text) }
    ensures unfinished { (text : List ℕ) → IsPlain (torn text) }
    ensures only { (lines : List (List ℕ)) (rest : List ℕ) → All IsPlain lines → IsPlain rest
        → whole_lines (with_ends lines ++ rest) ≡ lines }
{}

/// The same lines lead from a course to one course at most. So a log determines the course that its store stands for after
/// a recovery, and with it each reply to the lines that follow.
pub fn replays_lead_to_one_course()
    ensures { (start : Course) (lines : List (List ℕ)) (a b : Course) → Replays start lines a → Replays start lines b → a ≡ b }
{
    lines_ask_for_one_thing();
}

/// Whatever lives a server has had, one after the other: all lines on which something rests that was written to a connection
/// in one of them are left at the end, and each step up to the last one that was written is the defined one after some of the
/// lines that are left, from the first one on.
pub fn lives_keep_what_was_told()
    ensures { (lines : List (List ℕ)) (lives : List (List Call)) (left : List (List ℕ)) → AreLives lines lives left
        → AllByRecursion (IsKept left) lives }
{}

/// The same if of all replies only `committed` waits for the disk: all lines on which a reply `committed` rests that was written to
/// a connection are left at the end, and it is the defined one after some of the lines that are left. Each other step is the
/// defined one after some of the lines that were carried out in its life and those from which that started: a crash may take
/// away lines on which a reply rests that was written before any later `committed` to the same connection.
pub fn early_lives_keep_commits()
    ensures { (lines : List (List ℕ)) (lives : List EarlyLife) (left : List (List ℕ)) → AreEarlyLives lines lives left
        → AllByRecursion (IsEarlyKept left) lives }
{}

/// Whenever a server ends, by a crash or otherwise, the lines that are left in the file of its segment end a life: that of the
/// calls since it has begun the segment.
pub fn crashes_end_lives<S: ProtocolStore + Drop, D: Disk>(server: &Server<S, D>)
    ensures synced { (n : ℕ) (began : Began) (calls : List Call) (file : List ℕ) → began.early ≡ false
        → Serves S.keeps S.is_at n began server.now calls → D.may_leave (disk_of (log_of server.now)) file
        → (since : List Call) × (calls ≡ since ++ began.before) × IsLife began.lines since (whole_lines (text_of file)) }
    ensures early { (n : ℕ) (began : Began) (calls : List Call) (file : List ℕ) → began.early ≡ true
        → Serves S.keeps S.is_at n began server.now calls → D.may_leave (disk_of (log_of server.now)) file
        → (since : List Call) × (calls ≡ since ++ began.before)
        × IsEarlyLife began.lines (record { before = began.before; calls = since }) (whole_lines (text_of file)) }
{
    let _server = server;
}
