//! What holds of all deeds, proved as the contracts of functions that change nothing.

ghost use Rattle.std.specs.Prelude.{◌≡◌, ◌++◌, ℕ, Bool, false, [], List, Option, is_some};
ghost use Rattle.adya_keys.specs.Meaning.Keys.{Bytes};
ghost use Rattle.ssi_hub.specs.declared.hub.Hub.{Hub};
ghost use Rattle.ssi_hub.specs.Clauses.Calls.{Call, all_steps, is_open};
ghost use Rattle.ssi_hub.specs.Mirror.{Stands};
ghost use Rattle.ssi_cli.specs.declared.users.Users.{Users};
ghost use Rattle.ssi_cli.specs.Meaning.Users.{Deed, calls_in};
ghost use Rattle.ssi_cli.specs.Clauses.Leaving.{AreAborts, HasForgotten, HasNoted, HasUsed, abort_calls};
ghost use Rattle.ssi_cli.specs.Clauses.Turns.{AreDone, aborted, called};

/// Calls of connections that the table has noted are deeds as well. Calls that carry no line out need not be noted.
pub fn calls_are_deeds()
    ensures done { (keeps : Bool) (was now : Option Users) (old new : Hub) (made : List Call) (deeds : List Deed) → AreDone keeps was old deeds
        → is_some now ≡ is_some was → HasNoted was now made → Stands keeps new (made ++ calls_in deeds)
        → AreDone keeps now new (called made deeds) }
    ensures quiet { (users : Option Users) (made : List Call) → all_steps made ≡ [] → HasNoted users users made }
{}

/// Aborts of sessions whose last user was a connection that isn't open are deeds as well, if the table has at most forgotten
/// users.
pub fn aborts_are_deeds()
    ensures { (keeps : Bool) (was now : Option Users) (old new : Hub) (t : ℕ) (aborts : List (Bytes × List Call)) (deeds : List Deed)
        → AreDone keeps was old deeds → is_some now ≡ is_some was → HasForgotten was now
        → AreAborts (HasUsed was t) aborts (calls_in deeds) → is_open t (calls_in deeds) ≡ false
        → Stands keeps new (abort_calls aborts ++ calls_in deeds) → AreDone keeps now new (aborted aborts deeds) }
{}
