//! What holds of all lists of calls.

ghost use Rattle.std.specs.Prelude.{◌≡◌, ℕ, List};
ghost use Rattle.ssi_hub.specs.Clauses.Calls.{Call, Received, Wrote, Closed, with_call, all_steps};

/// A call that receives, writes or closes carries nothing out.
pub fn quiet_calls_add_no_step()
    ensures received { (t : ℕ) (bytes : List ℕ) (calls : List Call)
        → all_steps (with_call (Received t bytes) calls) ≡ all_steps calls }
    ensures wrote { (t : ℕ) (bytes : List ℕ) (calls : List Call)
        → all_steps (with_call (Wrote t bytes) calls) ≡ all_steps calls }
    ensures closed { (t : ℕ) (calls : List Call) → all_steps (with_call (Closed t) calls) ≡ all_steps calls }
{}
