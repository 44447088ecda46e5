//! The histories of a store: at its end, and so far.

ghost use Rattle.std.specs.Prelude.{◌≡◌, IfOk, IfErr};
ghost use Rattle.ssi_conflict.specs.Clauses.Pairs.{IsOrderedPivot};
ghost use Rattle.ssi_store.specs.Meaning.Courses.{Course};
ghost use Rattle.ssi_store.specs.Meaning.Recording.{dumped};
ghost use Rattle.ssi_store.specs.Meaning.Faces.{Records, RecordsSoFar};
ghost use Rattle.ssi_store.specs.Clauses.Finished.{finished};
ghost use Rattle.ssi_store.specs.Clauses.Coverage.{snapshots, IsCovered};
ghost use Rattle.ssi_store.specs.Mirror.Finished.{recorded_in, snapshots_in};
ghost use Rattle.ssi_store.specs.Mirror.Pasts.{HasEvents, HasStarts};
ghost use Rattle.ssi_store.specs.Mirror.Standing.{IsAt, HasCourse};

use crate::Finished;
use crate::engine::Engine;
use crate::laws::{courses_are_recorded, dumped_are_covered, finished_are_covered};
use crate::whole_past::WholePast;
use ssi_reads::Marks;
use ssi_versions::Chains;
use std::alloc::AllocError;

/// Ends the engine, with an abort of each open transaction at the end of its history.
pub(crate) fn finish<C: Chains + Drop, M: Marks + Drop>(
    mut engine: Engine<C, M, WholePast>,
) -> Result<Finished, (Engine<C, M, WholePast>, AllocError)>
    requires { HasCourse C.held M.marked HasEvents HasStarts engine }
    ensures history { IfOk result (λ f. (c : Course) → IsAt C.held M.marked HasEvents HasStarts engine c → recorded_in f ≡ finished c) }
    ensures snapshots { IfOk result (λ f. (c : Course) → IsAt C.held M.marked HasEvents HasStarts engine c → snapshots_in f ≡ snapshots c) }
    ensures records { IfOk result (λ f. (c : Course) → IsAt C.held M.marked HasEvents HasStarts engine c → Records (recorded_in f) c) }
    ensures covered { IfOk result (λ f. (c : Course) → IsAt C.held M.marked HasEvents HasStarts engine c → IsCovered IsOrderedPivot c (recorded_in f)) }
    ensures err { IfErr result (λ e. (c : Course) → IsAt C.held M.marked HasEvents HasStarts engine c → IsAt C.held M.marked HasEvents HasStarts e.0 c) }
{
    finished_are_covered();
    courses_are_recorded();
    match engine.past.finish(engine.roster.open_txns()) {
        Ok((history, snapshots)) => Ok(Finished { history, snapshots }),
        Err((past, e)) => {
            engine.past = past;
            Err((engine, e))
        }
    }
}

/// Returns the history so far, with the open transactions unfinished.
pub(crate) fn dump<C: Chains + Drop, M: Marks + Drop>(
    engine: &Engine<C, M, WholePast>,
) -> Result<Finished, AllocError>
    requires { HasCourse C.held M.marked HasEvents HasStarts engine.now }
    ensures history { IfOk result (λ f. (c : Course) → IsAt C.held M.marked HasEvents HasStarts engine.now c → recorded_in f ≡ dumped c) }
    ensures snapshots { IfOk result (λ f. (c : Course) → IsAt C.held M.marked HasEvents HasStarts engine.now c → snapshots_in f ≡ snapshots c) }
    ensures records { IfOk result (λ f. (c : Course) → IsAt C.held M.marked HasEvents HasStarts engine.now c → RecordsSoFar (recorded_in f) c) }
    ensures covered { IfOk result (λ f. (c : Course) → IsAt C.held M.marked HasEvents HasStarts engine.now c → IsCovered IsOrderedPivot c (recorded_in f)) }
{
    dumped_are_covered();
    courses_are_recorded();
    let history = engine.past.recorder.dump(engine.roster.open_txns())?;
    let snapshots = Vec::from_slice(engine.alloc, engine.past.snapshots.as_slice())?;
    let finished = Finished { history, snapshots };
    Ok(finished)
}
