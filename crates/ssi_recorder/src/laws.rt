//! Laws of recorded histories, each proved as the contract of a function that does nothing.

ghost use Rattle.ssi_recorder.specs.Laws.{CommitsAreListed};

/// If no transaction commits twice, the committed transactions by which versions are ordered are those of the
/// commits, one by one.
pub fn commits_are_listed()
    ensures { CommitsAreListed }
{}
