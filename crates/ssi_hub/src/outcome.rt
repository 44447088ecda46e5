//! How a run went.

ghost use Rattle.std.specs.Prelude.{◌≡◌, ◌||◌};
ghost use Rattle.ssi_hub.specs.Clauses.Outcomes.{stops_by, lost_by};

/// What carrying out lines of a connection came to.
#[derive(Clone, Copy, Debug, PartialEq, Eq)]
pub enum Outcome {
    /// The replies are stored, and no line was `stop`.
    GoesOn,
    /// The replies are stored, and the last line was `stop`.
    Stops,
    /// Memory couldn't hold the reply to the last line.
    Lost {
        /// Whether that line was `stop`.
        stops: bool,
    },
}

/// What came of one line of a connection.
#[derive(Clone, Copy, Debug, PartialEq, Eq)]
pub struct CarriedLine {
    /// Whether the line counts, as [`Carried`](ssi_line::Carried) has it. This is so of a line whose reply is lost, too.
    pub counted: bool,
    /// Whether its reply is stored, and whether it was `stop`.
    pub outcome: Outcome,
}

impl Outcome {
    /// Returns whether no further line of the connection is carried out.
    pub(crate) fn is_last(self) -> bool
        ensures { result ≡ (stops_by self || lost_by self) }
    {
        !matches!(self, Outcome::GoesOn)
    }

    /// Returns whether the last line was `stop`.
    pub fn stops(self) -> bool
        ensures { result ≡ stops_by self }
    {
        match self {
            Outcome::GoesOn => false,
            Outcome::Stops => true,
            Outcome::Lost { stops } => stops,
        }
    }

    /// Returns whether the reply to the last line is lost.
    pub fn is_lost(self) -> bool
        ensures { result ≡ lost_by self }
    {
        matches!(self, Outcome::Lost { .. })
    }
}
