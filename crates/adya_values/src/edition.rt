//! Editions of history texts.

/// The edition of a history's text.
#[derive(Clone, Copy, Debug, PartialEq, Eq, Drop)]
pub enum Edition {
    /// Every transaction commits or aborts.
    One,
    /// Transactions may be unfinished.
    Two,
}
