//! Verdicts.

use crate::{Edge, Text};
use adya_values::{Rule, Version};

/// The verdict of an audit: yes, or the first reason why not. Lines of a text are counted from 1.
#[derive(Clone, Copy)]
pub enum Verdict {
    /// The history is well-formed without aborted and intermediate reads. The certificate lists its committed
    /// transactions, and each edge goes forward in it.
    Yes,
    /// Kind 1: the text has a fault at the line.
    Syntax { text: Text, line: usize },
    /// Kind 2: the history breaks the rule at the line.
    Malformed { line: usize, rule: Rule },
    /// Kind 3: at the line a committed transaction reads this version, whose writer aborted (Adya 1999, G1a).
    AbortedRead { line: usize, version: Version },
    /// Kind 4: at the line a committed transaction reads this version, which its writer, another transaction,
    /// overwrote later (Adya 1999, G1b).
    IntermediateRead { line: usize, version: Version },
    /// Kind 5: the certificate doesn't list exactly the committed transactions, each of them once.
    NotTheCommitted,
    /// Kind 6: the first edge that doesn't go forward in the certificate.
    Backward { edge: Edge },
}
