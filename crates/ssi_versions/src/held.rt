//! Held versions.

use adya_values::{Content, Version};

/// A version that was installed, with the stamp of its commit.
#[derive(Clone, Copy)]
pub struct Held {
    /// The version.
    pub version: Version,
    /// What the version holds.
    pub content: Content,
    /// The stamp of the commit that installed it.
    pub stamp: u64,
}
