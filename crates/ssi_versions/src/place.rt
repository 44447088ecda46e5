//! The places of a chain.

use crate::Held;
use adya_values::{Content, Key, Mod, Txn, Version};

/// A place of a chain, so that a small chain can fill its places that aren't in use.
#[derive(Clone, Copy)]
pub(crate) struct Place {
    pub held: Held,
}

impl Default for Place {
    fn default() -> Self {
        Place {
            held: Held {
                version: Version {
                    key: Key::new(b"a").unwrap(),
                    txn: Txn::new(1).unwrap(),
                    m: Mod::new(1).unwrap(),
                },
                content: Content::Dead,
                stamp: 0,
            },
        }
    }
}
