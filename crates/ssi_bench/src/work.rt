//! What a run does: how many transactions over how many keys.

use adya_values::{Key, Txn};

/// What a run has done, besides its transactions.
#[derive(Clone, Copy)]
pub(crate) struct Done {
    /// How many versions, or kept transactions, the part holds at the end; 0 of marks, which nobody counts.
    pub(crate) held: u64,
    /// How many versions the reads have found, or how many readers the writes have met.
    pub(crate) met: u64,
}

/// Transactions of some reads and writes over keys that are chosen as if by chance.
#[derive(Clone, Copy)]
pub(crate) struct Work {
    /// How many transactions there are.
    pub(crate) transactions: u32,
    /// How many keys there are, up to 100,000.
    pub(crate) keys: u32,
    /// Whether the first transaction stays open over all others.
    pub(crate) is_open: bool,
}

impl Work {
    /// Returns which key the `nth` operation is on: the same one in each run.
    pub(crate) fn chosen(&self, nth: u64) -> u32 {
        if self.keys == 0 {
            return 0;
        }
        (mixed(nth) % self.keys as u64) as u32
    }

    /// Returns the last key of a range of at most ten that starts with this one.
    pub(crate) fn range_end(&self, first: u32) -> u32 {
        first
            .saturating_add(9)
            .min(self.keys.saturating_sub(1))
            .max(first)
    }
}

/// Returns a number that looks like chance (the output function of SplitMix64; Steele, Lea and Flood 2014).
fn mixed(nth: u64) -> u64 {
    let first = nth.wrapping_mul(0x9e37_79b9_7f4a_7c15);
    let second = (first ^ (first >> 30)).wrapping_mul(0xbf58_476d_1ce4_e5b9);
    let third = (second ^ (second >> 27)).wrapping_mul(0x94d0_49bb_1331_11eb);
    third ^ (third >> 31)
}

/// Returns the key of this number: `k` and five digits.
pub(crate) fn key_of(number: u32) -> Option<Key> {
    let mut text = *b"k00000";
    text[1] += (number / 10000 % 10) as u8;
    text[2] += (number / 1000 % 10) as u8;
    text[3] += (number / 100 % 10) as u8;
    text[4] += (number / 10 % 10) as u8;
    text[5] += (number % 10) as u8;
    Key::new(&text).ok()
}

/// Returns the transaction of this number.
pub(crate) fn txn_of(number: u64) -> Option<Txn> {
    Txn::new(number).ok()
}
