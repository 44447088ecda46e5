//! Numbers that spread keys over the buckets of a table.

ghost use Rattle.std.specs.Prelude.{◌≡◌, ◌<◌, ◌*◌, ◌/◌, fold};
ghost use Rattle.adya_keys.specs.Machinery.KeyHash.{bucket_of, hash_of, mixed};

/// Returns the key's bucket among so many.
#[inline(always)]
pub(crate) fn bucket_of(key: &[u8], buckets: usize) -> usize
    requires some { 0 < buckets }
    requires few { buckets < 4294967296 }
    ensures within { result < buckets }
    ensures value { result ≡ bucket_of buckets key.now }
{
    bucket(hash_of(key), buckets)
}

#[inline(always)]
fn bucket(hash: u32, buckets: usize) -> usize
    requires some { 0 < buckets }
    requires few { buckets < 4294967296 }
    ensures within { result < buckets }
    ensures value { result ≡ hash * buckets / 4294967296 }
{
    (u64::from(hash) * buckets as u64 / 4_294_967_296) as usize
}

#[inline(always)]
fn hash_of(key: &[u8]) -> u32
    ensures { result ≡ hash_of key.now }
{
    let sum = key.iter().fold(0, |h, b| mixed(h, *b));
    (sum / 4_294_967_296) as u32
}

/// Returns a number of the bytes so far, and one more byte. The factor is that of Fibonacci hashing (Knuth, "The Art of
/// Computer Programming", volume 3, section 6.4): 2 to the 64th power, divided by the golden ratio.
#[inline(always)]
fn mixed(h: u64, b: u8) -> u64
    ensures { result ≡ mixed h b }
{
    h.wrapping_add(u64::from(b))
        .wrapping_mul(11_400_714_819_323_198_485)
}
