//! A bucket, as the register tells it.
use buckets::Ends;

/// The first and the last rank of a bucket, and the region of its members.
#[derive(Clone, Copy, PartialEq, Eq, Debug)]
pub struct Bucket<R> {
    pub ends: Ends,
    pub region: R,
}
