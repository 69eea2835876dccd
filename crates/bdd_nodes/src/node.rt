//! A decision node, and the bucket that it is sought in.

ghost use Rattle.std.specs.Prelude.{◌≡◌, ◌<◌, ◌^◌};

use crate::node_ref::NodeRef;

/// A function by a choice: `low`'s where the track is unset, and `high`'s where it is set.
#[derive(Clone, Copy, Debug, PartialEq, Eq)]
pub(crate) struct Node {
    pub(crate) track: u32,
    pub(crate) low: NodeRef,
    pub(crate) high: NodeRef,
}

/// Odd factors without a pattern, one for each part of a node.
const TRACK_FACTOR: u64 = 0x9E37_79B9_7F4A_7C15;

const LOW_FACTOR: u64 = 0xD6E8_FEB8_6659_FD93;

const HIGH_FACTOR: u64 = 0xA076_1D64_78BD_642F;

impl Node {
    ghost use Rattle.bdd_nodes.specs.Hash.{bucket_of};

    /// Which of so many buckets the node belongs to: the sum of the parts times the factors, modulo 2 ^ 64, scaled.
    #[inline(always)]
    #[tactic(auto, unfolding(crate::specs::Hash::bucket_of))]
    pub(crate) fn bucket(self, buckets: u32) -> usize
        requires { 0 < buckets }
        ensures value { result ≡ bucket_of self buckets }
        ensures within { result < buckets }
    {
        let sum = u64::from(self.track)
            .wrapping_mul(TRACK_FACTOR)
            .wrapping_add(u64::from(self.low.word()).wrapping_mul(LOW_FACTOR))
            .wrapping_add(u64::from(self.high.word()).wrapping_mul(HIGH_FACTOR));
        (((sum >> 32) * u64::from(buckets)) >> 32) as usize
    }
}
