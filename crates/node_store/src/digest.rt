//! Digests as links keep them.
ghost use Rattle.std.specs.Prelude.{◌≡◌, ◌/◌, ◌^◌};
ghost use Rattle.std.specs.Ordering.{nat_cmp};
ghost use Rattle.node_store.specs.Digest.{digest_number};

use std::cmp::Ordering;

/// The upper 48 bits of a number of 64.
#[derive(Clone, Copy, PartialEq, Eq, Debug)]
pub struct Digest {
    pub(crate) high: u32,
    pub(crate) low: u16,
}

impl Digest {
    /// The digest of the number 0.
    pub const ZERO: Digest = Digest { high: 0, low: 0 };

    /// The upper 48 bits of a number.
    #[inline(always)]
    pub fn of(number: u64) -> Digest
        ensures { digest_number result ≡ number / 2 ^ 16 }
    {
        Digest {
            high: (number >> 32) as u32,
            low: (number >> 16 & 0xffff) as u16,
        }
    }

    /// These bits as a number, which is below 2^48.
    #[inline(always)]
    pub fn number(self) -> u64
        ensures { result ≡ digest_number self }
    {
        (self.high as u64) << 16 | self.low as u64
    }

    /// How the numbers of two digests stand to one another.
    #[inline(always)]
    pub fn compare(self, other: Digest) -> Ordering
        ensures { result ≡ nat_cmp (digest_number self) (digest_number other) }
    {
        self.number().cmp(&other.number())
    }
}
