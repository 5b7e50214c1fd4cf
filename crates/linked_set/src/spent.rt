//! The number of the last write.
ghost use Rattle.std.specs.Prelude.{◌≡◌, ◌==◌, ◌-◌, ◌^◌};

/// Whether the last write, whose number is `writes`, has the greatest number: then no other may take place. O(1).
#[inline(always)]
pub fn is_spent(writes: u64) -> bool
    ensures { result ≡ (writes == 2 ^ 64 - 1) }
{
    writes == u64::MAX
}
