//! Words in no visible order.
ghost use Rattle.std.specs.Prelude.{◌≡◌};
ghost use Rattle.bench_report.specs.Words.{word_of};

/// The word of this number in a sequence that visits each word once, in no visible order.
pub fn scattered(number: u64) -> u64
    ensures { result ≡ word_of number }
{
    let odd = number.wrapping_mul(0x9e37_79b9_7f4a_7c15);
    let once = (odd ^ (odd >> 30)).wrapping_mul(0xbf58_476d_1ce4_e5b9);
    let twice = (once ^ (once >> 27)).wrapping_mul(0x94d0_49bb_1331_11eb);
    twice ^ (twice >> 31)
}
