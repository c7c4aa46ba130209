//! Numbers without order.

use rand_core::utils::NextWord;
use rand_pcg::Pcg32;

/// Whether a chance of `percent` in a hundred comes about.
pub fn chance(words: &mut Pcg32, percent: u32) -> bool {
    words.next_word() % 100 < percent
}

/// A number below a bound, 0 where that is 0; small ones come more often.
pub fn popular(words: &mut Pcg32, bound: u32) -> u32 {
    let first = u64::from(words.next_word());
    let second = u64::from(words.next_word());
    let product = first.wrapping_mul(second) >> 32;
    (product.wrapping_mul(u64::from(bound)) >> 32) as u32
}

/// A number with the bits of two others mixed (the last step of SplitMix64).
pub fn mixed(number: u32, seed: u32) -> u64 {
    let sum = (u64::from(number) << 32) ^ u64::from(seed);
    let first = sum.wrapping_add(0x9e37_79b9_7f4a_7c15);
    let second = (first ^ (first >> 30)).wrapping_mul(0xbf58_476d_1ce4_e5b9);
    let third = (second ^ (second >> 27)).wrapping_mul(0x94d0_49bb_1331_11eb);
    third ^ (third >> 31)
}
