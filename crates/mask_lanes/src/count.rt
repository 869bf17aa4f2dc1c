// The words that have every bit of a mask: whole vectors first, then the words that are left.
ghost use Rattle.mask_lanes.specs.Words.{contains_all, number_with};
ghost use Rattle.std.specs.Prelude.{◌≡◌, ℕ, ◌+◌, ◌%◌, ◌≤◌, ◌↔◌, IsTrue, length};
ghost use Rattle.std.specs.Int.{bit_at};
ghost use Rattle.std.specs.Simd.Lanes.{chunk};

use crate::LANES;
use std::simd::prelude::*;

/// How many of the words have every bit of `mask`; all of them where `mask` is 0.
#[tactic(auto, using(crate::proofs::Counts::number_with_parts))]
pub fn count_with(masks: &[u64], mask: u64) -> usize
    ensures { result ≡ number_with mask masks.now }
{
    let (vectors, words) = masks.split_at(masks.len() / LANES * LANES);
    count_vectors(vectors, mask) + count_words(words, mask)
}

fn count_vectors(masks: &[u64], mask: u64) -> usize
    requires { length masks.now % LANES ≡ 0 }
    ensures { result ≡ number_with mask masks.now }
{
    let mut count = 0;
    for vector in 0..masks.len() / LANES {
        count += count_at(masks, vector * LANES, mask) as usize;
    }
    count
}

#[inline(always)]
fn count_at(masks: &[u64], at: usize, mask: u64) -> u32
    requires { at + LANES ≤ length masks.now }
    ensures { result ≡ number_with mask (chunk at LANES masks.now) }
{
    let wanted = u64x8::splat(mask);
    let common = u64x8::from_slice(&masks[at..]) & wanted;
    common.simd_eq(wanted).to_bitmask().count_ones()
}

fn count_words(masks: &[u64], mask: u64) -> usize
    ensures { result ≡ number_with mask masks.now }
{
    masks
        .iter()
        .filter(|word| contains_all(**word, mask))
        .count()
}

#[inline(always)]
fn contains_all(word: u64, mask: u64) -> bool
    ensures value { result ≡ contains_all mask word }
    ensures bits { IsTrue result ↔ ((bit : ℕ) → bit_at mask bit ≡ 1 → bit_at word bit ≡ 1) }
{
    word & mask == mask
}
