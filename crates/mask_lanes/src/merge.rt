// Two lists of words merged place by place: whole vectors first, then the words that are left.
ghost use Rattle.mask_lanes.specs.Words.{pointwise_and, pointwise_or};
ghost use Rattle.std.specs.Prelude.{◌≡◌, ℕ, ◌+◌, ◌%◌, ◌≤◌, bit_and, bit_or, length};
ghost use Rattle.std.specs.Simd.Lanes.{chunk, put_chunk, zip2};

use crate::LANES;
use std::simd::prelude::*;

/// Adds to each word of `to` the bits of the word at the same place in `from`.
pub fn or_into(to: &mut [u64], from: &[u64])
    requires { length to.old ≡ length from.now }
    ensures { to.new ≡ pointwise_or to.old from.now }
{
    merge_into::<Or>(to, from)
}

/// Takes from each word of `to` the bits that the word at the same place in `from` lacks.
pub fn and_into(to: &mut [u64], from: &[u64])
    requires { length to.old ≡ length from.now }
    ensures { to.new ≡ pointwise_and to.old from.now }
{
    merge_into::<And>(to, from)
}

/// How two words become one, a word or a vector of words at a time.
trait Merge {
    ghost merged: { ℕ → ℕ → ℕ };

    fn merge_word(word: u64, other: u64) -> u64
        ensures { result ≡ merged word other };

    fn merge_vector(vector: u64x8, other: u64x8) -> u64x8
        ensures { result ≡ zip2 merged vector other };
}

/// The bits of either word.
struct Or;

impl Merge for Or {
    ghost merged = { bit_or };

    #[inline(always)]
    fn merge_word(word: u64, other: u64) -> u64 {
        word | other
    }

    #[inline(always)]
    fn merge_vector(vector: u64x8, other: u64x8) -> u64x8 {
        vector | other
    }
}

/// The bits that both words have.
struct And;

impl Merge for And {
    ghost merged = { bit_and };

    #[inline(always)]
    fn merge_word(word: u64, other: u64) -> u64 {
        word & other
    }

    #[inline(always)]
    fn merge_vector(vector: u64x8, other: u64x8) -> u64x8 {
        vector & other
    }
}

#[tactic(auto, using(crate::proofs::Fronts::zip2_parts))]
fn merge_into<M: Merge>(to: &mut [u64], from: &[u64])
    requires { length to.old ≡ length from.now }
    ensures { to.new ≡ zip2 M.merged to.old from.now }
{
    let whole = to.len() / LANES * LANES;
    let (to_vectors, to_words) = to.split_at_mut(whole);
    let (from_vectors, from_words) = from.split_at(whole);
    merge_vectors::<M>(to_vectors, from_vectors);
    merge_words::<M>(to_words, from_words);
}

#[tactic(auto, using(crate::proofs::Fronts::front_merged_whole))]
fn merge_vectors<M: Merge>(to: &mut [u64], from: &[u64])
    requires lengths { length to.old ≡ length from.now }
    requires whole { length to.old % LANES ≡ 0 }
    ensures { to.new ≡ zip2 M.merged to.old from.now }
{
    for vector in 0..to.len() / LANES {
        merge_at::<M>(to, from, vector * LANES);
    }
}

#[inline(always)]
fn merge_at<M: Merge>(to: &mut [u64], from: &[u64], at: usize)
    requires to_has { at + LANES ≤ length to.old }
    requires from_has { at + LANES ≤ length from.now }
    ensures { to.new ≡ put_chunk at to.old
        (zip2 M.merged (chunk at LANES to.old) (chunk at LANES from.now)) }
{
    let other = u64x8::from_slice(&from[at..]);
    let merged = M::merge_vector(u64x8::from_slice(&to[at..]), other);
    merged.copy_to_slice(&mut to[at..]);
}

#[tactic(auto, using(crate::proofs::Fronts::front_merged_word, crate::proofs::Fronts::front_merged_whole))]
fn merge_words<M: Merge>(to: &mut [u64], from: &[u64])
    requires { length to.old ≡ length from.now }
    ensures { to.new ≡ zip2 M.merged to.old from.now }
{
    for at in 0..to.len() {
        to[at] = M::merge_word(to[at], from[at]);
    }
}
