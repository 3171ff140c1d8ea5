// Decoding a word of the 23-cell binary Golay code by the table of its patterns: the one pattern with the word's syndrome is looked up, and
// nothing is searched.
#![tactic(auto)]

ghost use Rattle.std.specs.Prelude.{◌≡◌, ◌^◌, ◌%◌, ◌<◌, ◌≤◌, not, true, ℕ};
ghost use Rattle.std.specs.Simd.Lanes.{chunk};
ghost use Rattle.definitions.specs.Words.{subtract, nowhere_above, all_below};
ghost use Rattle.definitions.specs.Answers.{result as left_by};
ghost use Rattle.definitions.specs.Decoding.{decode as decoded_word};
ghost use Rattle.definitions.specs.Demands.{of_code, DistanceDecides, KeepsMessages};
ghost use Rattle.definitions.specs.CodeOperations.{decode_code};
ghost use Rattle.definitions.specs.Golay.{golay_code, golay_body, word_of_bits, decode_golay};
ghost use Rattle.answers.specs.Answering.{answer_of, leaves};
ghost use Rattle.golay.specs.Clauses.{WhereGolay, WhereGolayReads};
ghost use Rattle.golay.specs.RisenCells.{WithoutCell};

use answers::Refusal;
use std::simd::prelude::*;

// Takes the last risen cell out of a pattern, and says which it is, counted from 0. At most three are walked over, where a pass would look
// at 23.
#[tactic(auto, using(crate::proofs::Walks::lowest_bit, crate::proofs::Walks::last_taken))]
fn take_last(left: &mut u32) -> usize
    requires some { 0 < left.old }
    requires bits { left.old < 2 ^ 23 }
    ensures { WithoutCell left.old result left.new }
{
    let bit = left.trailing_zeros();
    *left &= *left - 1;
    22 - bit as usize
}

// Whether a risen cell of the pattern was read at 0.
#[tactic(auto, using(crate::proofs::Walks::all_unseen, crate::proofs::Walks::all_seen, crate::proofs::Walks::one_above))]
fn is_above(pattern: u32, word: &[u8; 23]) -> bool
    requires { pattern < 2 ^ 23 }
    ensures { result ≡ not (nowhere_above (word_of_bits pattern) word.now) }
{
    let mut left = pattern;
    while left != 0 {
        if word[take_last(&mut left)] == 0 {
            return true;
        }
    }
    false
}

// The word less the pattern.
#[tactic(auto, using(crate::proofs::Walks::none_lowered, crate::proofs::Walks::can_lower, crate::proofs::Walks::all_lowered))]
fn store_decoded(pattern: u32, word: &[u8; 23], out: &mut [u8; 23])
    requires bits { pattern < 2 ^ 23 }
    requires under { nowhere_above (word_of_bits pattern) word.now ≡ true }
    ensures { out.new ≡ subtract word.now (word_of_bits pattern) }
{
    *out = *word;
    let mut left = pattern;
    while left != 0 {
        let cell = take_last(&mut left);
        out[cell] = word[cell] - 1;
    }
}

// Whether sixteen levels, from cell `first` on, are below q.
fn sixteen_below(q: u8, word: &[u8; 23], first: usize) -> bool
    requires { first ≤ 7 }
    ensures { result ≡ all_below q (chunk first 16 word.now) }
{
    let levels = u8x16::from_slice(&word[first..]);
    levels.simd_ge(u8x16::splat(q)).to_bitmask() == 0
}

// Whether all are: two vectors have them, with nine cells in both. By `&`, so without a branch.
#[tactic(auto, using(crate::proofs::Levels::both_below))]
fn are_below(q: usize, word: &[u8; 23]) -> bool
    requires { q ≤ 64 }
    ensures { result ≡ all_below q word.now }
{
    sixteen_below(q as u8, word, 0) & sixteen_below(q as u8, word, 7)
}

// Decode a word, for every even q above its levels. A cell at 0 refuses it before the buffer is written, so the risen cells are walked over
// twice.
fn decode_word(word: &[u8; 23], out: &mut [u8; 23]) -> Result<usize, Refusal>
    ensures { (q : ℕ) → q % 2 ≡ 0 → all_below q word.now ≡ true
        → leaves (answer_of result) out.new ≡ left_by (decoded_word (golay_code q) word.now) out.old }
{
    let pattern = golay_table::pattern_at(golay_table::syndrome_index(word));
    if is_above(pattern, word) {
        return Err(Refusal::NoCodewordInReach);
    }
    store_decoded(pattern, word, out);
    Ok(pattern.count_ones() as usize)
}

// The refusals that come before a pattern is looked up, in their order.
#[tactic(auto, unfolding(definitions::specs::Golay::decode_golay))]
fn decode_received(q: usize, received: &[u8], out: &mut [u8]) -> Result<usize, Refusal>
    ensures { leaves (answer_of result) out.new ≡ decode_golay q received.now out.old }
{
    if q < 2 || 64 < q || q % 2 != 0 {
        return Err(Refusal::OutOfRange);
    }
    let Some(word) = received.as_array::<23>() else {
        return Err(Refusal::WrongBuffer);
    };
    let Some(out) = out.as_mut_array::<23>() else {
        return Err(Refusal::WrongBuffer);
    };
    if !are_below(q, word) {
        return Err(Refusal::LevelTooLarge);
    }
    decode_word(word, out)
}

// Read a word of the Golay code of q levels. What is given is the count. The clauses stand at a function of their own: each return of
// `decode_received` would owe all four.
pub fn decode(q: usize, received: &[u8], out: &mut [u8]) -> Result<usize, Refusal>
    ensures result { leaves (answer_of result) out.new ≡ decode_golay q received.now out.old }
    ensures as_by_search { WhereGolay q
        (leaves (answer_of result) out.new ≡ decode_code (golay_body q) received.now out.old) }
    ensures distance_decides { WhereGolayReads q received.now out.old
        (DistanceDecides (of_code (golay_code q)) received.now (answer_of result) out.new) }
    ensures keeps_messages { WhereGolayReads q received.now out.old
        (KeepsMessages (of_code (golay_code q)) received.now (answer_of result) out.new) }
{
    decode_received(q, received, out)
}
