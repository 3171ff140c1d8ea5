// One error pattern of a search: its risen cells, and the test that it has to pass.
#![tactic(auto)]

ghost use Rattle.std.specs.Prelude.{◌≡◌, true, ℕ, ◌-◌, ◌<◌, ◌≤◌, ltb, length};
ghost use Rattle.definitions.specs.Words.{at, all_zero};
ghost use Rattle.definitions.specs.Codewords.{ceiling};
ghost use Rattle.definitions.specs.Decoding.{fits, same_syndrome};
ghost use Rattle.opening.specs.Viewed.{code as the_code};
ghost use Rattle.candidate_patterns.specs.Candidates.{magnitude_at, word_of, Remains, test_for};

pub mod asked;

use asked::Asked;

// A cell, counted from 0, and the magnitude by which it rises; a magnitude of 0 is no rise: with a count beside the array, or
// Options in it, a search takes 1.25 to 2 times as long.
#[derive(Clone, Copy)]
pub struct Rise {
    pub cell: usize,
    pub magnitude: usize,
}

// At most three risen cells, the last chosen first.
#[derive(Clone, Copy)]
pub struct Risen {
    pub rises: [Rise; 3],
}

// The magnitude that a pattern gives cell i.
#[tactic(auto, unfolding(crate::specs::Candidates::magnitude_at))]
pub fn magnitude_at(k: Risen, i: usize) -> usize
    ensures { result ≡ magnitude_at k i }
{
    for rise in &k.rises {
        if rise.cell == i && rise.magnitude != 0 {
            return rise.magnitude;
        }
    }
    0
}

// Whether all entries are 0.
fn is_zero(s: &[u8; 12]) -> bool
    ensures { result ≡ all_zero s.now }
{
    *s == [0; 12]
}

// Whether the pattern is above the word at cell i.
fn is_above(word: &[u8], k: Risen, i: usize) -> bool
    ensures { result ≡ ltb (at word.now i) (at (word_of (length word.now) k) i) }
{
    if word.len() <= i {
        return false;
    }
    usize::from(word[i]) < magnitude_at(k, i)
}

// Whether a pattern with the word's syndrome that is nowhere above the word leaves all its check cells, the unrisen too, below the ceiling.
fn checks_fit(a: &Asked, k: Risen, high: usize) -> bool
    requires asked { a.now.codeword ≡ true }
    requires same { same_syndrome (the_code a.now.code) a.now.word.now (word_of a.now.code.n k) ≡ true }
    requires under { (i : ℕ) → i < a.now.code.n → magnitude_at k i ≤ at a.now.word.now i }
    requires bound { high ≡ ceiling (the_code a.now.code) }
    ensures { result ≡ fits (the_code a.now.code) a.now.word.now (word_of a.now.code.n k) }
{
    (a.code.n - a.code.r..a.code.n).all(|i| usize::from(a.word[i]) - magnitude_at(k, i) < high)
}

// Whether a pattern with the word's syndrome is nowhere above the word and leaves its check cells below the ceiling. Where m divides q
// every level is below it.
fn leaves_codeword(a: &Asked, k: Risen) -> bool
    requires asked { a.now.codeword ≡ true }
    requires same { same_syndrome (the_code a.now.code) a.now.word.now (word_of a.now.code.n k) ≡ true }
    ensures { result ≡ fits (the_code a.now.code) a.now.word.now (word_of a.now.code.n k) }
{
    // The closure takes a copy of k: the check has no rule yet for a second loan of it.
    if k.rises
        .iter()
        .any(move |rise| is_above(a.word, k, rise.cell))
    {
        return false;
    }
    let high = syndrome::ceiling(a.code.q, a.code.m);
    high == a.code.q || checks_fit(a, k, high)
}

// Whether the pattern of the choices made passes: nothing may remain of the syndrome and, where a codeword is asked for, it leaves one.
pub fn passes(a: &Asked, rest: &[u8; 12], k: Risen) -> bool
    requires { Remains (the_code a.now.code) a.now.s k rest.now }
    ensures { result ≡ test_for a.now (word_of a.now.code.n k) }
{
    if !is_zero(rest) {
        return false;
    }
    if a.codeword {
        return leaves_codeword(a, k);
    }
    true
}
