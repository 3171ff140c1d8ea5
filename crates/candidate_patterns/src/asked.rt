// What a search is for.
#![tactic(auto)]

ghost use Rattle.std.specs.Prelude.{◌≡◌, true, ℕ, ◌<◌, ◌≤◌, length};
ghost use Rattle.definitions.specs.Words.{at, all_below};
ghost use Rattle.definitions.specs.Codewords.{syndrome_entry};
ghost use Rattle.opening.specs.Viewed.{code as the_code};

use opening::Code;

// A pattern of this code with the syndrome s and, where a codeword is asked for, that leaves one of the word. The flag stands beside the word,
// not an Option in its place: the facts below speak of the word, and would each have to match on it.
#[derive(Clone, Copy)]
pub struct Asked<'a> {
    pub code: Code<'a>,
    pub word: &'a [u8],
    pub codeword: bool,
    pub s: [u8; 12],
    pub ghost below: { (i : ℕ) → at s i < code.m },
    pub ghost past: { (i : ℕ) → code.r ≤ i → at s i ≡ 0 },
    pub ghost long: { codeword ≡ true → length word.now ≡ code.n },
    pub ghost levels: { codeword ≡ true → all_below code.q word.now ≡ true },
    pub ghost is: { codeword ≡ true → (i : ℕ) → at s i ≡ syndrome_entry (the_code code) word.now i },
}
