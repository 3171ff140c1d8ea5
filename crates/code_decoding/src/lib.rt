// Decoding a received word of an opened code: the first error pattern that leaves a codeword is subtracted from the word.
#![tactic(auto)]

ghost use Rattle.std.specs.Prelude.{◌≡◌, true, length, IfOk};
ghost use Rattle.definitions.specs.Words.{subtract, all_below};
ghost use Rattle.definitions.specs.Answers.{result as left_by};
ghost use Rattle.definitions.specs.Decoding.{decode};
ghost use Rattle.definitions.specs.Tried.{tried};
ghost use Rattle.answers.specs.Answering.{answer_with, leaves};
ghost use Rattle.opening.specs.Viewed.{code as the_code};
ghost use Rattle.candidate_patterns.specs.Candidates.{word_of};
ghost use Rattle.code_decoding.specs.Counts.{count_of};

use answers::Refusal;
use candidate_patterns::Risen;
use candidate_patterns::asked::Asked;
use opening::Code;
use search::Pattern;

// The word less the pattern. The word is read by index: of a buffer written through `iter_mut().zip(..)` a proof knows nothing,
// and a copy changed in place would write each cell twice.
fn store_decoded(word: &[u8], k: Risen, out: &mut [u8])
    requires { length out.old ≡ length word.now }
    ensures { out.new ≡ subtract word.now (word_of (length word.now) k) }
{
    for (i, cell) in out.iter_mut().enumerate() {
        *cell = usize::from(word[i]).saturating_sub(candidate_patterns::magnitude_at(k, i)) as u8;
    }
}

// What decoding gives: how many cells were lowered, and how many patterns were tried.
#[derive(Clone, Copy, Debug, PartialEq, Eq)]
pub struct Decoded {
    pub count: usize,
    pub tried: usize,
}

// Decode a word. The buffer is written only where a pattern is found.
pub fn decode(code: &Code, word: &[u8], out: &mut [u8]) -> Result<Decoded, Refusal>
    requires long { length word.now ≡ code.now.n }
    requires room { length out.old ≡ code.now.n }
    requires below { all_below code.now.q word.now ≡ true }
    ensures decoded { leaves (answer_with count_of result) out.new ≡ left_by (decode (the_code code.now) word.now) out.old }
    ensures tried { IfOk result (λ x. x.tried ≡ tried (the_code code.now) word.now) }
{
    let asked = Asked {
        code: *code,
        word,
        codeword: true,
        s: code.syndrome(word),
    };
    let Some(pattern) = search::first_pattern(&asked) else {
        return Err(Refusal::NoCodewordInReach);
    };
    store_decoded(word, pattern.risen, out);
    let Pattern { count, tried, .. } = pattern;
    Ok(Decoded { count, tried })
}
