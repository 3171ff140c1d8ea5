// Decoding a stack's received word, plane after plane. The output buffer is written only after all planes are decoded.
#![tactic(auto)]

ghost use Rattle.std.specs.Prelude.{◌≡◌, true, ℕ, ◌+◌, ◌*◌, ◌-◌, ◌%◌, ◌<◌, ◌≤◌, length, not, ◌==◌, cond, map, sum, zip};
ghost use Rattle.definitions.specs.Words.{all_below};
ghost use Rattle.definitions.specs.Answers.{result as left_by};
ghost use Rattle.definitions.specs.Stacks.{digits};
ghost use Rattle.definitions.specs.StackDecoding.{first_with_syndrome, lowered, decode_word};
ghost use Rattle.answers.specs.Answering.{answer_of, leaves};
ghost use Rattle.opening.specs.Viewed.{code as the_code};
ghost use Rattle.candidate_patterns.specs.Candidates.{magnitude_at, word_of};
ghost use Rattle.search.specs.Search.{found_word};
ghost use Rattle.stack_opening.specs.Viewed.{stack as the_stack};

use answers::Refusal;
use candidate_patterns::Risen;
use candidate_patterns::asked::Asked;
use search::Pattern;
use stack_opening::{Plane, Stack};

// The first pattern with the syndrome of the digits that a word has in a plane.
fn plane_pattern(plane: &Plane, word: &[u8]) -> Option<Pattern>
    requires { length word.now ≡ plane.now.code.n }
    ensures { found_word plane.now.code.n result ≡ first_with_syndrome (the_code plane.now.code) (digits plane.now.w plane.now.code.m word.now) }
{
    let digits = stack_operations::plane_digits(plane, word);
    let asked = Asked {
        code: plane.code,
        word,
        codeword: false,
        s: plane.code.syndrome(&digits),
    };
    search::first_pattern(&asked)
}

// A level lowered by a magnitude of place value w, modulo q.
fn lowered_level(level: u8, g: usize, w: usize, q: usize) -> u8
    requires { (1 ≤ q) × (q ≤ 64) × (g * w ≤ q) }
    ensures { result ≡ (level + (q - g * w)) % q }
{
    ((usize::from(level) + (q - g * w)) % q) as u8
}

// Lower the levels by a plane's pattern.
fn lower(levels: &mut [u8], k: Risen, w: usize, q: usize)
    requires modulus { (1 ≤ q) × (q ≤ 64) }
    requires magnitudes { (i : ℕ) → i < length levels.old → magnitude_at k i * w ≤ q }
    ensures { levels.new ≡ lowered q w levels.old (word_of (length levels.old) k) }
{
    for (i, level) in levels.iter_mut().enumerate() {
        *level = lowered_level(*level, candidate_patterns::magnitude_at(k, i), w, q);
    }
}

// The cells in which two words differ.
fn distance(x: &[u8], y: &[u8]) -> usize
    requires { (length x.now ≡ length y.now) × (length x.now ≤ 64) }
    ensures { result ≡ sum (map (λ p. cond (not (p.0 == p.1)) 1 0) (zip x.now y.now)) }
{
    x.iter().zip(y).map(|(a, b)| usize::from(a != b)).sum()
}

// From plane 0 upward the first pattern with the syndrome of the present levels' digits lowers them; the count is of the cells that
// differ in the end. The first plane in which there is none is the refusal's. The levels stand in an array, since the output is written
// only after all refusals; what fills an ArrayVec from a slice can fail.
pub fn decode(stack: &Stack, word: &[u8], out: &mut [u8]) -> Result<usize, Refusal>
    requires long { length word.now ≡ stack.now.n }
    requires room { length out.old ≡ stack.now.n }
    requires below { all_below stack.now.q word.now ≡ true }
    ensures { leaves (answer_of result) out.new ≡ left_by (decode_word (the_stack stack.now) word.now) out.old }
{
    let n = stack.n;
    let mut levels = [0u8; 64];
    levels[..n].copy_from_slice(word);
    for (j, plane) in stack.planes().iter().enumerate() {
        let Some(found) = plane_pattern(plane, &levels[..n]) else {
            return Err(Refusal::NoPatternInPlane(j));
        };
        lower(&mut levels[..n], found.risen, plane.w, stack.q);
    }
    let count = distance(&levels[..n], word);
    out.copy_from_slice(&levels[..n]);
    Ok(count)
}
