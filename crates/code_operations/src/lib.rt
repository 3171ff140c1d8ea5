// What the operations on codes do with an opened code, where no search is needed: the tests of a message and of a word, and the stores of a
// codeword and of a message.
#![tactic(auto)]

ghost use Rattle.std.specs.Prelude.{◌≡◌, true, List, ℕ, ◌/◌, ◌<◌, ◌≤◌, map, length};
ghost use Rattle.definitions.specs.Words.{all_below};
ghost use Rattle.definitions.specs.Codewords.{is_codeword};
ghost use Rattle.definitions.specs.Messages.{symbols_fit, encode, message};
ghost use Rattle.opening.specs.Viewed.{code as the_code, code_with};

use opening::{Code, Parameters};

// Whether the symbols are below their bounds, which no matrix is needed for.
#[tactic(auto, unfolding(definitions::specs::Messages::symbols_fit))]
pub fn symbols_fit(parameters: Parameters, message: &[u8]) -> bool
    requires { (2 ≤ parameters.m) × (parameters.r ≤ parameters.n) × (length message.now ≡ parameters.n) }
    ensures { (A : List ℕ) → result ≡ symbols_fit (code_with parameters A) message.now }
{
    let w = parameters.n - parameters.r;
    byte_helpers::all_below(parameters.q, &message[..w])
        && byte_helpers::all_below(parameters.q / parameters.m, &message[w..])
}

// Store the codeword of a message: its data cells are the message's symbols, and each check cell has its symbol times M plus what makes the
// syndrome's entry 0. The message is read by index: of a buffer written through `iter_mut().zip(..)` a proof knows nothing.
pub fn store_codeword(code: &Code, message: &[u8], out: &mut [u8])
    requires fits { symbols_fit (the_code code.now) message.now ≡ true }
    requires long { length message.now ≡ code.now.n }
    requires room { length out.old ≡ code.now.n }
    ensures { out.new ≡ encode (the_code code.now) message.now }
{
    let w = code.n - code.r;
    for (i, cell) in out.iter_mut().enumerate() {
        *cell = if i < w {
            message[i]
        } else {
            (code.m * usize::from(message[i]) + code.filling(message, i - w)) as u8
        };
    }
}

// The levels of a word are below q: so the data cells are below their bound, and the check cells are measured by the ceiling.
#[tactic(auto, unfolding(definitions::specs::Codewords::is_codeword))]
pub fn is_codeword(code: &Code, word: &[u8]) -> bool
    requires long { length word.now ≡ code.now.n }
    requires levels { all_below code.now.q word.now ≡ true }
    ensures { result ≡ is_codeword (the_code code.now) word.now }
{
    let w = code.n - code.r;
    byte_helpers::all_below(syndrome::ceiling(code.q, code.m), &word[w..])
        && code.has_zero_syndrome(word)
}

// The message that a word carries. In one loop, not by a copy that is changed in place: such a copy calls memmove, which a caller's C library
// would have to bring for this alone.
#[tactic(auto, unfolding(definitions::specs::Messages::message))]
pub fn store_message(code: &Code, word: &[u8], out: &mut [u8])
    requires { (length word.now ≡ code.now.n) × (length out.old ≡ code.now.n) }
    ensures { out.new ≡ message (the_code code.now) word.now }
{
    let w = code.n - code.r;
    for (i, cell) in out.iter_mut().enumerate() {
        *cell = if w <= i {
            (usize::from(word[i]) / code.m) as u8
        } else {
            word[i]
        };
    }
}
