// What the operations on stacks do besides searching: acceptance, the tests of words and messages, and what recover and encode store.
#![tactic(auto)]

ghost use Rattle.std.specs.Prelude.{◌≡◌, true, ◌-◌, ◌/◌, ◌%◌, ℕ, ◌+◌, ◌*◌, ◌<◌, ◌≤◌, length, All};
ghost use Rattle.std.specs.List.{list_all};
ghost use Rattle.definitions.specs.Words.{at, all_below};
ghost use Rattle.definitions.specs.Acceptance.{accepted};
ghost use Rattle.definitions.specs.Stacks.{digits};
ghost use Rattle.definitions.specs.StackCodewords.{accepted_stack, is_stack_codeword};
ghost use Rattle.definitions.specs.StackMessages.{digits_fit, stack_message, encode_plane, encode_word};
ghost use Rattle.opening.specs.Viewed.{code as the_code};
ghost use Rattle.stack_opening.specs.Viewed.{stack as the_stack};
ghost use Rattle.stack_operations.specs.Parts.{zero_digits};

use arrayvec::ArrayVec;
use opening::Code;
use stack_opening::{Plane, Stack};

fn planes_accepted(planes: &[Plane<'_>]) -> bool
    ensures { result ≡ list_all (λ p. accepted (the_code p.code)) planes.now }
{
    planes
        .iter()
        .all(|plane| acceptance::is_accepted(&plane.code))
}

// Whether each plane is accepted.
#[tactic(auto, using(crate::proofs::Planes::accepted_is))]
pub fn is_accepted(stack: &Stack) -> bool
    ensures { result ≡ accepted_stack (the_stack stack.now) }
{
    planes_accepted(stack.planes())
}

// A level's digit of place value w below c.
fn digit(level: u8, w: usize, c: usize) -> u8
    requires { (1 ≤ w) × (1 ≤ c) }
    ensures { result ≡ level / w % c }
{
    (usize::from(level) / w % c) as u8
}

// The digits of a word's levels. That it has at most 64 stays a clause, here and below: a type for it would be longer.
pub fn digits(word: &[u8], w: usize, c: usize) -> ArrayVec<u8, 64>
    requires { (length word.now ≤ 64) × (1 ≤ w) × (1 ≤ c) }
    ensures digits { result.items ≡ digits w c word.now }
    ensures long { length result.items ≡ length word.now }
{
    let mut digits = ArrayVec::new();
    for level in word {
        digits.push(digit(*level, w, c));
    }
    digits
}

// The digits that a word has in a plane.
pub fn plane_digits(plane: &Plane, word: &[u8]) -> ArrayVec<u8, 64>
    requires { length word.now ≤ 64 }
    ensures digits { result.items ≡ digits plane.now.w plane.now.code.m word.now }
    ensures long { length result.items ≡ length word.now }
{
    digits(word, plane.w, plane.code.m)
}

// Whether the digits of each plane have syndrome 0.
fn digits_are_codewords(planes: &[Plane<'_>], word: &[u8]) -> bool
    requires small { length word.now ≤ 64 }
    requires long { All (λ p. p.code.n ≡ length word.now) planes.now }
    ensures { result ≡ list_all (zero_digits word.now) planes.now }
{
    planes.iter().all(|plane| {
        let digits = plane_digits(plane, word);
        plane.code.has_zero_syndrome(&digits)
    })
}

// Whether a word, its levels below q, is a codeword: the digits of each plane are a codeword of it.
#[tactic(auto, using(crate::proofs::Planes::codeword_by_digits))]
pub fn is_codeword(stack: &Stack, word: &[u8]) -> bool
    requires long { length word.now ≡ stack.now.n }
    requires levels { all_below stack.now.q word.now ≡ true }
    ensures { result ≡ is_stack_codeword (the_stack stack.now) word.now }
{
    digits_are_codewords(stack.planes(), word)
}

// The message that a word carries, plane by plane.
pub fn store_message(stack: &Stack, word: &[u8], out: &mut [u8])
    requires long { length word.now ≡ stack.now.n }
    requires room { length out.old ≡ stack.now.symbols }
    ensures { out.new ≡ stack_message (the_stack stack.now) word.now }
{
    // A place runs along: with `split_at_mut` in the loop nothing is known at its end of what stands in `out`, so the proof does not close.
    let mut at = 0;
    for plane in stack.planes() {
        let k = stack.n - plane.code.r;
        out[at..at + k].copy_from_slice(&plane_digits(plane, word)[..k]);
        at += k;
    }
}

// Whether the digits of a message are below their planes' c.
pub fn digits_fit(stack: &Stack, message: &[u8]) -> bool
    requires { length message.now ≡ stack.now.symbols }
    ensures { result ≡ digits_fit (the_stack stack.now).planes message.now }
{
    let mut left = message;
    for plane in stack.planes() {
        let (symbols, others) = left.split_at(stack.n - plane.code.r);
        if !byte_helpers::all_below(plane.code.m, symbols) {
            return false;
        }
        left = others;
    }
    true
}

// Digit i + 1 of the codeword that carries a plane's symbols.
fn plane_digit(code: &Code, symbols: &[u8], i: usize) -> usize
    requires { (length symbols.now ≡ code.now.n - code.now.r) × (i < code.now.n) }
    ensures { result ≡ at (encode_plane (the_code code.now) symbols.now) i }
{
    let k = code.n - code.r;
    if i < k {
        return usize::from(symbols[i]);
    }
    code.filling(symbols, i - k)
}

// The digits of a plane's codeword, each times the plane's place value, are added to the levels so far.
fn add_digits(plane: &Plane, symbols: &[u8], levels: &mut [u8])
    requires symbols { length symbols.now ≡ plane.now.code.n - plane.now.code.r }
    requires cells { length levels.old ≡ plane.now.code.n }
    requires small { (i : ℕ) → i < plane.now.code.n
        → at levels.old i + at (encode_plane (the_code plane.now.code) symbols.now) i * plane.now.w < 64 }
    ensures sum { (i : ℕ) → i < plane.now.code.n
        → at levels.new i ≡ at levels.old i + at (encode_plane (the_code plane.now.code) symbols.now) i * plane.now.w }
{
    for (i, level) in levels.iter_mut().enumerate() {
        *level = (usize::from(*level) + plane_digit(&plane.code, symbols, i) * plane.w) as u8;
    }
}

// The codeword that carries a message. Plane by plane: cell by cell, with the planes inside, it took up to 1.4 times as long.
pub fn store_codeword(stack: &Stack, message: &[u8], out: &mut [u8])
    requires fits { digits_fit (the_stack stack.now).planes message.now ≡ true }
    requires long { length message.now ≡ stack.now.symbols }
    requires room { length out.old ≡ stack.now.n }
    ensures { out.new ≡ encode_word (the_stack stack.now) message.now }
{
    out.fill(0);
    let mut rest = message;
    for plane in stack.planes().iter() {
        let (symbols, others) = rest.split_at(stack.n - plane.code.r);
        add_digits(plane, symbols, out);
        rest = others;
    }
}
