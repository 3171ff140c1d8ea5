// A code's message as one whole number, in mixed radix: the first symbol is the least significant. Each operation takes a code's
// description; the buffer is written only after all refusals. An opening is taken apart by `let .. else`, not by `?`: a rule of this project.
#![tactic(auto)]

ghost use Rattle.std.specs.Prelude.{◌≡◌, true, ◌^◌, ◌≤◌, ◌<◌, length, SomeIff, IfOk};
ghost use Rattle.definitions.specs.Messages.{symbols_fit};
ghost use Rattle.definitions.specs.Packing.{radix};
ghost use Rattle.definitions.specs.MessageNumbers.{radix_product, message_number, number_message};
ghost use Rattle.definitions.specs.MessageNumberOperations.{open_numbered, message_of_number, number_of_message, MessageMade, NumberMade};
ghost use Rattle.answers.specs.Answering.{answer_of, answer_with, leaves};
ghost use Rattle.opening.specs.Viewed.{code as the_code};
ghost use Rattle.message_numbers.specs.Numbering.{WhereNumber, WhereMessage};

use answers::Refusal;
use opening::Code;

// A larger product is refused 17: 2^63.
const LARGEST: u64 = 9223372036854775808;

// The product of all radices, if it is at most 2^63: n - r cells of radix q, then r of floor(q/M).
fn radix_product(code: &Code) -> Option<u64>
    ensures { SomeIff result (radix_product (the_code code.now) ≤ 2 ^ 63) (radix_product (the_code code.now)) }
{
    let data = (code.q as u64).checked_pow((code.n - code.r) as u32)?;
    let check = ((code.q / code.m) as u64).checked_pow(code.r as u32)?;
    let product = data.checked_mul(check)?;
    (product <= LARGEST).then_some(product)
}

// The radix of cell i + 1.
fn radix_at(code: &Code, i: usize) -> u64
    ensures { (result ≡ radix (the_code code.now) i) × (1 ≤ result) × (result ≤ 64) }
{
    if i < code.n - code.r {
        code.q as u64
    } else {
        (code.q / code.m) as u64
    }
}

// An opened code whose messages have numbers, with the product of its radices.
#[derive(Clone, Copy)]
struct Numbered<'a> {
    code: Code<'a>,
    product: u64,
    ghost is: { product ≡ radix_product (the_code code) },
    ghost within: { product ≤ 2 ^ 63 },
}

impl<'a> Numbered<'a> {
    // What both operations begin with: opening, 8, 17. The message, or the buffer for it, has so many symbols.
    #[tactic(auto, unfolding(definitions::specs::MessageNumberOperations::open_numbered))]
    fn open(body: &'a [u8], symbols: usize) -> Result<Numbered<'a>, Refusal>
        ensures opened { answer_with (λ x. the_code x.code) result ≡ open_numbered body.now symbols }
        ensures long { IfOk result (λ x. x.code.n ≡ symbols) }
    {
        let opened = Code::open(body);
        let Ok(code) = opened else {
            return Err(opened.unwrap_err());
        };
        if symbols != code.n {
            return Err(Refusal::WrongBuffer);
        }
        let Some(product) = radix_product(&code) else {
            return Err(Refusal::TooManyMessages);
        };
        Ok(Numbered { code, product })
    }

    // The symbols of a number, from the least significant on.
    fn store_symbols(&self, x: u64, out: &mut [u8])
        requires { length out.old ≡ self.now.code.n }
        ensures { out.new ≡ number_message (the_code self.now.code) x }
    {
        let mut rest = x;
        for (i, symbol) in out.iter_mut().enumerate() {
            let radix = radix_at(&self.code, i);
            *symbol = (rest % radix) as u8;
            rest /= radix;
        }
    }

    // Each symbol times its place value, added up.
    #[tactic(auto, using(crate::proofs::Symbols::next_value))]
    fn number_of(&self, message: &[u8]) -> u64
        requires long { length message.now ≡ self.now.code.n }
        requires fits { symbols_fit (the_code self.now.code) message.now ≡ true }
        ensures { result ≡ message_number (the_code self.now.code) message.now }
    {
        let mut x = 0;
        let mut place_value = 1;
        for (i, symbol) in message.iter().enumerate() {
            x += u64::from(*symbol) * place_value;
            place_value *= radix_at(&self.code, i);
        }
        x
    }
}

// A message from a number.
#[tactic(auto, unfolding(definitions::specs::MessageNumberOperations::message_of_number))]
pub fn message_of_number(body: &[u8], x: u64, out: &mut [u8]) -> Result<(), Refusal>
    ensures result { leaves (answer_of result) out.new ≡ message_of_number body.now x out.old }
    ensures made { WhereNumber body.now x out.old (λ p. MessageMade body.now p x (answer_of result) out.new) }
{
    let opened = Numbered::open(body, out.len());
    let Ok(numbered) = opened else {
        return Err(opened.unwrap_err());
    };
    if numbered.product <= x {
        return Err(Refusal::NumberTooLarge);
    }
    numbered.store_symbols(x, out);
    Ok(())
}

// The number of a message.
#[tactic(auto, unfolding(definitions::specs::MessageNumberOperations::number_of_message), using(crate::proofs::Operations::number_made))]
pub fn number_of_message(body: &[u8], message: &[u8]) -> Result<u64, Refusal>
    ensures answer { answer_of result ≡ number_of_message body.now message.now }
    ensures made { WhereMessage body.now message.now (λ p. NumberMade body.now p message.now (answer_of result)) }
{
    let opened = Numbered::open(body, message.len());
    let Ok(numbered) = opened else {
        return Err(opened.unwrap_err());
    };
    if !code_operations::symbols_fit(numbered.code.parameters(), message) {
        return Err(Refusal::SymbolTooLarge);
    }
    Ok(numbered.number_of(message))
}
