// The operations on codes.

ghost use Rattle.std.specs.Prelude.{◌≡◌};
ghost use Rattle.definitions.specs.Acceptance.{Accepted, accepted};
ghost use Rattle.definitions.specs.Codes.{code_of};
ghost use Rattle.definitions.specs.Codewords.{is_codeword};
ghost use Rattle.definitions.specs.Messages.{symbols_fit};
ghost use Rattle.definitions.specs.Decoding.{decode as decoded_word};
ghost use Rattle.definitions.specs.Tried.{tried, tried_code, TriedIsPlace};
ghost use Rattle.definitions.specs.CodeOperations.{test_code, encode_code, decode_code, recover_code};
ghost use Rattle.definitions.specs.Demands.{of_code, Tested, OneCodeword, Recovered, DistanceDecides, SomeCodeword, KeepsMessages};
ghost use Rattle.answers.specs.Answering.{answer_of, answer_with, leaves};
ghost use Rattle.opening.specs.Viewed.{code as the_code};
ghost use Rattle.code_decoding.specs.Counts.{count_of, tried_of};
ghost use Rattle.codec.specs.CodeClauses.{WhereCodeOpens, WhereWritable, WhereCodeword, WhereCodeReads, WhereCodeAccepted};
ghost use Rattle.codec.specs.CodeLaws.{code_accepted, code_one_to_one, code_message_passes, code_passes, code_always, code_decides, code_keeps};

use crate::Codec;
use answers::Refusal;
use code_decoding::Decoded;
use opening::Code;

impl<'a> Codec for Code<'a> {
    type Found = Decoded;

    ghost coding = { λ x. of_code (the_code x) };

    ghost cells = { λ x. x.n };

    ghost symbols = { λ x. x.n };

    ghost levels = { λ x. x.q };

    ghost passes = { λ x. is_codeword (the_code x) };

    ghost fits = { λ x. symbols_fit (the_code x) };

    ghost accepted = { λ x. Accepted (the_code x) };

    ghost accepts = { λ x. accepted (the_code x) };

    ghost decoded = { λ x. decoded_word (the_code x) };

    ghost holds = { λ x. SomeCodeword (of_code (the_code x)) };

    ghost count = { count_of };

    ghost told = { λ x y found. found.tried ≡ tried (the_code x) y };

    ghost accepted_exactly = { code_accepted };

    ghost one_to_one = { code_one_to_one };

    ghost message_passes = { code_message_passes };

    ghost codeword_passes = { code_passes };

    ghost always = { code_always };

    ghost decides = { code_decides };

    ghost keeps_written = { code_keeps };

    fn word_len(&self) -> usize {
        self.n
    }

    fn message_len(&self) -> usize {
        self.n
    }

    fn level_count(&self) -> usize {
        self.q
    }

    fn is_accepted(&self) -> bool {
        acceptance::is_accepted(self)
    }

    fn message_fits(&self, message: &[u8]) -> bool {
        code_operations::symbols_fit(self.parameters(), message)
    }

    fn store_codeword(&self, message: &[u8], out: &mut [u8]) {
        code_operations::store_codeword(self, message, out);
    }

    fn search(&self, word: &[u8], out: &mut [u8]) -> Result<Decoded, Refusal> {
        code_decoding::decode(self, word, out)
    }

    fn is_codeword(&self, word: &[u8]) -> bool {
        code_operations::is_codeword(self, word)
    }

    fn store_message(&self, word: &[u8], out: &mut [u8]) {
        code_operations::store_message(self, word, out);
    }
}

// Test a code.
#[tactic(auto, unfolding(definitions::specs::CodeOperations::test_code))]
pub fn test(body: &[u8]) -> Result<(), Refusal>
    ensures answer { answer_of result ≡ test_code body.now }
    ensures accepted { WhereCodeOpens body.now (λ p. Tested (Accepted p) (answer_of result)) }
{
    let opened = Code::open(body);
    let Ok(code) = opened else {
        return Err(opened.unwrap_err());
    };
    code.test()
}

// Encode a message.
#[tactic(auto, unfolding(definitions::specs::CodeOperations::encode_code, crate::specs::Shared::encoding_by))]
pub fn encode(body: &[u8], message: &[u8], out: &mut [u8]) -> Result<(), Refusal>
    ensures result { leaves (answer_of result) out.new ≡ encode_code body.now message.now out.old }
    ensures one_codeword { WhereWritable body.now message.now out.old
        (λ p. OneCodeword (of_code p) message.now (answer_of result) out.new) }
{
    let opened = Code::open(body);
    let Ok(code) = opened else {
        return Err(opened.unwrap_err());
    };
    code.encode(message, out)
}

// Decode a received word.
#[tactic(auto, unfolding(definitions::specs::CodeOperations::decode_code, crate::specs::Shared::decoding_by))]
pub fn decode(body: &[u8], received: &[u8], out: &mut [u8]) -> Result<Decoded, Refusal>
    ensures result { leaves (answer_with count_of result) out.new ≡ decode_code body.now received.now out.old }
    ensures tried { answer_with tried_of result ≡ tried_code body.now received.now out.old }
    ensures tried_is_place { TriedIsPlace (code_of body.now) received.now (answer_with tried_of result) out.new }
    ensures distance_decides { WhereCodeAccepted body.now received.now out.old
        (λ p. DistanceDecides (of_code p) received.now (answer_with count_of result) out.new) }
    ensures some_codeword { WhereCodeReads body.now received.now out.old
        (λ p. SomeCodeword (of_code p) received.now (answer_with count_of result) out.new) }
    ensures keeps_messages { WhereCodeAccepted body.now received.now out.old
        (λ p. KeepsMessages (of_code p) received.now (answer_with count_of result) out.new) }
{
    let opened = Code::open(body);
    let Ok(code) = opened else {
        return Err(opened.unwrap_err());
    };
    code.decode(received, out)
}

// Recover a message.
#[tactic(auto, unfolding(definitions::specs::CodeOperations::recover_code, crate::specs::Shared::recovering_by))]
pub fn recover(body: &[u8], word: &[u8], out: &mut [u8]) -> Result<(), Refusal>
    ensures result { leaves (answer_of result) out.new ≡ recover_code body.now word.now out.old }
    ensures recovered { WhereCodeword body.now word.now out.old
        (λ p. Recovered (of_code p) word.now (answer_of result) out.new) }
{
    let opened = Code::open(body);
    let Ok(code) = opened else {
        return Err(opened.unwrap_err());
    };
    code.recover(word, out)
}
