// The operations on stacks.

ghost use Rattle.std.specs.Prelude.{◌≡◌, length};
ghost use Rattle.definitions.specs.Stacks.{levels};
ghost use Rattle.definitions.specs.StackCodewords.{is_stack_codeword, StackCodeword, AcceptedStack, accepted_stack};
ghost use Rattle.definitions.specs.StackMessages.{message_length, StackMessage, digits_fit};
ghost use Rattle.definitions.specs.StackDecoding.{decode_word};
ghost use Rattle.definitions.specs.StackOperations.{test_stack, encode_stack, decode_stack, recover_stack};
ghost use Rattle.definitions.specs.Demands.{of_stack, Tested, OneCodeword, Recovered, DistanceDecides, GivenWithinReach, KeepsMessages};
ghost use Rattle.answers.specs.Answering.{answer_of, leaves};
ghost use Rattle.stack_opening.specs.Viewed.{stack as the_stack};
ghost use Rattle.codec.specs.StackClauses.{WhereStackOpens, WhereStackReads, WhereStackAccepted};
ghost use Rattle.codec.specs.StackLaws.{stack_accepted, stack_one_to_one, stack_message_passes, stack_passes, stack_always, stack_decides, stack_keeps};

use crate::Codec;
use answers::Refusal;
use stack_opening::Stack;

impl<'a> Codec for Stack<'a> {
    type Found = usize;

    ghost coding = { λ x. of_stack (the_stack x) };

    ghost cells = { λ x. x.n };

    ghost symbols = { λ x. message_length (the_stack x).planes };

    ghost levels = { λ x. levels (the_stack x) };

    ghost passes = { λ x. is_stack_codeword (the_stack x) };

    ghost fits = { λ x. digits_fit (the_stack x).planes };

    ghost accepted = { λ x. AcceptedStack (the_stack x) };

    ghost accepts = { λ x. accepted_stack (the_stack x) };

    ghost decoded = { λ x. decode_word (the_stack x) };

    ghost holds = { λ x. GivenWithinReach (of_stack (the_stack x)) };

    ghost count = { λ k. k };

    ghost told = { λ x y k. Unit {0} };

    ghost accepted_exactly = { stack_accepted };

    ghost one_to_one = { stack_one_to_one };

    ghost message_passes = { stack_message_passes };

    ghost codeword_passes = { stack_passes };

    ghost always = { stack_always };

    ghost decides = { stack_decides };

    ghost keeps_written = { stack_keeps };

    fn word_len(&self) -> usize {
        self.n
    }

    fn message_len(&self) -> usize {
        self.symbols
    }

    fn level_count(&self) -> usize {
        self.q
    }

    fn is_accepted(&self) -> bool {
        stack_operations::is_accepted(self)
    }

    fn message_fits(&self, message: &[u8]) -> bool {
        stack_operations::digits_fit(self, message)
    }

    fn store_codeword(&self, message: &[u8], out: &mut [u8]) {
        stack_operations::store_codeword(self, message, out);
    }

    fn search(&self, word: &[u8], out: &mut [u8]) -> Result<usize, Refusal> {
        stack_decoding::decode(self, word, out)
    }

    fn is_codeword(&self, word: &[u8]) -> bool {
        stack_operations::is_codeword(self, word)
    }

    fn store_message(&self, word: &[u8], out: &mut [u8]) {
        stack_operations::store_message(self, word, out);
    }
}

// Test a stack.
#[tactic(auto, unfolding(definitions::specs::StackOperations::test_stack))]
pub fn test_stack(body: &[u8]) -> Result<(), Refusal>
    ensures answer { answer_of result ≡ test_stack body.now }
    ensures accepted { WhereStackOpens body.now (λ S. Tested (AcceptedStack S) (answer_of result)) }
{
    let opened = Stack::open(body);
    let Ok(stack) = opened else {
        return Err(opened.unwrap_err());
    };
    stack.test()
}

// Encode a message, for a stack.
#[tactic(auto, unfolding(definitions::specs::StackOperations::encode_stack, crate::specs::Shared::encoding_by))]
pub fn encode_stack(body: &[u8], message: &[u8], out: &mut [u8]) -> Result<(), Refusal>
    ensures result { leaves (answer_of result) out.new ≡ encode_stack body.now message.now out.old }
    ensures one_codeword { WhereStackOpens body.now (λ S. StackMessage S message.now
        → length out.old ≡ S.n → OneCodeword (of_stack S) message.now (answer_of result) out.new) }
{
    let opened = Stack::open(body);
    let Ok(stack) = opened else {
        return Err(opened.unwrap_err());
    };
    stack.encode(message, out)
}

// Decode a stack's received word.
#[tactic(auto, unfolding(definitions::specs::StackOperations::decode_stack, crate::specs::Shared::decoding_by))]
pub fn decode_stack(body: &[u8], received: &[u8], out: &mut [u8]) -> Result<usize, Refusal>
    ensures result { leaves (answer_of result) out.new ≡ decode_stack body.now received.now out.old }
    ensures distance_decides { WhereStackAccepted body.now received.now out.old
        (λ S. DistanceDecides (of_stack S) received.now (answer_of result) out.new) }
    ensures within_reach { WhereStackReads body.now received.now out.old
        (λ S. GivenWithinReach (of_stack S) received.now (answer_of result) out.new) }
    ensures keeps_messages { WhereStackAccepted body.now received.now out.old
        (λ S. KeepsMessages (of_stack S) received.now (answer_of result) out.new) }
{
    let opened = Stack::open(body);
    let Ok(stack) = opened else {
        return Err(opened.unwrap_err());
    };
    stack.decode(received, out)
}

// Recover a message, for a stack.
#[tactic(auto, unfolding(definitions::specs::StackOperations::recover_stack, crate::specs::Shared::recovering_by))]
pub fn recover_stack(body: &[u8], word: &[u8], out: &mut [u8]) -> Result<(), Refusal>
    ensures result { leaves (answer_of result) out.new ≡ recover_stack body.now word.now out.old }
    ensures recovered { WhereStackOpens body.now (λ S. StackCodeword S word.now
        → length out.old ≡ message_length S.planes → Recovered (of_stack S) word.now (answer_of result) out.new) }
{
    let opened = Stack::open(body);
    let Ok(stack) = opened else {
        return Err(opened.unwrap_err());
    };
    stack.recover(word, out)
}
