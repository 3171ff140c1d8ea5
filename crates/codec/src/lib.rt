// The operations of codes and stacks on bytes, each written once: a trait of what differs, whose default bodies are the operations of an
// opened description, and the exported operations, which open it. Of these there are two, since each has a definition and demands of its own.
// They write to the output buffer only after all refusals. An opening is taken apart by `let .. else`, not by `?`: a rule of this project.
#![tactic(auto)]

ghost use Rattle.std.specs.Prelude.{◌≡◌, ◌↔◌, Bool, true, List, ℕ, ◌<◌, length, IfOk};
ghost use Rattle.definitions.specs.Words.{all_below};
ghost use Rattle.definitions.specs.Answers.{Answer, result as left_by};
ghost use Rattle.definitions.specs.Demands as demands;
ghost use Rattle.definitions.specs.Demands.{OneToOne, Tested, OneCodeword, Recovered, DistanceDecides, KeepsMessages};
ghost use Rattle.answers.specs.Answering.{answer_of, answer_with, leaves};
ghost use Rattle.codec.specs.Shared.{testing_by, encoding_by, decoding_by, recovering_by, Passes, WhereReads, EachReading};

use answers::{Refusal, buffers_fit};

mod codes;
mod stacks;

pub use codes::{decode, encode, recover, test};
pub use stacks::{decode_stack, encode_stack, recover_stack, test_stack};

// An opened code or stack.
pub trait Codec {
    // codewords, what is within reach, messages, and how they correspond
    ghost coding: { Self → demands.Coding };

    // the cells of a word, the symbols of a message, the levels
    ghost cells: { Self → ℕ };

    ghost symbols: { Self → ℕ };

    ghost levels: { Self → ℕ };

    // the test of a codeword and that of a message
    ghost passes: { Self → List ℕ → Bool };

    ghost fits: { Self → List ℕ → Bool };

    // what makes a description accepted, and its test
    ghost accepted: { Self → Type 0 };

    ghost accepts: { Self → Bool };

    // what decoding gives for a word of the right length and levels: the count and the codeword
    ghost decoded: { Self → List ℕ → Answer (ℕ × List ℕ) };

    // what holds of decoding a word, of an accepted description or not
    ghost holds: { Self → List ℕ → Answer ℕ → List ℕ → Type 0 };

    // what the search finds: its count, and what else holds of it
    type Found;

    ghost count: { Self.Found → ℕ };

    ghost told: { Self → List ℕ → Self.Found → Type 0 };

    fn word_len(&self) -> usize
        ensures { result ≡ cells self.now };

    fn message_len(&self) -> usize
        ensures { result ≡ symbols self.now };

    fn level_count(&self) -> usize
        ensures { result ≡ levels self.now };

    fn is_accepted(&self) -> bool
        ensures { result ≡ accepts self.now };

    fn message_fits(&self, message: &[u8]) -> bool
        requires { length message.now ≡ symbols self.now }
        ensures { result ≡ fits self.now message.now };

    fn store_codeword(&self, message: &[u8], out: &mut [u8])
        requires fits { fits self.now message.now ≡ true }
        requires long { length message.now ≡ symbols self.now }
        requires room { length out.old ≡ cells self.now }
        ensures { out.new ≡ (coding self.now).encoded message.now };

    // long and below, here and in is_codeword, are of a word and of self, so they are no facts of one type.
    fn search(&self, word: &[u8], out: &mut [u8]) -> Result<Self::Found, Refusal>
        requires long { length word.now ≡ cells self.now }
        requires room { length out.old ≡ cells self.now }
        requires below { all_below (levels self.now) word.now ≡ true }
        ensures decoded { leaves (answer_with count result) out.new ≡ left_by (decoded self.now word.now) out.old }
        ensures told { IfOk result (λ x. told self.now word.now x) };

    fn is_codeword(&self, word: &[u8]) -> bool
        requires long { length word.now ≡ cells self.now }
        requires below { all_below (levels self.now) word.now ≡ true }
        ensures { result ≡ passes self.now word.now };

    fn store_message(&self, word: &[u8], out: &mut [u8])
        requires long { length word.now ≡ cells self.now }
        requires room { length out.old ≡ symbols self.now }
        ensures { out.new ≡ (coding self.now).carried word.now };

    // Test.
    fn test(&self) -> Result<(), Refusal>
        ensures answer { answer_of result ≡ testing_by (accepts self.now) }
        ensures accepted { Tested (accepted self.now) (answer_of result) }
    {
        if self.is_accepted() {
            Ok(())
        } else {
            Err(Refusal::NotAccepted)
        }
    }

    // Encode a message.
    #[tactic(auto, unfolding(crate::specs::Shared::encoding_by))]
    fn encode(&self, message: &[u8], out: &mut [u8]) -> Result<(), Refusal>
        ensures result { leaves (answer_of result) out.new
            ≡ encoding_by (symbols self.now) (cells self.now) (fits self.now) (coding self.now).encoded message.now out.old }
        ensures one_codeword { (coding self.now).is_message message.now → length out.old ≡ cells self.now
            → OneCodeword (coding self.now) message.now (answer_of result) out.new }
    {
        if !buffers_fit(
            message.len(),
            self.message_len(),
            out.len(),
            self.word_len(),
        ) {
            return Err(Refusal::WrongBuffer);
        }
        if !self.message_fits(message) {
            return Err(Refusal::SymbolTooLarge);
        }
        self.store_codeword(message, out);
        Ok(())
    }

    // Decode a received word.
    #[tactic(auto, using(definitions::proofs::Tests::each_below), unfolding(crate::specs::Shared::decoding_by))]
    fn decode(&self, received: &[u8], out: &mut [u8]) -> Result<Self::Found, Refusal>
        ensures result { leaves (answer_with count result) out.new
            ≡ decoding_by (cells self.now) (levels self.now) (decoded self.now) received.now out.old }
        ensures told { IfOk result (λ x. told self.now received.now x) }
        ensures distance_decides { WhereReads (cells self.now) (levels self.now) received.now out.old
            (accepted self.now → DistanceDecides (coding self.now) received.now (answer_with count result) out.new) }
        ensures always { WhereReads (cells self.now) (levels self.now) received.now out.old
            (holds self.now received.now (answer_with count result) out.new) }
        ensures keeps_messages { WhereReads (cells self.now) (levels self.now) received.now out.old
            (accepted self.now → KeepsMessages (coding self.now) received.now (answer_with count result) out.new) }
    {
        if !buffers_fit(received.len(), self.word_len(), out.len(), self.word_len()) {
            return Err(Refusal::WrongBuffer);
        }
        if !byte_helpers::all_below(self.level_count(), received) {
            return Err(Refusal::LevelTooLarge);
        }
        self.search(received, out)
    }

    // Recover a message.
    #[tactic(auto, unfolding(crate::specs::Shared::recovering_by))]
    fn recover(&self, word: &[u8], out: &mut [u8]) -> Result<(), Refusal>
        ensures result { leaves (answer_of result) out.new
            ≡ recovering_by (cells self.now) (symbols self.now) (levels self.now) (passes self.now) (coding self.now).carried word.now out.old }
        ensures recovered { (coding self.now).codeword word.now → length out.old ≡ symbols self.now
            → Recovered (coding self.now) word.now (answer_of result) out.new }
    {
        if !buffers_fit(word.len(), self.word_len(), out.len(), self.message_len()) {
            return Err(Refusal::WrongBuffer);
        }
        if !byte_helpers::all_below(self.level_count(), word) {
            return Err(Refusal::LevelTooLarge);
        }
        if !self.is_codeword(word) {
            return Err(Refusal::NotACodeword);
        }
        self.store_message(word, out);
        Ok(())
    }

    // the test passes exactly what is accepted
    ghost accepted_exactly: { (x : Self) → (accepts x ≡ true) ↔ accepted x };

    // messages and codewords correspond one to one
    ghost one_to_one: { (x : Self) → OneToOne (coding x) };

    // a message passes the tests of encoding, a codeword those of recovery
    ghost message_passes: { (x : Self) (s : List ℕ) → (coding x).is_message s → (length s ≡ symbols x) × (fits x s ≡ true) };

    ghost codeword_passes: { (x : Self) → Passes (coding x) (cells x) (levels x) (passes x) };

    // what holds of each decoding
    ghost always: { (x : Self) → EachReading (cells x) (levels x) (decoded x) (holds x) };

    // of an accepted description: the distance decides, messages are kept
    ghost decides: { (x : Self) → accepted x → EachReading (cells x) (levels x) (decoded x) (DistanceDecides (coding x)) };

    ghost keeps_written: { (x : Self) → accepted x → EachReading (cells x) (levels x) (decoded x) (KeepsMessages (coding x)) };
}
