// What the operations answer, once for all of them: a `Result` with the refusal as its error. And the test of their buffers.
#![tactic(auto)]

ghost use Rattle.std.specs.Prelude.{◌≡◌, ◌&&◌, eqb, Result, Some};

use std::error::Error;
use std::fmt;

// Why an operation declines. `number` has the numbers, `Display` the words.
#[derive(Clone, Copy, Debug, PartialEq, Eq)]
pub enum Refusal {
    // 1: a body too short for its fields
    TooShort,
    // 2: a field, length, kind or entry out of range
    OutOfRange,
    // 3: a body of another length than its fields ask
    WrongLength,
    // 4: an entry of the matrix of M or more
    EntryTooLarge,
    // 5: more than 4,096 patterns
    TooManyPatterns,
    // 6: not accepted: two patterns share a syndrome
    NotAccepted,
    // 7: a stack of more than 64 levels
    TooManyLevels,
    // 8: a buffer not of its exact length
    WrongBuffer,
    // 9: a symbol too large
    SymbolTooLarge,
    // 10: a level, or a state, of q or more
    LevelTooLarge,
    // 11, of a code: no codeword within reach
    NoCodewordInReach,
    // 11, of a stack, with the plane, from 0: in which no pattern has the syndrome
    NoPatternInPlane(usize),
    // 12: not a codeword
    NotACodeword,
    // 13: a label table that is no permutation
    NotAPermutation,
    // 14: q or floor(q/M) is no power of two
    NotAPowerOfTwo,
    // 15: an image whose contents are wrong
    WrongContents,
    // 16: a body refused by its test, or a reference
    WrongBody,
    // 17: more than 2^63 messages
    TooManyMessages,
    // 18: a number that no message has
    NumberTooLarge,
    // 19: a leftover bit of the last byte is set
    LeftoverBitSet,
}

impl Refusal {
    ghost use Rattle.answers.specs.Answering.{refusal_number, refusal_plane};

    // Its number: a match, since two refusals share 11.
    pub fn number(self) -> usize
        ensures { result ≡ refusal_number self }
    {
        match self {
            Refusal::TooShort => 1,
            Refusal::OutOfRange => 2,
            Refusal::WrongLength => 3,
            Refusal::EntryTooLarge => 4,
            Refusal::TooManyPatterns => 5,
            Refusal::NotAccepted => 6,
            Refusal::TooManyLevels => 7,
            Refusal::WrongBuffer => 8,
            Refusal::SymbolTooLarge => 9,
            Refusal::LevelTooLarge => 10,
            Refusal::NoCodewordInReach | Refusal::NoPatternInPlane(_) => 11,
            Refusal::NotACodeword => 12,
            Refusal::NotAPermutation => 13,
            Refusal::NotAPowerOfTwo => 14,
            Refusal::WrongContents => 15,
            Refusal::WrongBody => 16,
            Refusal::TooManyMessages => 17,
            Refusal::NumberTooLarge => 18,
            Refusal::LeftoverBitSet => 19,
        }
    }

    // The plane that a stack's 11 adds.
    pub fn plane(self) -> Option<usize>
        ensures { result ≡ refusal_plane self }
    {
        match self {
            Refusal::NoPatternInPlane(j) => Some(j),
            _ => None,
        }
    }
}

// By hand: what the kit's thiserror derives promises nothing of the words.
impl fmt::Display for Refusal {
    ghost use Rattle.answers.specs.Answering.{refusal_words};
    ghost use Rattle.std.specs.Prelude.{Some};

    ghost output = { λ x. Some (refusal_words x) };

    fn fmt<W: fmt::Write>(&self, f: &mut fmt::Formatter<W>) -> fmt::Result {
        match self {
            Refusal::TooShort => write!(f, "a body too short for its fields"),
            Refusal::OutOfRange => write!(f, "a field, length, kind or entry out of range"),
            Refusal::WrongLength => write!(f, "a body of another length than its fields ask"),
            Refusal::EntryTooLarge => write!(f, "an entry of the matrix of M or more"),
            Refusal::TooManyPatterns => write!(f, "more than 4,096 patterns"),
            Refusal::NotAccepted => write!(f, "not accepted: two patterns share a syndrome"),
            Refusal::TooManyLevels => write!(f, "a stack of more than 64 levels"),
            Refusal::WrongBuffer => write!(f, "a buffer not of its exact length"),
            Refusal::SymbolTooLarge => write!(f, "a symbol too large"),
            Refusal::LevelTooLarge => write!(f, "a level, or a state, of q or more"),
            Refusal::NoCodewordInReach => write!(f, "no codeword within reach"),
            Refusal::NoPatternInPlane(j) => {
                write!(f, "no codeword within reach: no pattern in plane {j}")
            }
            Refusal::NotACodeword => write!(f, "not a codeword"),
            Refusal::NotAPermutation => write!(f, "a label table that is no permutation"),
            Refusal::NotAPowerOfTwo => write!(f, "q or floor(q/M) is no power of two"),
            Refusal::WrongContents => write!(f, "an image whose contents are wrong"),
            Refusal::WrongBody => write!(f, "a body refused by its test, or a reference"),
            Refusal::TooManyMessages => write!(f, "more than 2^63 messages"),
            Refusal::NumberTooLarge => write!(f, "a number that no message has"),
            Refusal::LeftoverBitSet => write!(f, "a leftover bit of the last byte is set"),
        }
    }
}

impl Error for Refusal {}

// What a row's record holds: a count or a refusal. An enum of its own, not a Result: it is what was found, and no call failed.
#[derive(Clone, Copy, Debug, PartialEq, Eq)]
pub enum Outcome {
    Count(usize),
    Refused(Refusal),
}

impl From<Result<usize, Refusal>> for Outcome {
    ghost use Rattle.answers.specs.Answering.{answer_of, outcome_as};

    fn from(answer: Result<usize, Refusal>) -> Outcome
        ensures { outcome_as result ≡ answer_of answer }
    {
        match answer {
            Ok(count) => Outcome::Count(count),
            Err(why) => Outcome::Refused(why),
        }
    }
}

// Whether an operation's input and output have the lengths that are read and written.
pub fn buffers_fit(input: usize, read: usize, output: usize, written: usize) -> bool
    ensures { result ≡ (eqb input read && eqb output written) }
{
    input == read && output == written
}
