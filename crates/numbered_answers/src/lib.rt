// Answers as numbers, for other languages: 0 where nothing is refused, else the refusal's number; what does not apply is 0.
#![tactic(auto)]

ghost use Rattle.std.specs.Prelude.{◌≡◌};
ghost use Rattle.answers.specs.Answering.{answer_of, answer_with, refused_as, outcome_as};
ghost use Rattle.code_decoding.specs.Counts.{count_of as decoded_count, tried_of};
ghost use Rattle.numbered_answers.specs.Numbers.{number_of, count_of, ReadNumbered, SizeNumbered, ValueNumbered};

use answers::{Outcome, Refusal};
use code_decoding::Decoded;

// A count with how many patterns were tried, or a refusal's number; the plane goes with a stack's 11.
#[repr(C)]
#[derive(Clone, Copy)]
pub struct Reading {
    pub number: usize,
    pub count: usize,
    pub tried: usize,
    pub plane: usize,
}

// A size, or a refusal's number.
#[repr(C)]
#[derive(Clone, Copy)]
pub struct Size {
    pub number: usize,
    pub size: usize,
}

// The number of a message as a value, or a refusal's number. A type beside Size: the C header has both.
#[repr(C)]
#[derive(Clone, Copy)]
pub struct Value {
    pub number: usize,
    pub value: u64,
}

// What a test answers, or an operation that writes. No From: neither type is of this crate.
pub fn number_of(answer: Result<(), Refusal>) -> usize
    ensures { result ≡ number_of (answer_of answer) }
{
    match answer {
        Ok(()) => 0,
        Err(why) => why.number(),
    }
}

impl From<Refusal> for Reading {
    fn from(why: Refusal) -> Reading
        ensures numbers { ReadNumbered (refused_as why) result }
        ensures tried { result.tried ≡ 0 }
    {
        Reading {
            number: why.number(),
            count: 0,
            tried: 0,
            plane: why.plane().unwrap_or(0),
        }
    }
}

impl From<Result<Decoded, Refusal>> for Reading {
    fn from(answer: Result<Decoded, Refusal>) -> Reading
        ensures numbers { ReadNumbered (answer_with decoded_count answer) result }
        ensures tried { result.tried ≡ count_of (answer_with tried_of answer) }
    {
        match answer {
            Ok(Decoded { count, tried }) => Reading {
                number: 0,
                count,
                tried,
                plane: 0,
            },
            Err(why) => Reading::from(why),
        }
    }
}

impl From<Outcome> for Reading {
    fn from(outcome: Outcome) -> Reading
        ensures numbers { ReadNumbered (outcome_as outcome) result }
        ensures tried { result.tried ≡ 0 }
    {
        match outcome {
            Outcome::Count(count) => Reading {
                number: 0,
                count,
                tried: 0,
                plane: 0,
            },
            Outcome::Refused(why) => Reading::from(why),
        }
    }
}

impl From<Result<usize, Refusal>> for Reading {
    fn from(answer: Result<usize, Refusal>) -> Reading
        ensures numbers { ReadNumbered (answer_of answer) result }
        ensures tried { result.tried ≡ 0 }
    {
        Reading::from(Outcome::from(answer))
    }
}

impl From<Result<usize, Refusal>> for Size {
    fn from(answer: Result<usize, Refusal>) -> Size
        ensures { SizeNumbered (answer_of answer) result }
    {
        match answer {
            Ok(size) => Size { number: 0, size },
            Err(why) => Size {
                number: why.number(),
                size: 0,
            },
        }
    }
}

impl From<Result<u64, Refusal>> for Value {
    fn from(answer: Result<u64, Refusal>) -> Value
        ensures { ValueNumbered (answer_of answer) result }
    {
        match answer {
            Ok(value) => Value { number: 0, value },
            Err(why) => Value {
                number: why.number(),
                value: 0,
            },
        }
    }
}
