// Answers as text.
use answers::{Outcome, Refusal};
use code_decoding::Decoded;
use row_reading::Record;
use std::fmt;

// What an operation gives.
#[derive(Clone, Copy)]
pub enum Given {
    Accepted,
    Written,
    Size(usize),
    Number(u64),
    Count(usize),
    Decoded(Decoded),
    Record(Record),
}

// What an operation answers. Where it has an output, that is printed too.
#[derive(Clone, Copy)]
pub enum Answer {
    Alone(Result<Given, Refusal>),
    WithOutput(Result<Given, Refusal>),
    // no operation takes the case: why
    Message(&'static str),
}

impl Answer {
    pub fn tested(answer: Result<(), Refusal>) -> Answer {
        Answer::Alone(answer.map(|()| Given::Accepted))
    }

    pub fn size(answer: Result<usize, Refusal>) -> Answer {
        Answer::Alone(answer.map(Given::Size))
    }

    pub fn written(answer: Result<(), Refusal>) -> Answer {
        Answer::WithOutput(answer.map(|()| Given::Written))
    }
}

impl fmt::Display for Given {
    fn fmt<W: fmt::Write>(&self, f: &mut fmt::Formatter<W>) -> fmt::Result {
        match *self {
            Given::Accepted => write!(f, "accepted"),
            Given::Written => write!(f, "written"),
            Given::Size(size) => write!(f, "size {size}"),
            Given::Number(number) => write!(f, "number {number}"),
            Given::Count(count) => write!(f, "count {count}"),
            Given::Decoded(Decoded { count, tried }) => write!(f, "count {count} tried {tried}"),
            Given::Record(Record { entry, outcome }) => match outcome {
                Outcome::Count(count) => write!(f, "entry {entry} count {count}"),
                Outcome::Refused(why) => write!(f, "entry {entry} {}", Numbered(why)),
            },
        }
    }
}

// A refusal as its number, with a stack's plane.
#[derive(Clone, Copy)]
struct Numbered(Refusal);

impl fmt::Display for Numbered {
    fn fmt<W: fmt::Write>(&self, f: &mut fmt::Formatter<W>) -> fmt::Result {
        write!(f, "refused {}", self.0.number())?;
        match self.0.plane() {
            Some(plane) => write!(f, " plane {plane}"),
            None => Ok(()),
        }
    }
}

// What is given, or the refusal.
#[derive(Clone, Copy)]
pub struct Shown(pub Result<Given, Refusal>);

impl fmt::Display for Shown {
    fn fmt<W: fmt::Write>(&self, f: &mut fmt::Formatter<W>) -> fmt::Result {
        match self.0 {
            Ok(given) => write!(f, "{given}"),
            Err(why) => write!(f, "{}", Numbered(why)),
        }
    }
}

// What an output holds.
#[derive(Clone, Copy)]
pub struct Buffer<'a>(pub &'a [u8]);

impl fmt::Display for Buffer<'_> {
    fn fmt<W: fmt::Write>(&self, f: &mut fmt::Formatter<W>) -> fmt::Result {
        write!(f, ":")?;
        for b in self.0 {
            write!(f, " {b}")?;
        }
        Ok(())
    }
}
