// The lines of cartlist, written into a buffer one behind the other.
#![tactic(auto)]

use answers::{Outcome, Refusal};

// A lent buffer with the place up to which it is written. How much room is left stands in each clause, since each asks for another number.
#[derive(Drop)]
pub struct Lines<'a> {
    pub out: &'a mut [u8],
    pub place: usize,
}

impl<'a> Lines<'a> {
    ghost use Rattle.std.specs.Prelude.{[], ◌∷◌, ◌++◌, ◌+◌, ◌*◌, ◌<◌, length};
    ghost use Rattle.definitions.specs.Words.{EachCell};
    ghost use Rattle.definitions.specs.CartridgeLists.{refused_text, count_text, levels_text, decimal, newline, spaced, outcome_text, row_line, image_line};
    ghost use Rattle.answers.specs.Answering.{refusal_number, outcome_as, leaves};
    ghost use Rattle.row_lines.specs.Writing.{Adds, Room, Printable};

    fn text(&mut self, text: &[u8])
        requires { Room self.old (length text.now) }
        ensures { Adds self.old text.now self.new }
    {
        let end = self.place + text.len();
        self.out[self.place..end].copy_from_slice(text);
        self.place = end;
    }

    fn byte(&mut self, b: u8)
        requires { Room self.old 1 }
        ensures { Adds self.old (b ∷ []) self.new }
    {
        self.out[self.place] = b;
        self.place += 1;
    }

    // Each line ends with it.
    fn end(&mut self)
        requires { Room self.old 1 }
        ensures { Adds self.old newline self.new }
    {
        self.byte(b'\n');
    }

    // A number below 100 in decimal, byte by byte: a copy of one or two bytes costs more. The bound stays a clause, here and below: a type for it
    // would be longer.
    #[tactic(auto, using(crate::proofs::Decimals::decimal_is, crate::proofs::Decimals::short))]
    fn decimal(&mut self, n: usize)
        requires small { n < 100 }
        requires room { Room self.old 2 }
        ensures { Adds self.old (decimal n) self.new }
    {
        let mut buffer = itoa::Buffer::new();
        for digit in buffer.format(n).as_bytes() {
            self.byte(*digit);
        }
    }

    // A space and a number.
    fn spaced(&mut self, n: usize)
        requires small { n < 100 }
        requires room { Room self.old 3 }
        ensures { Adds self.old (32 ∷ decimal n) self.new }
    {
        self.byte(b' ');
        self.decimal(n);
    }

    // Each level after a space.
    fn levels(&mut self, levels: &[u8])
        requires small { EachCell (λ v. v < 100) levels.now }
        requires room { Room self.old (3 * length levels.now) }
        ensures { Adds self.old (spaced levels.now) self.new }
    {
        for level in levels {
            self.spaced(usize::from(*level));
        }
    }

    // A refusal, without its plane.
    fn refusal(&mut self, why: Refusal)
        requires { Room self.old 11 }
        ensures { Adds self.old (refused_text ++ decimal (refusal_number why)) self.new }
    {
        self.text(b" refused ");
        self.decimal(why.number());
    }

    fn count(&mut self, count: usize, levels: &[u8])
        requires small { (count < 100) × EachCell (λ v. v < 100) levels.now }
        requires room { Room self.old (16 + 3 * length levels.now) }
        ensures { Adds self.old (count_text ++ decimal count ++ levels_text ++ spaced levels.now) self.new }
    {
        self.text(b" count ");
        self.decimal(count);
        self.text(b" levels");
        self.levels(levels);
    }

    fn outcome(&mut self, outcome: Outcome, levels: &[u8])
        requires small { Printable (outcome_as outcome) levels.now }
        requires room { Room self.old 208 }
        ensures { Adds self.old (outcome_text (outcome_as outcome) levels.now) self.new }
    {
        match outcome {
            Outcome::Count(count) => self.count(count, levels),
            Outcome::Refused(why) => self.refusal(why),
        }
    }

    // The line of a row: its entry, what reading it answered, and the levels that it gave back.
    pub fn row(&mut self, entry: usize, outcome: Outcome, levels: &[u8])
        requires small { (entry < 100) × Printable (outcome_as outcome) levels.now }
        requires room { Room self.old 256 }
        ensures { Adds self.old (row_line entry (leaves (outcome_as outcome) levels.now)) self.new }
    {
        self.text(b"row ");
        self.decimal(entry);
        self.outcome(outcome, levels);
        self.end();
    }

    // The line of a refused image.
    pub fn refused_image(&mut self, why: Refusal)
        requires { Room self.old 256 }
        ensures { Adds self.old (image_line (refusal_number why)) self.new }
    {
        self.text(b"image");
        self.refusal(why);
        self.end();
    }
}
