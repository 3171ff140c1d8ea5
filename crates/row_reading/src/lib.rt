// Reading a row entry of a cartridge image. An opening is taken apart by `let .. else`, not by `?`: a rule of this project.
#![tactic(auto)]

ghost use Rattle.std.specs.Prelude.{◌≡◌, true, false, ◌≤◌, MatchOption};
ghost use Rattle.definitions.specs.Words.{at};
ghost use Rattle.definitions.specs.CodeOperations.{decode_code};
ghost use Rattle.directory.specs.Entries.{InImage};
ghost use Rattle.definitions.specs.Images.{body_of, reference_of, is_row, decode_row, recorded, read_row};
ghost use Rattle.definitions.specs.Demands.{of_code, of_stack};
ghost use Rattle.answers.specs.Answering.{outcome_as, answer_with, leaves};

use answers::{Outcome, Refusal};
use directory::Kind;
use image::Image;

// A row's record.
#[derive(Clone, Copy, Debug, PartialEq, Eq)]
pub struct Record {
    pub entry: usize,
    pub outcome: Outcome,
}

// A row entry of an image that passed its check.
#[derive(Clone, Copy)]
pub struct Row<'a> {
    pub image: Image<'a>,
    pub number: usize,
    pub ghost row: { is_row image.bytes.now number ≡ true },
}

// Decoding by a plan, without how many patterns were tried.
fn decode_by_plan(body: &[u8], word: &[u8], out: &mut [u8]) -> Outcome
    ensures { leaves (outcome_as result) out.new ≡ decode_code body.now word.now out.old }
{
    Outcome::from(codec::decode(body, word, out).map(|decoded| decoded.count))
}

impl<'a> Row<'a> {
    ghost use Rattle.row_reading.specs.Records.{record_as};
    ghost use Rattle.row_reading.specs.Opening.{open_row, opened_as};

    // Entry k of an image, if it is a row's.
    pub fn of(image: Image<'a>, k: usize) -> Option<Row<'a>>
        ensures { MatchOption result (is_row image.entry.bytes.now k ≡ false)
            (λ row. (row.image.bytes.now ≡ image.entry.bytes.now) × (row.number ≡ k)) }
    {
        if k < 1 {
            return None;
        }
        if image.entry_count() < k {
            return None;
        }
        match Kind::of(directory::entry_at(image.bytes, k).kind) {
            Some(Kind::Row) => Some(Row { image, number: k }),
            Some(Kind::Plan | Kind::Stack) | None => None,
        }
    }

    // Entry k of an image that is checked first: 15, 16 or 2, or the row.
    pub fn open(bytes: &'a [u8], k: usize) -> Result<Row<'a>, Refusal>
        ensures { opened_as result ≡ open_row bytes.now k }
    {
        let checked = Image::check(bytes);
        let Ok(image) = checked else {
            return Err(checked.unwrap_err());
        };
        let Some(row) = Row::of(image, k) else {
            return Err(Refusal::OutOfRange);
        };
        Ok(row)
    }

    // The number of the entry that its reference names, a plan or a stack.
    fn reference(&self) -> usize
        ensures is { result ≡ reference_of self.now.image.bytes.now self.now.number }
        ensures in_image { InImage self.now.image.bytes.now result × InImage self.now.image.bytes.now self.now.number }
    {
        directory::entry_at(self.image.bytes, self.number).reference
    }

    // The cells of the plan or stack that the reference names: the first byte of its body.
    pub fn cells(&self) -> usize
        ensures { (result ≡ at (body_of self.now.image.bytes.now (reference_of self.now.image.bytes.now self.now.number)) 0)
            × (result ≤ 64) }
    {
        usize::from(directory::body(self.image.bytes, self.reference())[0])
    }

    // The row decoded by the plan or stack that its reference names.
    fn decode(&self, out: &mut [u8]) -> Outcome
        ensures { leaves (outcome_as result) out.new ≡ decode_row self.now.image.bytes.now self.now.number out.old }
    {
        let image = self.image.bytes;
        let reference = self.reference();
        let body = directory::body(image, reference);
        let word = directory::body(image, self.number);
        match Kind::of(directory::entry_at(image, reference).kind) {
            Some(Kind::Plan) => decode_by_plan(body, word, out),
            Some(Kind::Stack) => Outcome::from(codec::decode_stack(body, word, out)),
            // not in an image that passed its check
            Some(Kind::Row) => Outcome::Refused(Refusal::OutOfRange),
            None => Outcome::Refused(Refusal::OutOfRange),
        }
    }

    // Its record.
    pub fn read(&self, out: &mut [u8]) -> Record
        ensures { (record_as result, out.new)
            ≡ recorded self.now.number (decode_row self.now.image.bytes.now self.now.number out.old) }
    {
        let outcome = self.decode(out);
        Record {
            entry: self.number,
            outcome,
        }
    }
}

ghost use Rattle.row_reading.specs.Records.{record_as};
ghost use Rattle.row_reading.specs.RowClauses.{WherePlanRow, WhereStackRow, RecordDecides};

// Read a row entry: 15, 16 or 2, or the row's record.
pub fn read_row(image: &[u8], entry: usize, out: &mut [u8]) -> Result<Record, Refusal>
    ensures result { leaves (answer_with record_as result) out.new ≡ read_row image.now entry out.old }
    ensures plan_decides { WherePlanRow image.now entry out.old
        (λ p. RecordDecides (of_code p) (body_of image.now entry) entry (answer_with record_as result) out.new) }
    ensures stack_decides { WhereStackRow image.now entry out.old
        (λ S. RecordDecides (of_stack S) (body_of image.now entry) entry (answer_with record_as result) out.new) }
{
    let opened = Row::open(image, entry);
    let Ok(row) = opened else {
        return Err(opened.unwrap_err());
    };
    Ok(row.read(out))
}
