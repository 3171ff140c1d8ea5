// A row entry for other languages: the answer of reading it as numbers, and the cells that its output row needs.
// An opening is taken apart by `let .. else`, not by `?`: a rule of this project.
#![tactic(auto)]

ghost use Rattle.std.specs.Prelude.{◌≡◌};
ghost use Rattle.definitions.specs.Sizes.{row_cells};
ghost use Rattle.answers.specs.Answering.{answer_of, answer_with};
ghost use Rattle.row_reading.specs.Records.{record_as};
ghost use Rattle.row_numbers.specs.RowNumbers.{RowNumbered};

use answers::Refusal;
use numbered_answers::Reading;
use row_reading::{Record, Row};

// A plain refusal's number, all else 0; or 0 with the record: its entry, and a count or a refusal with its plane.
#[repr(C)]
#[derive(Clone, Copy)]
pub struct RowNumbers {
    pub number: usize,
    pub entry: usize,
    pub refusal: usize,
    pub count: usize,
    pub plane: usize,
}

impl From<Result<Record, Refusal>> for RowNumbers {
    fn from(answer: Result<Record, Refusal>) -> RowNumbers
        ensures { RowNumbered (answer_with record_as answer) result }
    {
        match answer {
            Ok(record) => {
                let outcome = Reading::from(record.outcome);
                RowNumbers {
                    number: 0,
                    entry: record.entry,
                    refusal: outcome.number,
                    count: outcome.count,
                    plane: outcome.plane,
                }
            }
            Err(why) => RowNumbers {
                number: why.number(),
                entry: 0,
                refusal: 0,
                count: 0,
                plane: 0,
            },
        }
    }
}

// The cells of the plan or stack that a row entry refers to.
#[tactic(auto, unfolding(definitions::specs::Sizes::row_cells))]
pub fn row_cells(image: &[u8], entry: usize) -> Result<usize, Refusal>
    ensures { answer_of result ≡ row_cells image.now entry }
{
    let opened = Row::open(image, entry);
    let Ok(row) = opened else {
        return Err(opened.unwrap_err());
    };
    Ok(row.cells())
}
