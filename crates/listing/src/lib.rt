// What cartlist prints for an image, written into a buffer. The image is checked once, and then its rows are read, however many.
#![tactic(auto)]

ghost use Rattle.std.specs.Prelude.{◌≡◌, ◌≤◌, length, IfOk, OnOk};
ghost use Rattle.std.specs.Io.KnownBytes.{Appends};
ghost use Rattle.definitions.specs.Words.{at};
ghost use Rattle.definitions.specs.Images.{entry_numbers};
ghost use Rattle.definitions.specs.CartridgeLists.{line_of, entry_line, row_lines, lines_of, list_image};
ghost use Rattle.answers.specs.Answering.{answer_of, leaves};
ghost use Rattle.row_lines.specs.Writing.{Puts, Adds, Room};
ghost use Rattle.listing.specs.Lines.{AddsLine};

use answers::Refusal;
use image::Image;
use row_lines::Lines;
use row_reading::Row;
use std::io::{self, Write};

// The line of a row, read with an output row of as many cells as it needs.
fn put_row(row: Row, lines: &mut Lines)
    requires { Room lines.old 256 }
    ensures { AddsLine lines.old (line_of row.entry.image.bytes.now row.entry.number) lines.new }
{
    let mut levels = [0u8; 64];
    let word = &mut levels[..row.cells()];
    let record = row.read(word);
    lines.row(record.entry, record.outcome, word);
}

// The line of entry k, if it is a row's.
fn put_entry(image: Image, k: usize, lines: &mut Lines)
    requires entry { (1 ≤ k) × (k ≤ at image.bytes.now 0) }
    requires room { Room lines.old 256 }
    ensures { AddsLine lines.old (entry_line image.entry.bytes.now k) lines.new }
{
    if let Some(row) = Row::of(image, k) {
        put_row(row, lines);
    }
}

// The lines of all rows.
fn put_rows(image: Image, lines: &mut Lines)
    requires { Room lines.old 8192 }
    ensures { Adds lines.old (row_lines image.entry.bytes.now (entry_numbers image.entry.bytes.now)) lines.new }
{
    for k in 1..=image.entry_count() {
        put_entry(image, k, lines);
    }
}

// The lines of an image, or the one line that says why it is refused.
fn put_lines(image: &[u8], lines: &mut Lines)
    requires { Room lines.old 8192 }
    ensures { Adds lines.old (lines_of image.now) lines.new }
{
    match Image::check(image) {
        Ok(image) => put_rows(image, lines),
        Err(why) => lines.refused_image(why),
    }
}

// The same at the start of a buffer; how many bytes they have.
fn put_first(image: &[u8], out: &mut [u8]) -> usize
    requires { length out.old ≡ 8192 }
    ensures lines { Puts out.old 0 (lines_of image.now) result out.new }
    ensures within { (result ≤ 8192) × (length out.new ≡ 8192) }
{
    let mut lines = Lines { out, place: 0 };
    put_lines(image, &mut lines);
    lines.place
}

// The lines of an image, at the start of a buffer of 8,192 bytes; the answer is how many bytes they have. A buffer of another length is
// refused 8.
#[tactic(auto, using(crate::proofs::AllLines::wrong_buffer))]
pub fn list(image: &[u8], out: &mut [u8]) -> Result<usize, Refusal>
    ensures result { leaves (answer_of result) out.new ≡ list_image image.now out.old }
    ensures within { IfOk result (λ k. (k ≤ 8192) × (k ≤ length out.new)) }
{
    if out.len() != 8192 {
        return Err(Refusal::WrongBuffer);
    }
    Ok(put_first(image, out))
}

// The same, written where a program wants it. `list` answers Ok, for the buffer has its length.
pub fn write_lines<W: Write>(image: &[u8], writer: &mut W) -> io::Result<()>
    ensures { OnOk result (Appends (W.contents writer.old) (W.contents writer.new) (lines_of image.now)) }
{
    let mut lines = [0u8; 8192];
    let length = list(image, &mut lines).unwrap();
    writer.write_all(&lines[..length])
}
