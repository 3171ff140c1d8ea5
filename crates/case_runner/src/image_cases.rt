// The operations on images.
use crate::fields::Call;
use crate::printing::{Answer, Given};

// The answer, if the name is one of these operations'. An image stands where other operations have a body, and an entry's number where they
// have their input.
pub fn run(call: &Call, out: &mut [u8]) -> Option<Answer> {
    Some(match (call.name, call.input) {
        (b"check_image", _) => Answer::tested(image::check_image(call.body)),
        (b"read_row", [entry]) => {
            Answer::WithOutput(row_reading::read_row(call.body, usize::from(*entry), out).map(
                Given::Record,
            ))
        }
        (b"row_cells", [entry]) => Answer::size(row_numbers::row_cells(
            call.body,
            usize::from(*entry),
        )),
        (b"read_row" | b"row_cells", _) => Answer::Message("one entry is wanted"),
        _ => return None,
    })
}
