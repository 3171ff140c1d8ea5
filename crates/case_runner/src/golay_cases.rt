// Decoding by the table of the Golay code.
use crate::fields::Call;
use crate::printing::{Answer, Given};

// The answer, if the name is this operation's. The word stands where other operations have a body, and the number of levels where they have
// their input.
pub fn run(call: &Call, out: &mut [u8]) -> Option<Answer> {
    Some(match call.name {
        b"decode_golay" => Answer::WithOutput(golay::decode(
            call.number as usize,
            call.body,
            out,
        ).map(Given::Count)),
        _ => return None,
    })
}
