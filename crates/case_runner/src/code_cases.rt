// The operations on codes.
use crate::fields::Call;
use crate::printing::{Answer, Given};

// The answer, if the name is one of these operations'.
pub fn run(call: &Call, out: &mut [u8]) -> Option<Answer> {
    Some(match call.name {
        b"test" => Answer::tested(codec::test(call.body)),
        b"encode" => Answer::written(codec::encode(call.body, call.input, out)),
        b"decode" => Answer::WithOutput(codec::decode(call.body, call.input, out).map(
            Given::Decoded,
        )),
        b"recover" => Answer::written(codec::recover(call.body, call.input, out)),
        b"code_cells" => Answer::size(sizes::code_cells(call.body)),
        _ => return None,
    })
}
