// The operations on bytes.
use crate::fields::Call;
use crate::printing::Answer;

// The answer, if the name is one of these operations'.
pub fn run(call: &Call, out: &mut [u8]) -> Option<Answer> {
    Some(match call.name {
        b"pack" => Answer::written(packing::pack(call.body, call.input, out)),
        b"unpack" => Answer::written(packing::unpack(call.body, call.input, out)),
        b"packed_bytes" => Answer::size(packing::packed_bytes(call.body)),
        _ => return None,
    })
}
