// The operations on stacks.
use crate::fields::Call;
use crate::printing::{Answer, Given};

// The answer, if the name is one of these operations'.
pub fn run(call: &Call, out: &mut [u8]) -> Option<Answer> {
    Some(match call.name {
        b"test_stack" => Answer::tested(codec::test_stack(call.body)),
        b"encode_stack" => Answer::written(codec::encode_stack(call.body, call.input, out)),
        b"decode_stack" => Answer::WithOutput(codec::decode_stack(call.body, call.input, out).map(
            Given::Count,
        )),
        b"recover_stack" => Answer::written(codec::recover_stack(call.body, call.input, out)),
        b"stack_cells" => Answer::size(sizes::stack_cells(call.body)),
        b"stack_symbols" => Answer::size(sizes::stack_symbols(call.body)),
        _ => return None,
    })
}
