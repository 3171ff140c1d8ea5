// The operations between messages and numbers.
use crate::fields::Call;
use crate::printing::{Answer, Given};

// The answer, if the name is one of these operations'. What stands between the body and the output's length is a number or a message.
pub fn run(call: &Call, out: &mut [u8]) -> Option<Answer> {
    Some(match call.name {
        b"message_of_number" => Answer::written(message_numbers::message_of_number(
            call.body,
            call.number,
            out,
        )),
        b"number_of_message" => Answer::Alone(message_numbers::number_of_message(
            call.body, call.input,
        ).map(Given::Number)),
        _ => return None,
    })
}
