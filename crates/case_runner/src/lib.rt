// Runs cases of the library's operations, for test programs: a case to a line, and a line of answer for each.
//
//     decode 5 4 8 2 1 2  1 1 1 1 / 4 5 3 2 1 / 5
//
// is the operation's word, what it takes (body, input), and last the length of the output, which holds 9s before the
// call. The input of message_of_number and of decode_golay is one number. The answer is followed by what the output holds
// after the call: `count 2: 3 5 3 1 1`. A line that is empty or starts with # is printed as it is.
#![tactic(auto)]

use crate::fields::{Call, Case};
use crate::printing::{Answer, Buffer, Shown};

mod code_cases;
mod fields;
mod golay_cases;
mod image_cases;
mod label_cases;
mod number_cases;
mod packing_cases;
mod printing;
mod stack_cases;

// The answer of the operation that has the case's name, by a match on it, which is plainer than a table of functions; an output is stored
// in `out`.
fn answer(case: &Case, out: &mut [u8]) -> Answer {
    let body = fields::bytes(case.body, 1024);
    let input = fields::bytes(case.input, 512);
    let call = Call {
        name: case.name,
        body: &body,
        input: &input,
        number: fields::number(case.input),
    };
    code_cases::run(&call, out)
        .or_else(|| golay_cases::run(&call, out))
        .or_else(|| stack_cases::run(&call, out))
        .or_else(|| label_cases::run(&call, out))
        .or_else(|| packing_cases::run(&call, out))
        .or_else(|| number_cases::run(&call, out))
        .or_else(|| image_cases::run(&call, out))
        .unwrap_or(Answer::Message("no operation of that name"))
}

// What cannot be printed is passed over.
fn run_case(rt: &impl Print, case: &Case) {
    let mut cells = [9u8; 512];
    let Some(out) = cells.get_mut(..usize::from(case.length)) else {
        let _ = rt.println("output too long");
        return;
    };
    let _ = match answer(case, out) {
        Answer::Alone(given) => println!(rt; "{}", Shown(given)),
        Answer::WithOutput(given) => println!(rt; "{}{}", Shown(given), Buffer(out)),
        Answer::Message(why) => rt.println(why),
    };
}

// Runs the cases of a text, each on a line of its own, and prints the answer of each.
pub fn run(rt: &impl Print, text: &[u8]) {
    for line in text.split_inclusive(|b| *b == b'\n') {
        let line = line.strip_suffix(b"\n").unwrap_or(line);
        if line.is_empty() || line.starts_with(b"#") {
            let _ = rt.write_all(line);
            let _ = rt.println("");
        } else {
            run_case(rt, &Case::new(line));
        }
    }
}
