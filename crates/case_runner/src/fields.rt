// The parts of a case, and the numbers in them.
ghost use Rattle.std.specs.Prelude.{◌≤◌, length};

use arrayvec::ArrayVec;

// An operation's word, its body and input, and the length of the output, modulo 65,536.
#[derive(Clone, Copy)]
pub struct Case<'a> {
    pub name: &'a [u8],
    pub body: &'a [u8],
    pub input: &'a [u8],
    pub length: u16,
}

impl<'a> Case<'a> {
    pub fn new(line: &'a [u8]) -> Case<'a> {
        let (name, fields) = split_once(line, b' ');
        let (body, others) = split_once(fields, b'/');
        let (second, third) = split_once(others, b'/');
        // the last field is the output's length
        let (input, output) = if third.is_empty() {
            (third, second)
        } else {
            (second, third)
        };
        Case {
            name,
            body,
            input,
            length: (number(output) % 65536) as u16,
        }
    }
}

// What an operation is handed of a case: its word, the body and the input as bytes, and the input as one number. Each has a lifetime of
// its own, since the check covers no reference at an intersection of lifetimes.
#[derive(Clone, Copy)]
pub struct Call<'n, 'b, 'i> {
    pub name: &'n [u8],
    pub body: &'b [u8],
    pub input: &'i [u8],
    pub number: u64,
}

// What stands before the first mark, and what stands behind it; all and nothing where there is none.
fn split_once(s: &[u8], mark: u8) -> (&[u8], &[u8]) {
    let mut parts = s.splitn(2, |b| *b == mark);
    (parts.next().unwrap_or(&[]), parts.next().unwrap_or(&[]))
}

// The number that a field's digits spell; other bytes are passed over, and so are digits for which 64 bits may have no room: `parse` would
// refuse both.
pub fn number(field: &[u8]) -> u64 {
    let mut number = 0;
    for b in field {
        if b.is_ascii_digit() && number <= (u64::MAX - 9) / 10 {
            number = number * 10 + u64::from(*b - b'0');
        }
    }
    number
}

// The same modulo 256, as a byte.
fn byte(word: &[u8]) -> u8 {
    (number(word) % 256) as u8
}

// The bytes between a field's spaces, `most` of them at most, and no more than 1,024. They stand in an ArrayVec, so that a case asks for no memory.
pub fn bytes(field: &[u8], most: usize) -> ArrayVec<u8, 1024>
    ensures within { length result.items ≤ most }
{
    let mut bytes = ArrayVec::new();
    for word in field.split(|b| *b == b' ') {
        if !word.is_empty() && bytes.len() < most {
            let _ = bytes.try_push(byte(word));
        }
    }
    bytes
}
