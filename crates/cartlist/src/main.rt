// The program cartlist: an image on standard input, a line for each row entry on standard output.
#![tactic(auto)]

ghost use Rattle.std.specs.Prelude.{◌≤◌, length, IfOk};

use std::io::{self, Read};

// Reads until the input ends or the buffer is full, however small the pieces; how many bytes were read. The buffer is of one fixed length,
// so that the program asks for no memory; how much a read gives is not known before it, so that no range counts the turns.
fn read_image<R: Read>(reader: &mut R, input: &mut [u8]) -> io::Result<usize>
    ensures { IfOk result (λ n. n ≤ length input.new) }
{
    let mut n = 0;
    while n < input.len() {
        let more = reader.read(&mut input[n..])?;
        if more == 0 {
            return Ok(n);
        }
        n += more;
    }
    Ok(n)
}

// The buffer has 65,536 bytes, one more than an image, so that longer input is refused. A read that fails, and an output that is
// closed, end the program without a word.
fn main(rt: HostRuntime) -> io::Result<()> {
    let mut input = [0u8; 65536];
    if let Ok(n) = read_image(&mut rt.reader(), &mut input) {
        let _ = listing::write_lines(&input[..n], &mut io::writer(&rt));
    }
    Ok(())
}
