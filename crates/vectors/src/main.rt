// The examples of documents 000, 001 and 003 (docs/SOURCES.md). tests/expected.rs says what must be printed. A program of its own beside
// worked_examples, since each has its own input.
#![tactic(auto)]

use std::io::{self, Read};

fn main(rt: HostRuntime) -> io::Result<()> {
    let mut text = Vec::new(rt.alloc());
    rt.reader().take(65536).read_to_end(&mut text)?;
    case_runner::run(&rt, &text);
    Ok(())
}
