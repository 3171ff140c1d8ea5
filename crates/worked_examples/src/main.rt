// Document 01's examples under their letters, then every operation with every refusal of its list. tests/expected.rs
// says what must be printed.
#![tactic(auto)]

use std::io::{self, Read};

fn main(rt: HostRuntime) -> io::Result<()> {
    let mut text = Vec::new(rt.alloc());
    rt.reader().take(65536).read_to_end(&mut text)?;
    case_runner::run(&rt, &text);
    Ok(())
}
