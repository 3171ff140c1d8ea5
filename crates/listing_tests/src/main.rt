// The listing of many images: standard input has the images of samples/, each after its name, and a title and the lines of each are
// printed.
#![tactic(auto)]

ghost use Rattle.std.specs.Prelude.{◌<◌, length, IfSome};

use std::io::{self, Read};

fn list(rt: &impl Print, name: &[u8], image: &[u8]) {
    let _ = rt.write_all(name);
    let _ = rt.write_all(b":\n");
    let _ = listing::write_lines(image, &mut io::writer(rt));
}

// One sample of the input: its name, its image, and what follows.
#[derive(Drop)]
struct Named<'a> {
    name: &'a [u8],
    image: &'a [u8],
    rest: &'a [u8],
}

// The length of the name, the name, the length of the image in two bytes, low byte first, and the image. What is cut short is no sample.
fn sample<'a>(input: &'a [u8]) -> Option<Named<'a>>
    ensures { IfSome result (λ s. length s.rest.now < length input.now) }
{
    let (length, after_length) = input.split_first()?;
    let (name, after_name) = after_length.split_at_checked(usize::from(*length))?;
    let (low, after_low) = after_name.split_first()?;
    let (high, after_high) = after_low.split_first()?;
    let size = usize::from(u16::from_le_bytes([*low, *high]));
    let (image, rest) = after_high.split_at_checked(size)?;
    Some(Named { name, image, rest })
}

fn samples(rt: &impl Print, input: &[u8]) {
    let mut rest = input;
    while let Some(next) = sample(rest) {
        list(rt, next.name, next.image);
        rest = next.rest;
    }
}

// A buffer of another length is refused 8.
fn list_into_64_bytes(rt: &impl Print, image: &[u8]) {
    let _ = rt.write_all(b"into 64 bytes:\n");
    let mut lines = [0u8; 64];
    match listing::list(image, &mut lines) {
        Ok(_) => {
            let _ = rt.write_all(b"listed\n");
        }
        Err(why) => {
            let _ = rt.write_all(b"refused ");
            let _ = rt.print(why.number());
            let _ = rt.write_all(b"\n");
        }
    }
}

fn main(rt: HostRuntime) -> io::Result<()> {
    let mut input = Vec::new(rt.alloc());
    rt.reader().take(65536).read_to_end(&mut input)?;
    samples(&rt, &input);
    list_into_64_bytes(&rt, b"");
    Ok(())
}
