// The directory of a cartridge image: its entries, and whether its contents are right.
#![tactic(auto)]

ghost use Rattle.std.specs.Prelude.{◌≡◌, ◌+◌, ◌<◌, ◌≤◌, false, length, MatchOption};
ghost use Rattle.definitions.specs.CodeOperations.{between};
ghost use Rattle.definitions.specs.Images.{sixteen_bits, entry_at, body_of, directory_end, entry_numbers, bodies_follow, contents_right};
ghost use Rattle.directory.specs.Entries.{entry_as, Sixteen, InDirectory, InImage, Counted};

// What an entry holds.
#[derive(Clone, Copy, Debug, PartialEq, Eq)]
pub enum Kind {
    Plan,
    Stack,
    Row,
}

impl Kind {
    ghost use Rattle.directory.specs.Entries.{kind_number};

    // The kind of a number; other numbers than 1 to 3 have none. An Option, not TryFrom: which refusal it is depends on who asks.
    pub fn of(number: u8) -> Option<Kind>
        ensures { MatchOption result (between 1 number 3 ≡ false) (λ kind. kind_number kind ≡ number) }
    {
        match number {
            1 => Some(Kind::Plan),
            2 => Some(Kind::Stack),
            3 => Some(Kind::Row),
            0 | 4..=255 => None,
        }
    }
}

// An entry: the number of its kind, its reference, its body's offset and length. The number, which entry_at promises,
// since an entry of an image that was not checked can have one that is no kind's.
#[derive(Clone, Copy, Debug, PartialEq, Eq)]
pub struct Entry {
    pub kind: u8,
    pub reference: usize,
    pub offset: usize,
    pub length: usize,
}

// 16 bits, low byte first.
fn sixteen_bits(image: &[u8], i: usize) -> usize
    requires { i + 1 < length image.now }
    ensures { (result ≡ sixteen_bits image.now i) × (result ≤ 65535) }
{
    usize::from(u16::from_le_bytes([image[i], image[i + 1]]))
}

// Entry k, from 1.
pub fn entry_at(image: &[u8], k: usize) -> Entry
    requires { InDirectory image.now k }
    ensures { (entry_as result ≡ entry_at image.now k) × Sixteen result }
{
    let place = 6 * k - 5;
    Entry {
        kind: image[place],
        reference: usize::from(image[place + 1]),
        offset: sixteen_bits(image, place + 2),
        length: sixteen_bits(image, place + 4),
    }
}

// The body of entry k. It asks InImage of an image and a number, not of a type: the check of an image reads entries before the image is
// known to pass.
pub fn body(image: &[u8], k: usize) -> &[u8]
    requires { InImage image.now k }
    ensures { result.now ≡ body_of image.now k }
{
    let entry = entry_at(image, k);
    &image[entry.offset..entry.offset + entry.length]
}

// Whether all n entries have a kind and their bodies follow without gaps to the image's end.
#[tactic(auto, using(crate::proofs::Contents::goes_on))]
fn bodies_follow(image: &[u8], n: usize) -> bool
    requires { Counted image.now n }
    ensures { result ≡ bodies_follow image.now (directory_end image.now) (entry_numbers image.now) }
{
    let mut place = 1 + 6 * n;
    for k in 1..=n {
        let entry = entry_at(image, k);
        if Kind::of(entry.kind).is_none() {
            return false;
        }
        if entry.offset != place {
            return false;
        }
        place += entry.length;
    }
    place == image.len()
}

// Whether the contents are right, references apart.
#[tactic(auto, unfolding(definitions::specs::Images::contents_right))]
pub fn contents_right(image: &[u8]) -> bool
    ensures { result ≡ contents_right image.now }
{
    if !(1..=65535).contains(&image.len()) {
        return false;
    }
    let n = usize::from(image[0]);
    (1..=32).contains(&n) && 1 + 6 * n <= image.len() && bodies_follow(image, n)
}
