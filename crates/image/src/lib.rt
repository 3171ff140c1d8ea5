// Checking a cartridge image: its contents, then each entry's body and reference. An image that passed its check is one value.
#![tactic(auto)]

ghost use Rattle.std.specs.Prelude.{◌≡◌, true, ◌≤◌, IfOk};
ghost use Rattle.definitions.specs.Words.{at};
ghost use Rattle.definitions.specs.Answers.{given};
ghost use Rattle.definitions.specs.Images.{reference_right, entry_right, entries_right, entry_numbers, contents_right, check_image};
ghost use Rattle.answers.specs.Answering.{answer_of};
ghost use Rattle.directory.specs.Entries.{InImage};

use answers::Refusal;
use directory::Kind;

// An image that passed its check.
#[derive(Clone, Copy)]
pub struct Image<'a> {
    pub bytes: &'a [u8],
    pub ghost checked: { check_image bytes.now ≡ given tt },
}

impl<'a> Image<'a> {
    ghost use Rattle.image.specs.Passed.{checked_as};

    // Check an image: 15 and 16.
    pub fn check(bytes: &'a [u8]) -> Result<Image<'a>, Refusal>
        ensures answer { checked_as result ≡ check_image bytes.now }
        ensures same { IfOk result (λ x. x.bytes.now ≡ bytes.now) }
    {
        check_image(bytes)?;
        Ok(Image { bytes })
    }

    // How many entries it has.
    pub fn entry_count(&self) -> usize
        ensures { (result ≡ at self.now.bytes.now 0) × (result ≤ 32) }
    {
        usize::from(self.bytes[0])
    }
}

// Whether entry k, a row, has the number of an earlier plan or stack as its reference.
fn row_right(image: &[u8], k: usize) -> bool
    requires { InImage image.now k }
    ensures { result ≡ reference_right image.now k }
{
    let reference = directory::entry_at(image, k).reference;
    if reference < 1 {
        return false;
    }
    if k <= reference {
        return false;
    }
    match Kind::of(directory::entry_at(image, reference).kind) {
        Some(Kind::Plan | Kind::Stack) => true,
        Some(Kind::Row) | None => false,
    }
}

// Whether entry k is right: a plan or a stack has the reference 0 and a body that passes its test, a row an earlier one of these.
fn entry_right(image: &[u8], k: usize) -> bool
    requires { InImage image.now k }
    ensures { result ≡ entry_right image.now k }
{
    let entry = directory::entry_at(image, k);
    match Kind::of(entry.kind) {
        Some(Kind::Plan) => {
            entry.reference == 0 && codec::test(directory::body(image, k)).is_ok()
        }
        Some(Kind::Stack) => {
            entry.reference == 0 && codec::test_stack(directory::body(image, k)).is_ok()
        }
        Some(Kind::Row) => row_right(image, k),
        None => false,
    }
}

// Whether no entry has a body that its test refuses or a wrong reference.
fn entries_right(image: &[u8]) -> bool
    requires { contents_right image.now ≡ true }
    ensures { result ≡ entries_right image.now (entry_numbers image.now) }
{
    for k in 1..=usize::from(image[0]) {
        if !entry_right(image, k) {
            return false;
        }
    }
    true
}

// Check an image: 15, then 16.
#[tactic(auto, unfolding(definitions::specs::Images::check_image))]
pub fn check_image(image: &[u8]) -> Result<(), Refusal>
    ensures { answer_of result ≡ check_image image.now }
{
    if !directory::contents_right(image) {
        return Err(Refusal::WrongContents);
    }
    if !entries_right(image) {
        return Err(Refusal::WrongBody);
    }
    Ok(())
}
