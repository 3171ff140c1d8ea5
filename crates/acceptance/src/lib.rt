// Acceptance of a code: are the syndromes of all its patterns different?
#![tactic(auto)]

mod columns;
mod different;
mod keys;
mod listing;

ghost use Rattle.std.specs.Prelude.{◌≡◌};
ghost use Rattle.definitions.specs.Acceptance.{accepted};
ghost use Rattle.opening.specs.Viewed.{code as the_code};

use columns::Columns;
use keys::Keys;
use opening::Code;

// Whether no two different patterns have one syndrome. Not inlined: room for its arrays is then made at its entry, and not behind a caller's
// refusals, where the compiler's probe of the stack overwrote a register in use.
#[inline(never)]
pub fn is_accepted(code: &Code) -> bool
    ensures { result ≡ accepted (the_code code.now) }
{
    let mut listed = Keys::new();
    listing::list_patterns(&Columns::of(code), &mut listed);
    different::all_different(&listed)
}
