// The keys of listed syndromes: a syndrome's 16 entries are the bytes of one number.
ghost use Rattle.std.specs.Prelude.{◌≡◌};
ghost use Rattle.acceptance.specs.Keys.{key_of};

use arrayvec::ArrayVec;

// At most as many keys as an opened code has patterns.
pub type Keys = ArrayVec<u128, 4096>;

pub fn key_of(s: &[u8; 16]) -> u128
    ensures { result ≡ key_of s.now }
{
    u128::from_le_bytes(*s)
}
