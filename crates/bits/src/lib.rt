// Powers of two, and the bits of bytes: bit k is the bit of value 2^(k mod 8) in byte floor(k/8).
#![tactic(auto)]

ghost use Rattle.std.specs.Prelude.{◌≡◌, ◌+◌, ◌*◌, ◌^◌, ◌≤◌};
ghost use Rattle.definitions.specs.Words.{at};
ghost use Rattle.definitions.specs.PowersOfTwo.{log2, is_power_of_two};
ghost use Rattle.definitions.specs.Packing.{symbol_at};

// 2 to the k.
pub fn power(k: usize) -> usize
    requires { k ≤ 16 }
    ensures { (result ≡ 2 ^ k) × (1 ≤ result) × (result ≤ 65536) }
{
    1 << k
}

// A byte moved up by k bits.
pub fn raised(v: u8, k: usize) -> usize
    requires { k ≤ 8 }
    ensures { (result ≡ v * 2 ^ k) × (result ≤ 65280) }
{
    usize::from(v) * power(k)
}

// How many powers of two are below q.
pub fn log2(q: usize) -> usize
    requires { q ≤ 256 }
    ensures { (result ≡ log2 q) × (result ≤ 8) }
{
    if q <= 1 {
        return 0;
    }
    (q - 1).ilog2() as usize + 1
}

// Whether q is a power of two.
pub fn is_power_of_two(q: usize) -> bool
    requires { q ≤ 256 }
    ensures { result ≡ is_power_of_two q }
{
    power(log2(q)) == q
}

// Byte j + 1, and 0 past the end.
fn byte_at(bytes: &[u8], j: usize) -> usize
    ensures { (result ≡ at bytes.now j) × (result ≤ 255) }
{
    usize::from(bytes.get(j).copied().unwrap_or(0))
}

// The number whose bits, lowest first, are `width` bits of the bytes from bit `bit` on. Two bytes have them all.
pub fn symbol_at(bytes: &[u8], bit: usize, width: usize) -> u8
    requires { width ≤ 8 }
    ensures { result ≡ symbol_at bytes.now bit width }
{
    let j = bit / 8;
    let both = byte_at(bytes, j + 1) * 256 + byte_at(bytes, j);
    (both / power(bit % 8) % power(width)) as u8
}
