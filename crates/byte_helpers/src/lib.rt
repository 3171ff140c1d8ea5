// What the layers above do with bytes and levels: bound, multiply, add modulo m.
#![tactic(auto)]

ghost use Rattle.std.specs.Prelude.{◌≡◌, ℕ, ◌+◌, ◌*◌, ◌%◌, ◌<◌, ◌≤◌, length};
ghost use Rattle.definitions.specs.Words.{at, all_below};

// A product of two levels.
pub fn times(a: usize, b: usize) -> usize
    requires { (a ≤ 64) × (b ≤ 64) }
    ensures { (result ≡ a * b) × (result ≤ 4096) }
{
    a * b
}

// a + e modulo m: at most one subtraction.
pub fn add_modulo(m: u8, a: u8, e: u8) -> u8
    requires { (a < m) × (e < m) × (m ≤ 64) }
    ensures { (result ≡ (a + e) % m) × (result < m) }
{
    let sum = a + e;
    if sum < m { sum } else { sum - m }
}

// f of the two entries at each place. A loop: under `array::from_fn` both clauses would stand a second time, at its closure, off which the
// check reads nothing, since it is generic.
pub fn entrywise<const N: usize, F: Fn(u8, u8) -> u8>(a: &[u8; N], b: &[u8; N], f: F) -> [u8; N]
    requires { (i : ℕ) → i < N → F.pre f (at a.now i) (at b.now i) }
    ensures long { length result ≡ N }
    ensures entry { (i : ℕ) → i < N → F.post f (at a.now i) (at b.now i) (at result i) }
{
    let mut x = *a;
    for i in 0..N {
        x[i] = f(a[i], b[i]);
    }
    x
}

// Each entry of s with that of a column added modulo m.
pub fn add_entries<const N: usize>(m: u8, s: &[u8; N], column: &[u8; N]) -> [u8; N]
    requires { (m ≤ 64) × ((i : ℕ) → i < N → at s.now i < m) × ((i : ℕ) → i < N → at column.now i < m) }
    ensures long { length result ≡ N }
    ensures entry { (i : ℕ) → at result i ≡ (at s.now i + at column.now i) % m }
{
    entrywise(s, column, |a, e| add_modulo(m, a, e))
}

// Whether each byte is below a bound: by the largest, since a loop with one exit runs on many bytes at a time.
pub fn all_below(bound: usize, s: &[u8]) -> bool
    ensures { result ≡ all_below bound s.now }
{
    if bound == 0 {
        return s.is_empty();
    }
    let mut top = 0;
    for x in s {
        top = top.max(*x);
    }
    usize::from(top) < bound
}
