// Filters of the search: that no last choice can leave nothing of a syndrome, at a cell or from a cell on. They only rule out.
#![tactic(auto)]

ghost use Rattle.std.specs.Prelude.{◌≡◌, true, false, ℕ, ◌*◌, ◌%◌, ◌<◌, ◌≤◌, length, IsSomeAnd};
ghost use Rattle.definitions.specs.Words.{at};
ghost use Rattle.opening.specs.Viewed.{code as the_code};
ghost use Rattle.search_filters.specs.Filters.{less_modulo, weighed_of, hash_of, Misses, NoneAt, LastCells, Marked};

use opening::Code;

// a - e modulo m.
fn less_modulo(m: u8, a: u8, e: u8) -> u8
    requires { (a < m) × (e < m) × (m ≤ 64) }
    ensures { result ≡ less_modulo m a e }
{
    if a < e { a + (m - e) } else { a - e }
}

// What remains of a syndrome once the magnitude of a cell with this column is one more.
pub fn lowered(m: u8, rest: [u8; 12], column: [u8; 12]) -> [u8; 12]
    requires { (m ≤ 64) × ((i : ℕ) → at rest i < m) × ((i : ℕ) → at column i < m) }
    ensures { (i : ℕ) → at result i ≡ less_modulo m (at rest i) (at column i) }
{
    byte_helpers::entrywise(&rest, &column, |a, e| less_modulo(m, a, e))
}

// Six entries, from a place on, as a number.
fn weighed(s: &[u8; 12], from: usize) -> usize
    requires { from ≤ 6 }
    ensures { (result ≡ weighed_of (at s.now) from) × (result ≤ 16065) }
{
    usize::from(s[from])
        + 2 * usize::from(s[from + 1])
        + 4 * usize::from(s[from + 2])
        + 8 * usize::from(s[from + 3])
        + 16 * usize::from(s[from + 4])
        + 32 * usize::from(s[from + 5])
}

// A number below 4096 for what remains: equal remainders have equal ones.
fn hash(s: &[u8; 12]) -> usize
    ensures { result ≡ hash_of (at s.now) }
{
    (weighed(s, 0) + 64 * weighed(s, 6)) % 4096
}

// The cell's number, from 1, at the hash of each multiple of its column.
fn mark(m: u8, l: usize, column: [u8; 12], cell: usize, last: &mut [u8; 4096])
    requires bounds { (0 < m) × (m ≤ 64) × ((i : ℕ) → at column i < m) × (l ≤ 64) × (cell < 64) }
    requires below { ((h : ℕ) → at last.old h ≤ cell) × (length last.old ≡ 4096) }
    ensures { Marked (at column) m cell l last.old last.new }
{
    let number = (cell + 1) as u8;
    let mut s = [0u8; 12];
    for _ in 0..l {
        let y = byte_helpers::add_entries(m, &s, &column);
        last[hash(&y)] = number;
        s = y;
    }
}

// At each hash the number, from 1, of the last cell that has a multiple with it, in a table of zeros. 0 stands for none, so that one comparison
// with a cell is enough where an Option would be taken apart.
pub fn mark_cells(code: &Code, last: &mut [u8; 4096])
    requires { ((h : ℕ) → at last.old h ≡ 0) × (length last.old ≡ 4096) }
    ensures { LastCells (the_code code.now) last.new }
{
    for c in 0..code.n {
        mark(code.m as u8, code.l, code.column_of(c), c, last);
    }
}

// Whether one choice is left and no cell from `cell` on can make it: the last cell with a multiple of this hash is before. Without a
// table nothing is ruled out.
pub fn cannot_end_from(last: Option<&[u8; 4096]>, left: usize, cell: usize, rest: &[u8; 12]) -> bool
    ensures { result ≡ true → (left ≡ 1) × IsSomeAnd last.entry (λ x. at x.now (hash_of (at rest.now)) ≤ cell) }
{
    match last {
        Some(cells) if left == 1 => usize::from(cells[hash(rest)]) <= cell,
        _ => false,
    }
}

// The same of a table in a slice, which is looked at only where one choice is left: for a caller that has the table in no array.
pub fn cannot_end_in(last: &[u8], left: usize, cell: usize, rest: &[u8; 12]) -> bool
    requires { left ≡ 1 → length last.now ≡ 4096 }
    ensures { result ≡ true → (left ≡ 1) × (at last.now (hash_of (at rest.now)) ≤ cell) }
{
    left == 1 && usize::from(last[hash(rest)]) <= cell
}

// A multiple of an entry modulo m; most are below m already.
fn multiple(m: usize, a: usize, b: usize) -> usize
    requires { (0 < m) × (a ≤ 64) × (b ≤ 64) }
    ensures { result ≡ (a * b) % m }
{
    let x = a * b;
    if x < m { x } else { x % m }
}

// Whether what remains is `mag` times the column of a cell. By a loop, as in the next function: by `all` and `any` over ranges a search for one
// cell takes up to 1.5 times as long.
fn is_multiple(code: &Code, cell: usize, mag: usize, rest: &[u8; 12]) -> bool
    requires { mag ≤ code.now.l }
    ensures { result ≡ false → Misses (the_code code.now) cell mag rest.now }
{
    for i in 0..code.r {
        if multiple(code.m, mag, code.column(i, cell)) != usize::from(rest[i]) {
            return false;
        }
    }
    true
}

// Whether one choice is left and this cell cannot make it: what remains is no multiple of its column.
pub fn cannot_end_at(code: &Code, left: usize, cell: usize, rest: &[u8; 12]) -> bool
    ensures { result ≡ true → (left ≡ 1) × NoneAt (the_code code.now) cell rest.now }
{
    if left != 1 {
        return false;
    }
    for mag in 0..code.l {
        if is_multiple(code, cell, mag + 1, rest) {
            return false;
        }
    }
    true
}
