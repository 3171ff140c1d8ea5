// What a syndrome is made of: sums of products along a row of the matrix. Columns, and syndromes as arrays, are in specs/.
#![tactic(auto)]

ghost use Rattle.std.specs.Prelude.{◌≡◌, ◌+◌, ◌*◌, ◌/◌, ◌<◌, ◌≤◌, length};
ghost use Rattle.definitions.specs.Words.{at, sum_to};

// Check cells of a codeword are below this.
pub fn ceiling(q: usize, m: usize) -> usize
    requires { 0 < m }
    ensures { (result ≡ m * (q / m)) × (result ≤ q) }
{
    m * (q / m)
}

// The products of a row's entries, from `base` on, and the first w levels, added up. By index: as a chain over two slices, decoding a clean
// word took 1.07 times as long.
pub fn row_sum(matrix: &[u8], word: &[u8], base: usize, w: usize) -> usize
    requires { (w ≤ 64) × (w ≤ length word.now) × (base + w ≤ length matrix.now) }
    ensures { (result ≡ sum_to w (λ j. at matrix.now (base + j) * at word.now j)) × (result ≤ 4161600) }
{
    let mut sum: u32 = 0;
    for j in 0..w {
        sum += u32::from(matrix[base + j]) * u32::from(word[j]);
    }
    sum as usize
}
