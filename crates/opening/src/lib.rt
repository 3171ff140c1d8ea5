// Opening a description: from its bytes to a code as one value, or to a refusal. An opened code has a word's syndrome as a method.
#![tactic(auto)]

ghost use Rattle.std.specs.Prelude.{◌≡◌, true, List, ℕ, suc, ◌+◌, ◌*◌, ◌^◌, ◌-◌, ◌≤◌, ◌<◌, length, drop, IsTrue};
ghost use Rattle.definitions.specs.Words.{at, sum_to, all_below, all_zero};
ghost use Rattle.definitions.specs.Codewords.{syndrome_entry, syndrome};
ghost use Rattle.definitions.specs.Codes.{code_of};
ghost use Rattle.definitions.specs.Patterns.{binomial, pattern_count};
ghost use Rattle.definitions.specs.CodeOperations.{in_range, open_code};
ghost use Rattle.syndrome.specs.Columns.{column, Syndrome, filling_of};

use answers::Refusal;

// The six fields of a description, tested or not; m is the modulus M.
#[derive(Clone, Copy)]
pub struct Parameters {
    pub n: usize,
    pub r: usize,
    pub q: usize,
    pub m: usize,
    pub l: usize,
    pub t: usize,
}

// An opened code or plane: its parameters, in range, and its matrix, r rows of n - r entries, which lies in the lent description. The six fields
// stand here again: with one field of type Parameters each use of `code.n` and its like would be `code.parameters.n`.
#[derive(Clone, Copy)]
pub struct Code<'a> {
    pub n: usize,
    pub r: usize,
    pub q: usize,
    pub m: usize,
    pub l: usize,
    pub t: usize,
    pub matrix: &'a [u8],
    pub ghost cells: { (1 ≤ n) × (n ≤ 64) × (r ≤ 12) × (r < n) },
    pub ghost levels: { (2 ≤ m) × (m ≤ q) × (q ≤ 64) },
    pub ghost errors: { (1 ≤ l) × (l < m) × (t ≤ 3) × (t ≤ n) },
    pub ghost size: { length matrix.now ≡ r * (n - r) },
    pub ghost entries: { all_below m matrix.now ≡ true },
    pub ghost few: { pattern_count (record { n = n; r = r; q = q; M = m; l = l; t = t; A = matrix.now }) ≤ 4096 },
}

// The number of patterns with i + 1 risen cells, from that of those with i: one of the n - i other cells rises by one of l
// magnitudes, and each pattern is met i + 1 times so.
fn next_term(term: u64, n: usize, l: usize, i: usize) -> u64
    requires sizes { (n ≤ 64) × (l ≤ 63) × (i < n) }
    requires of { (term ≡ binomial n i * l ^ i) × (term ≤ 16257024) }
    ensures { (result ≡ binomial n (suc i) * l ^ suc i) × (result ≤ term * 4032) }
{
    let more = (n - i) * l;
    term * (more as u64) / (i as u64 + 1)
}

// The number P of patterns of n cells with magnitudes 1 to l and at most t risen cells. Before its bound is tested it can need 34 bits.
pub fn pattern_count(n: usize, l: usize, t: usize) -> u64
    requires { (n ≤ 64) × (l ≤ 63) × (t ≤ 3) × (t ≤ n) }
    ensures { result ≡ sum_to (suc t) (λ i. binomial n i * l ^ i) }
{
    if t == 0 {
        return 1;
    }
    let one = next_term(1, n, l, 0);
    if t == 1 {
        return 1 + one;
    }
    let two = next_term(one, n, l, 1);
    if t == 2 {
        return 1 + one + two;
    }
    1 + one + two + next_term(two, n, l, 2)
}

// The number of entries of a matrix: r rows of n - r.
pub fn matrix_size(n: usize, r: usize) -> usize
    requires { (n ≤ 64) × (r < n) }
    ensures { (result ≡ r * (n - r)) × (result ≤ 4096) }
{
    r * (n - r)
}

impl Parameters {
    ghost use Rattle.opening.specs.Viewed.{code_with, opened_as, matrix_tested};

    // The six fields at the head of a description.
    fn read(body: &[u8]) -> Parameters
        requires { 6 ≤ length body.now }
        ensures { code_with result (drop 6 body.now) ≡ code_of body.now }
    {
        Parameters {
            n: usize::from(body[0]),
            r: usize::from(body[1]),
            q: usize::from(body[2]),
            m: usize::from(body[3]),
            l: usize::from(body[4]),
            t: usize::from(body[5]),
        }
    }

    // The ranges of the six fields, which do not look at the matrix.
    #[tactic(auto, unfolding(definitions::specs::CodeOperations::in_range))]
    fn in_range(self) -> bool
        ensures tested { (A : List ℕ) → result ≡ in_range (code_with self A) }
        ensures inside { IsTrue result → (self.n ≤ 64) × (self.r < self.n) }
    {
        let Parameters { n, r, q, m, l, t } = self;
        1 <= n
            && n <= 64
            && r <= 12
            && r < n
            && 2 <= q
            && q <= 64
            && 2 <= m
            && m <= q
            && 1 <= l
            && l <= m - 1
            && t <= 3
            && t <= n
    }

    // The last tests of an opening, 4 and 5, of the matrix of a code or a plane whose fields are in range.
    #[tactic(auto, unfolding(definitions::specs::Patterns::pattern_count, definitions::specs::CodeOperations::in_range))]
    pub fn with_matrix<'a>(self, matrix: &'a [u8]) -> Result<Code<'a>, Refusal>
        requires range { in_range (code_with self matrix.now) ≡ true }
        requires size { length matrix.now ≡ self.r * (self.n - self.r) }
        ensures { opened_as result ≡ matrix_tested (code_with self matrix.now) }
    {
        let Parameters { n, r, q, m, l, t } = self;
        if !byte_helpers::all_below(m, matrix) {
            return Err(Refusal::EntryTooLarge);
        }
        if 4096 < pattern_count(n, l, t) {
            return Err(Refusal::TooManyPatterns);
        }
        Ok(Code {
            n,
            r,
            q,
            m,
            l,
            t,
            matrix,
        })
    }
}

impl<'a> Code<'a> {
    ghost use Rattle.opening.specs.Viewed.{code, code_with, opened_as};

    // Open a code's description: the six fields, then the matrix. The answer is the first refusal of 1, 2, 3, 4 and 5 whose case holds.
    #[tactic(auto, unfolding(definitions::specs::CodeOperations::open_code))]
    pub fn open(body: &'a [u8]) -> Result<Code<'a>, Refusal>
        ensures { opened_as result ≡ open_code body.now }
    {
        if body.len() < 6 {
            return Err(Refusal::TooShort);
        }
        let parameters = Parameters::read(body);
        if !parameters.in_range() {
            return Err(Refusal::OutOfRange);
        }
        if body.len() != 6 + matrix_size(parameters.n, parameters.r) {
            return Err(Refusal::WrongLength);
        }
        parameters.with_matrix(&body[6..])
    }

    // The six fields without the matrix.
    pub fn parameters(&self) -> Parameters
        ensures { code_with result self.now.matrix.now ≡ code self.now }
    {
        Parameters {
            n: self.n,
            r: self.r,
            q: self.q,
            m: self.m,
            l: self.l,
            t: self.t,
        }
    }

    // Entry i + 1 of a word's syndrome.
    #[tactic(auto, unfolding(definitions::specs::Codewords::syndrome_entry))]
    pub fn syndrome_entry(&self, word: &[u8], i: usize) -> u8
        requires { (length word.now ≡ self.now.n) × (i < self.now.r) }
        ensures { result ≡ syndrome_entry (code self.now) word.now i }
    {
        let w = self.n - self.r;
        let sum = syndrome::row_sum(self.matrix, word, i * w, w);
        ((sum + usize::from(word[w + i])) % self.m) as u8
    }

    // The syndrome of a word. Its entries from r on are 0, so that all syndromes have one length, which an ArrayVec would say in a fact.
    pub fn syndrome(&self, word: &[u8]) -> [u8; 12]
        requires { length word.now ≡ self.now.n }
        ensures { Syndrome (code self.now) word.now result }
    {
        let mut s = [0u8; 12];
        for (i, entry) in s[..self.r].iter_mut().enumerate() {
            *entry = self.syndrome_entry(word, i);
        }
        s
    }

    // Entry i of the column of a cell: the matrix's, or a check cell's unit column.
    #[tactic(auto, unfolding(syndrome::specs::Columns::column))]
    pub fn column(&self, i: usize, cell: usize) -> usize
        requires { i < self.now.r }
        ensures { (result ≡ column (code self.now) i cell) × (result < self.now.m) }
    {
        let w = self.n - self.r;
        if cell < w {
            return usize::from(self.matrix[i * w + cell]);
        }
        if cell == w + i { 1 } else { 0 }
    }

    // The column of a cell in N entries; those from r on are 0.
    pub fn column_of<const N: usize>(&self, cell: usize) -> [u8; N]
        requires { (cell < self.now.n) × (self.now.r ≤ N) }
        ensures long { length result ≡ N }
        ensures entry { (i : ℕ) → at result i ≡ column (code self.now) i cell }
    {
        let mut column = [0u8; N];
        for (i, entry) in column[..self.r].iter_mut().enumerate() {
            *entry = self.column(i, cell) as u8;
        }
        column
    }

    // Whether all r entries of the word's syndrome are 0.
    pub fn has_zero_syndrome(&self, word: &[u8]) -> bool
        requires { length word.now ≡ self.now.n }
        ensures { result ≡ all_zero (syndrome (code self.now) word.now) }
    {
        (0..self.r).all(|i| self.syndrome_entry(word, i) == 0)
    }

    // What the level of check cell i + 1 is modulo m, so that it makes the syndrome's entry i 0.
    pub fn filling(&self, symbols: &[u8], i: usize) -> usize
        requires { (self.now.n - self.now.r ≤ length symbols.now) × (i < self.now.r) }
        ensures { (result ≡ filling_of (code self.now) symbols.now i) × (result < self.now.m) }
    {
        let w = self.n - self.r;
        let sum = syndrome::row_sum(self.matrix, symbols, i * w, w);
        (self.m - sum % self.m) % self.m
    }
}
