// The columns of a code's matrix as a table. A column has 16 entries, those past r being 0, so that a cell is raised by one pass over them.
ghost use Rattle.std.specs.Prelude.{◌≡◌, [], ℕ, ◌<◌, length, slice_index_or};
ghost use Rattle.definitions.specs.Words.{at, EachCell};
ghost use Rattle.opening.specs.Viewed.{code as the_code};
ghost use Rattle.syndrome.specs.Columns.{column};
ghost use Rattle.acceptance.specs.Listing.{raised};

use opening::Code;

// A code and the columns of its n cells, in an array of 64: with an ArrayVec a third fact would say that there are n.
#[derive(Drop)]
pub struct Columns<'a> {
    pub code: Code<'a>,
    pub table: [[u8; 16]; 64],
    pub ghost long: { (c : ℕ) → c < code.n → length (slice_index_or table c []) ≡ 16 },
    pub ghost entry: { (c k : ℕ) → c < code.n → at (slice_index_or table c []) k ≡ column (the_code code) k c },
}

impl<'a> Columns<'a> {
    pub fn of(code: &Code<'a>) -> Columns<'a>
        ensures { result.code ≡ code.now }
    {
        let mut table = [[0u8; 16]; 64];
        for cell in 0..code.n {
            table[cell] = code.column_of(cell);
        }
        Columns { code: *code, table }
    }

    // The syndrome s once the cell has risen by one.
    pub fn raise(&self, cell: usize, s: &[u8; 16]) -> [u8; 16]
        requires { (cell < self.now.code.n) × (length s.now ≡ 16) × EachCell (λ v. v < self.now.code.m) s.now }
        ensures { (result ≡ raised (the_code self.now.code) cell s.now) × EachCell (λ v. v < self.now.code.m) result × (length result ≡ 16) }
    {
        // Copied: the check has no rule yet for lending a part of a struct that holds a reference.
        let column = self.table[cell];
        byte_helpers::add_entries(self.code.m as u8, s, &column)
    }
}
