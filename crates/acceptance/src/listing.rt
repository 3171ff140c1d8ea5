// Listing the patterns of a code: of each, in their order, the key of its syndrome is stored. The two functions that choose a cell and a
// magnitude stand in the search too, a rule of this project: there they break off at the first pattern that passes, and filter before each choice.
// within is of a syndrome and of the code beside it, so it is no fact of one type.
ghost use Rattle.std.specs.Prelude.{◌≡◌, ◌+◌, ◌<◌, ◌≤◌, length};
ghost use Rattle.definitions.specs.Words.{EachCell};
ghost use Rattle.opening.specs.Viewed.{code as the_code};
ghost use Rattle.acceptance.specs.Listing.{syndromes_from, raised_from, syndromes};
ghost use Rattle.acceptance.specs.Keys.{Stored};

use crate::columns::Columns;
use crate::keys::{Keys, key_of};

// Weight after weight, from 0 to t.
pub fn list_patterns(columns: &Columns, listed: &mut Keys)
    requires { length listed.old.items + length (syndromes (the_code columns.now.code)) ≤ 4096 }
    ensures { Stored (syndromes (the_code columns.now.code)) listed.old listed.new }
{
    let unrisen = [0u8; 16];
    for w in 0..=columns.code.t {
        choose_cell(columns, w, 0, &unrisen, listed);
    }
}

// The patterns that raise `left` of the cells from `cell` on: the first of these is chosen. s is the syndrome of the cells chosen so far.
#[cycle(choosing)]
fn choose_cell(columns: &Columns, left: usize, cell: usize, s: &[u8; 16], listed: &mut Keys)
    requires within { (cell ≤ columns.now.code.n) × (length s.now ≡ 16) × EachCell (λ v. v < columns.now.code.m) s.now }
    requires room { length listed.old.items + length (syndromes_from (the_code columns.now.code) left cell s.now) ≤ 4096 }
    ensures { Stored (syndromes_from (the_code columns.now.code) left cell s.now) listed.old listed.new }
{
    if left == 0 {
        listed.push(key_of(s));
        return;
    }
    for c in cell..columns.code.n {
        choose_magnitude(columns, left, c, s, listed);
    }
}

// The same with `cell` among those raised: its magnitude is chosen, then the next cell.
#[cycle(choosing)]
fn choose_magnitude(columns: &Columns, left: usize, cell: usize, s: &[u8; 16], listed: &mut Keys)
    requires within { (1 ≤ left) × (cell < columns.now.code.n) × (length s.now ≡ 16) × EachCell (λ v. v < columns.now.code.m) s.now }
    requires room { length listed.old.items + length (raised_from (the_code columns.now.code) left cell s.now 0) ≤ 4096 }
    ensures { Stored (raised_from (the_code columns.now.code) left cell s.now 0) listed.old listed.new }
{
    let mut x = *s;
    for _ in 0..columns.code.l {
        x = columns.raise(cell, &x);
        choose_cell(columns, left - 1, cell + 1, &x, listed);
    }
}
