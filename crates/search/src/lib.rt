// The first error pattern with a syndrome, shared by codes and digit planes: two functions that choose a cell and a magnitude.
#![tactic(auto)]

ghost use Rattle.std.specs.Prelude.{◌≡◌, ◌+◌, ◌<◌, ◌≤◌, length, IfSome};
ghost use Rattle.definitions.specs.Patterns.{patterns_of};
ghost use Rattle.definitions.specs.Decoding.{first};
ghost use Rattle.opening.specs.Viewed.{code as the_code};
ghost use Rattle.search.specs.Search.{Reached, cells_left, magnitudes_left, seek, sought_as, NoneWithOne, found_word, CountsOf};
ghost use Rattle.candidate_patterns.specs.Candidates.{test_for};
ghost use Rattle.search_filters.specs.Filters.{LastCells};

use candidate_patterns::asked::Asked;
use candidate_patterns::{Rise, Risen, passes};
use std::ops::ControlFlow;

// The choices so far: the cells risen, how many more are left, from which cell on, and how many patterns were tried before.
#[derive(Clone, Copy)]
struct Choices {
    risen: Risen,
    left: usize,
    cell: usize,
    tried: usize,
}

// A pattern that passed the test, its risen cells counted, and how many were tried up to it.
#[derive(Clone, Copy)]
pub struct Pattern {
    pub risen: Risen,
    pub count: usize,
    pub tried: usize,
}

// A choice that is not made.
const NO_RISE: Rise = Rise {
    cell: 0,
    magnitude: 0,
};

// The empty pattern.
const UNRISEN: Risen = Risen {
    rises: [NO_RISE; 3],
};

// No choice left: the pattern is tested. A part of the search breaks off with the pattern that passed and how many were tried up to it,
// or goes on with how many were tried.
fn test_pattern(a: &Asked, rest: &[u8; 12], k: Choices) -> ControlFlow<(Risen, usize), usize>
    requires reached { Reached a.now k rest.now × (k.left ≡ 0) }
    requires room { k.tried + length (cells_left a.now k) ≤ 4096 }
    ensures { sought_as a.now.code.n result ≡ seek (test_for a.now) (cells_left a.now k) k.tried }
{
    let tried = k.tried + 1;
    if passes(a, rest, k.risen) {
        return ControlFlow::Break((k.risen, tried));
    }
    ControlFlow::Continue(tried)
}

// The next cell is chosen. With a table of last cells, the cells that cannot end a pattern are passed over. This function and the next stand in
// acceptance too, a rule of this project: there they store the key of each pattern, and filter nothing; here they break off at the first that
// passes. Reached is of the question, the choices and what remains, three values that change apart, so it is no fact of one type.
#[cycle(choosing)]
fn choose_cell(
    a: &Asked,
    last: Option<&[u8; 4096]>,
    rest: &[u8; 12],
    k: Choices,
) -> ControlFlow<(Risen, usize), usize>
    requires reached { Reached a.now k rest.now }
    requires room { k.tried + length (cells_left a.now k) ≤ 4096 }
    requires table { IfSome last (λ x. LastCells (the_code a.now.code) x.now) }
    ensures { sought_as a.now.code.n result ≡ seek (test_for a.now) (cells_left a.now k) k.tried }
{
    if k.left == 0 {
        return test_pattern(a, rest, k);
    }
    let mut tried = k.tried;
    for cell in k.cell..a.code.n {
        tried = if search_filters::cannot_end_at(&a.code, k.left, cell, rest) {
            tried + a.code.l
        } else {
            choose_magnitude(a, last, rest, Choices { cell, tried, ..k })?
        };
    }
    ControlFlow::Continue(tried)
}

// The magnitude of the cell is chosen, then the next cell. Magnitudes are counted from 0: by `1..=l` a search for one cell took 1.17 times as
// long, and the proof had its step twice.
#[cycle(choosing)]
fn choose_magnitude(
    a: &Asked,
    last: Option<&[u8; 4096]>,
    rest: &[u8; 12],
    k: Choices,
) -> ControlFlow<(Risen, usize), usize>
    requires reached { Reached a.now k rest.now × (1 ≤ k.left) × (k.cell < a.now.code.n) }
    requires room { k.tried + length (magnitudes_left a.now k) ≤ 4096 }
    requires table { IfSome last (λ x. LastCells (the_code a.now.code) x.now) }
    ensures { sought_as a.now.code.n result ≡ seek (test_for a.now) (magnitudes_left a.now k) k.tried }
{
    let column = a.code.column_of(k.cell);
    let all = byte_helpers::times(a.code.n - (k.cell + 1), a.code.l);
    let mut next = *rest;
    let mut tried = k.tried;
    for mag in 0..a.code.l {
        let y = search_filters::lowered(a.code.m as u8, next, column);
        tried = if search_filters::cannot_end_from(last, k.left - 1, k.cell + 1, &y) {
            tried + all
        } else {
            let rise = Rise {
                cell: k.cell,
                magnitude: mag + 1,
            };
            let risen = Risen {
                rises: [rise, k.risen.rises[0], k.risen.rises[1]],
            };
            let more = Choices {
                risen,
                left: k.left - 1,
                cell: k.cell + 1,
                tried,
            };
            choose_cell(a, last, &y, more)?
        };
        next = y;
    }
    ControlFlow::Continue(tried)
}

// The first pattern with two risen cells or more, where none of the `lighter` with fewer passes the test.
fn heavier(a: &Asked, mut lighter: usize) -> Option<Pattern>
    requires { (1 ≤ a.now.code.t) × NoneWithOne a.now lighter }
    ensures found { found_word a.now.code.n result ≡ first (test_for a.now) (patterns_of (the_code a.now.code)) }
    ensures counts { CountsOf (the_code a.now.code) (test_for a.now) result }
{
    let mut last = [0u8; 4096];
    search_filters::mark_cells(&a.code, &mut last);
    for weight in 2..=a.code.t {
        let start = Choices {
            risen: UNRISEN,
            left: weight,
            cell: 0,
            tried: lighter,
        };
        match choose_cell(a, Some(&last), &a.s, start) {
            ControlFlow::Break((risen, tried)) => {
                return Some(Pattern {
                    risen,
                    count: weight,
                    tried,
                });
            }
            ControlFlow::Continue(tried) => lighter = tried,
        }
    }
    None
}

// The first error pattern, in the order of the list of patterns, that passes the test.
pub fn first_pattern(a: &Asked) -> Option<Pattern>
    ensures found { found_word a.now.code.n result ≡ first (test_for a.now) (patterns_of (the_code a.now.code)) }
    ensures counts { CountsOf (the_code a.now.code) (test_for a.now) result }
{
    if passes(a, &a.s, UNRISEN) {
        return Some(Pattern {
            risen: UNRISEN,
            count: 0,
            tried: 1,
        });
    }
    if a.code.t == 0 {
        return None;
    }
    let start = Choices {
        risen: UNRISEN,
        left: 1,
        cell: 0,
        tried: 1,
    };
    match choose_cell(a, None, &a.s, start) {
        ControlFlow::Break((risen, tried)) => Some(Pattern {
            risen,
            count: 1,
            tried,
        }),
        ControlFlow::Continue(_) if a.code.t == 1 => None,
        ControlFlow::Continue(lighter) => heavier(a, lighter),
    }
}
