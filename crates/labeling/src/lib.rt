// Labels: labelings of physical states with levels. A label table has the level of state s at entry s.
#![tactic(auto)]

ghost use Rattle.std.specs.Prelude.{◌≡◌, ◌&&◌, ◌↔◌, ◌<◌, ◌≤◌, not, List, ℕ, T, eqb, nat_eq, length};
ghost use Rattle.std.specs.List.{position};
ghost use Rattle.definitions.specs.Answers.{given, refuse◌when◌else◌};
ghost use Rattle.definitions.specs.CodeOperations.{between};
ghost use Rattle.definitions.specs.PowersOfTwo.{is_power_of_two};
ghost use Rattle.definitions.specs.Labels.{reversed, made_level, made_table, Permutation, is_permutation, level_of, state_of};
ghost use Rattle.definitions.specs.LabelOperations.{make_labels, applicable, applied, to_levels, to_states, GoesBack};
ghost use Rattle.answers.specs.Answering.{answer_of, answer_with, leaves};
ghost use Rattle.labeling.specs.Labelings.{labeling_number};

use answers::Refusal;

// A physical state and a level are two scales. Only a label table turns one into the other: level_of and state_of.
#[derive(Clone, Copy, Debug, PartialEq, Eq)]
struct State(u8);

#[derive(Clone, Copy, Debug, PartialEq, Eq)]
struct Level(u8);

fn level_of(table: &[u8], state: State) -> Level
    requires { state.0 < length table.now }
    ensures { result.0 ≡ level_of table.now state.0 }
{
    Level(table[usize::from(state.0)])
}

// The place of a level in a table.
fn place_of(table: &[u8], level: Level) -> Option<usize>
    ensures { result ≡ position (λ x. nat_eq x level.0) table.now }
{
    table.iter().position(|entry| *entry == level.0)
}

#[tactic(auto, using(crate::proofs::Searching::state_found))]
fn state_of(table: &[u8], level: Level) -> State
    requires { length table.now ≤ 64 }
    ensures { result.0 ≡ state_of table.now level.0 }
{
    State(place_of(table, level).unwrap_or(table.len()) as u8)
}

// A scale, whose cells a label table turns into those of the other. That a table has at most 64 entries stays a clause: a type for it would be
// longer.
trait Scale {
    ghost turned: { List ℕ → ℕ → ℕ };

    fn turned(table: &[u8], cell: u8) -> u8
        requires { (cell < length table.now) × (length table.now ≤ 64) }
        ensures { result ≡ turned table.now cell };
}

impl Scale for State {
    ghost turned = { level_of };

    fn turned(table: &[u8], cell: u8) -> u8 {
        level_of(table, State(cell)).0
    }
}

impl Scale for Level {
    ghost turned = { state_of };

    fn turned(table: &[u8], cell: u8) -> u8 {
        state_of(table, Level(cell)).0
    }
}

// Whether a table is a permutation. Each entry marks its level; a byte is below 256.
#[tactic(auto, using(crate::proofs::Marking::level_beyond))]
pub fn is_permutation(table: &[u8]) -> bool
    ensures test { result ≡ is_permutation table.now }
    ensures proposition { T result ↔ Permutation table.now }
{
    let mut marked = [false; 256];
    for entry in table {
        let level = usize::from(*entry);
        if table.len() <= level {
            return false;
        }
        if marked[level] {
            return false;
        }
        marked[level] = true;
    }
    true
}

// The labelings that are made.
#[derive(Clone, Copy, Debug, PartialEq, Eq)]
enum Labeling {
    Straight,
    Gray,
    Reversed,
}

// From a kind's number, 1 to 3.
impl TryFrom<usize> for Labeling {
    type Error = Refusal;

    ghost try_from_gives = { λ kind r. answer_with labeling_number r ≡ (refuse 2 when not (between 1 kind 3) else given kind) };

    fn try_from(kind: usize) -> Result<Labeling, Refusal> {
        match kind {
            1 => Ok(Labeling::Straight),
            2 => Ok(Labeling::Gray),
            3 => Ok(Labeling::Reversed),
            0 | 4.. => Err(Refusal::OutOfRange),
        }
    }
}

// The m lowest bits of a byte in opposite order: the highest of the whole byte so.
#[tactic(auto, using(crate::proofs::Reversing::by_machine))]
fn reversed(m: usize, s: u8) -> u8
    requires { m ≤ 8 }
    ensures { result ≡ reversed m s }
{
    (usize::from(s.reverse_bits()) >> (8 - m)) as u8
}

// The level of state s of q.
#[tactic(auto, unfolding(definitions::specs::Labels::gray))]
fn made_level(labeling: Labeling, q: usize, s: u8) -> u8
    requires { q ≤ 64 }
    ensures { result ≡ made_level (labeling_number labeling) q s }
{
    match labeling {
        Labeling::Straight => s,
        Labeling::Gray => s ^ s / 2,
        Labeling::Reversed => reversed(bits::log2(q), s),
    }
}

fn store_labels(labeling: Labeling, table: &mut [u8])
    requires { length table.old ≤ 64 }
    ensures { table.new ≡ made_table (labeling_number labeling) (length table.old) }
{
    let q = table.len();
    for (s, level) in table.iter_mut().enumerate() {
        *level = made_level(labeling, q, s as u8);
    }
}

// Whether a labeling asks for a power of two that q is not: all but the straight one do.
fn lacks_power(labeling: Labeling, q: usize) -> bool
    requires { q ≤ 64 }
    ensures { result ≡ (not (eqb (labeling_number labeling) 1) && not (is_power_of_two q)) }
{
    labeling != Labeling::Straight && !bits::is_power_of_two(q)
}

// Make labels. The table's length is q; the kind is a number, as C hands it over.
#[tactic(auto, unfolding(definitions::specs::LabelOperations::make_labels))]
pub fn make_labels(kind: usize, table: &mut [u8]) -> Result<(), Refusal>
    ensures result { leaves (answer_of result) table.new ≡ make_labels kind table.old }
    ensures permutation { answer_of result ≡ given tt → Permutation table.new }
{
    let q = table.len();
    if !(2..=64).contains(&q) {
        return Err(Refusal::OutOfRange);
    }
    let labeling = Labeling::try_from(kind)?;
    if lacks_power(labeling, q) {
        return Err(Refusal::NotAPowerOfTwo);
    }
    store_labels(labeling, table);
    Ok(())
}

// The check of a table, an input and the output buffer's length, before a table is applied, either way.
#[tactic(auto, unfolding(definitions::specs::LabelOperations::applicable))]
fn check(table: &[u8], input: &[u8], room: usize) -> Result<(), Refusal>
    ensures { answer_of result ≡ applicable table.now input.now room }
{
    let q = table.len();
    if !(2..=64).contains(&q) {
        return Err(Refusal::OutOfRange);
    }
    if !is_permutation(table) {
        return Err(Refusal::NotAPermutation);
    }
    if input.len() != room {
        return Err(Refusal::WrongBuffer);
    }
    if !byte_helpers::all_below(q, input) {
        return Err(Refusal::LevelTooLarge);
    }
    Ok(())
}

// A table applied to cells of one scale. The input is read by index: of a buffer written through `iter_mut().zip(..)` a proof knows nothing,
// and a copy changed in place would write each cell twice.
#[tactic(auto, using(crate::proofs::Applying::same_length, crate::proofs::Applying::table_small, crate::proofs::Applying::input_below))]
fn apply<S: Scale>(table: &[u8], input: &[u8], out: &mut [u8]) -> Result<(), Refusal>
    ensures { leaves (answer_of result) out.new ≡ applied (S.turned table.now) table.now input.now out.old }
{
    check(table, input, out.len())?;
    for (i, cell) in out.iter_mut().enumerate() {
        *cell = S::turned(table, input[i]);
    }
    Ok(())
}

// Apply a table, from states to levels.
#[tactic(auto, using(crate::proofs::Applying::levels_back), unfolding(definitions::specs::LabelOperations::to_levels))]
pub fn to_levels(table: &[u8], states: &[u8], levels: &mut [u8]) -> Result<(), Refusal>
    ensures result { leaves (answer_of result) levels.new ≡ to_levels table.now states.now levels.old }
    ensures back { GoesBack (to_states table.now) states.now (answer_of result) levels.new }
{
    apply::<State>(table, states, levels)
}

// Apply a table, from levels to states.
#[tactic(auto, using(crate::proofs::Applying::states_back), unfolding(definitions::specs::LabelOperations::to_states))]
pub fn to_states(table: &[u8], levels: &[u8], states: &mut [u8]) -> Result<(), Refusal>
    ensures result { leaves (answer_of result) states.new ≡ to_states table.now levels.now states.old }
    ensures back { GoesBack (to_levels table.now) levels.now (answer_of result) states.new }
{
    apply::<Level>(table, levels, states)
}
