// Opening a stack's description: from its bytes to a stack as one value, with its planes, or to a refusal.
#![tactic(auto)]

ghost use Rattle.std.specs.Prelude.{◌≡◌, ◌≤◌, map, take, All, IsTrue};
ghost use Rattle.definitions.specs.Stacks.{product};
ghost use Rattle.definitions.specs.StackMessages.{message_length};
ghost use Rattle.definitions.specs.StackOperations.{stack_in_range, open_stack};
ghost use Rattle.stack_opening.specs.Planes.{as_codes, place_values};

use answers::Refusal;

mod plane;

pub use plane::{Plane, open_plane};

// The most levels of a stack.
const MOST_LEVELS: usize = 64;

// An opened stack: its cells, its planes, its levels and the symbols of a message. The planes are the first m of six: an array with their number,
// since an ArrayVec is not Copy.
#[derive(Clone, Copy)]
pub struct Stack<'a> {
    pub n: usize,
    pub m: usize,
    pub q: usize,
    pub symbols: usize,
    pub all: [Plane<'a>; 6],
    pub ghost size: { (1 ≤ n) × (n ≤ 64) × (q ≤ 64) },
    pub ghost count: { m ≤ 6 },
    pub ghost each: { All (λ p. p.code.n ≡ n) (take m all) },
    pub ghost levels: { q ≡ product (as_codes (take m all)) },
    pub ghost message: { symbols ≡ message_length (as_codes (take m all)) },
    pub ghost values: { map (λ p. p.w) (take m all) ≡ place_values 1 (as_codes (take m all)) },
}

// The ranges of a stack's cells and planes.
fn stack_in_range(n: usize, m: usize) -> bool
    ensures tested { result ≡ stack_in_range n m }
    ensures inside { IsTrue result → (1 ≤ n) × (n ≤ 64) × (m ≤ 6) }
{
    1 <= n && n <= 64 && 1 <= m && m <= 6
}

impl<'a> Stack<'a> {
    ghost use Rattle.stack_opening.specs.Viewed.{planes_of, opened_as};

    // Open a stack's description: its cells and planes, then each plane. The answer is the first refusal whose case holds.
    #[tactic(auto, unfolding(definitions::specs::StackOperations::open_stack))]
    pub fn open(body: &'a [u8]) -> Result<Stack<'a>, Refusal>
        ensures { opened_as result ≡ open_stack body.now }
    {
        if body.len() < 2 {
            return Err(Refusal::TooShort);
        }
        let n = usize::from(body[0]);
        let m = usize::from(body[1]);
        if !stack_in_range(n, m) {
            return Err(Refusal::OutOfRange);
        }
        let mut rest = &body[2..];
        let mut all: [Plane; 6] = Default::default();
        let mut q = 1;
        let mut symbols = 0;
        for j in 0..m {
            let code = open_plane(n, rest)?;
            all[j] = Plane { code, w: q };
            q *= code.m;
            symbols += n - code.r;
            rest = &rest[3 + code.matrix.len()..];
        }
        if !rest.is_empty() {
            return Err(Refusal::WrongLength);
        }
        if MOST_LEVELS < q {
            return Err(Refusal::TooManyLevels);
        }
        Ok(Stack {
            n,
            m,
            q,
            symbols,
            all,
        })
    }

    // The planes that were opened, without the blank ones behind them.
    pub fn planes(&self) -> &[Plane<'a>]
        ensures { result.now ≡ planes_of self.now }
    {
        &self.all[..self.m]
    }
}
