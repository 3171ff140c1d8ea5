// Planes, and opening one at the head of the bytes left.
ghost use Rattle.std.specs.Prelude.{◌≡◌, ◌+◌, ◌<◌, ◌≤◌, length, IfOk, IsTrue};
ghost use Rattle.definitions.specs.StackOperations.{plane_in_range, open_plane};
ghost use Rattle.opening.specs.Viewed.{opened_as};

use answers::Refusal;
use opening::{Code, Parameters};

// An opened plane: as a code, q = M = c and l = c - 1; and its place value w, the product of the c of the planes before it.
#[derive(Clone, Copy)]
pub struct Plane<'a> {
    pub code: Code<'a>,
    pub w: usize,
    pub ghost whole: { (code.q ≡ code.m) × (code.l + 1 ≡ code.m) },
    pub ghost low: { 1 ≤ w },
}

// A plane of one cell: what a stack holds where no plane is.
impl Default for Plane<'_> {
    #[tactic(auto, unfolding(definitions::specs::Patterns::pattern_count))]
    fn default() -> Self {
        let code = Code {
            n: 1,
            r: 0,
            q: 2,
            m: 2,
            l: 1,
            t: 0,
            matrix: &[],
        };
        Plane { code, w: 1 }
    }
}

// The ranges of a plane's c, r and t in a stack of n cells.
fn plane_in_range(n: usize, c: usize, r: usize, t: usize) -> bool
    ensures tested { result ≡ plane_in_range n c r t }
    ensures inside { IsTrue result → (2 ≤ c) × (c ≤ 64) × (r ≤ 12) × (r < n) × (t ≤ 3) × (t ≤ n) }
{
    2 <= c && c <= 64 && r <= 12 && r < n && t <= 3 && t <= n
}

// Open the plane at the head of the bytes left. The answer is the first refusal of 1, 2, 3, 4 and 5 whose case holds.
#[tactic(auto, unfolding(definitions::specs::StackOperations::open_plane, definitions::specs::CodeOperations::in_range))]
pub fn open_plane<'a>(n: usize, bytes: &'a [u8]) -> Result<Code<'a>, Refusal>
    requires { (1 ≤ n) × (n ≤ 64) }
    ensures opened { opened_as result ≡ open_plane n bytes.now }
    ensures plane { IfOk result (λ p. (p.n ≡ n) × (p.q ≡ p.m) × (p.l + 1 ≡ p.m) × (3 + length p.matrix.now ≤ length bytes.now)) }
{
    if bytes.len() < 3 {
        return Err(Refusal::TooShort);
    }
    let c = usize::from(bytes[0]);
    let r = usize::from(bytes[1]);
    let t = usize::from(bytes[2]);
    if !plane_in_range(n, c, r, t) {
        return Err(Refusal::OutOfRange);
    }
    let end = 3 + opening::matrix_size(n, r);
    if bytes.len() < end {
        return Err(Refusal::WrongLength);
    }
    let parameters = Parameters {
        n,
        r,
        q: c,
        m: c,
        l: c - 1,
        t,
    };
    parameters.with_matrix(&bytes[3..end])
}
