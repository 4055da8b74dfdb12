// The grid of seeds behind a suspicious start: ring_fit/robust.rs, the rows of robust_grid_fit, and four pairs of them.
#![tactic(auto)]

ghost use Rattle.std.specs.Prelude.{◌≡◌, ◌+◌, ◌<◌, leb, length, take};
ghost use Rattle.robust_grid.specs.Grid as G;
ghost use Rattle.robust_grid.specs.Places as P;
ghost use Rattle.robust_lanes.specs.Lanes as L;

use robust_lanes::{Best, GridRow, Models};

// ROBUST_GRID_STEP_DEG.to_radians(): 8 degrees.
const GRID_STEP: f32 = 0.139626339;

fn grid_angle(a: usize) -> f32
    requires { a < L.grid_places }
    ensures { result ≡ G.grid_angle a }
{
    floats::count_f32(a) * GRID_STEP
}

// Sine and cosine of each angle of the grid. All are below 64 in size, so that this becomes vector code. Here and in
// `grid_row` the loop runs to 24: to 23 the compiler would leave three angles apart. Place 23 is not used.
fn grid_axes(
    sines: &mut [f32; robust_lanes::GRID_PLACES],
    cosines: &mut [f32; robust_lanes::GRID_PLACES],
)
    ensures { P.Axes sines.new cosines.new }
{
    // By place: two arrays are written, and the angle is made of the number.
    for a in 0..robust_lanes::GRID_PLACES {
        let t = elementary::sin_cos_near(grid_angle(a));
        sines[a] = t.s;
        cosines[a] = t.c;
    }
}

// The model's factor of one sample at each angle of the grid.
fn grid_row(
    s: f32,
    c: f32,
    sines: &[f32; robust_lanes::GRID_PLACES],
    cosines: &[f32; robust_lanes::GRID_PLACES],
    row: &mut GridRow,
)
    ensures { take L.grid_places row.new ≡ P.row_from s c sines.now cosines.now }
{
    // By place: two arrays are read and a third written; a `zip` over its `iter_mut` tells a proof of no element.
    for a in 0..robust_lanes::GRID_PLACES {
        row[a] = elementary::tanh(solver::TANH_BETA * (s * cosines[a] - c * sines[a]));
    }
}

// All samples.
pub fn fill_grid(sphi: &[f32], cphi: &[f32], h: &mut [GridRow])
    requires { (length cphi.now ≡ length sphi.now) × (length h.old ≡ length sphi.now) }
    ensures { P.Grid sphi.now cphi.now h.new (length sphi.now) }
{
    let n = sphi.len();
    let mut sines = [0.0f32; robust_lanes::GRID_PLACES];
    let mut cosines = [0.0f32; robust_lanes::GRID_PLACES];
    grid_axes(&mut sines, &mut cosines);
    // By place: two slices are read and a third written; a `zip` over its `iter_mut` tells a proof of no element.
    for i in 0..n {
        grid_row(sphi[i], cphi[i], &sines, &cosines, &mut h[i]);
    }
}

// The last angle with which a makes an allowed pair: 21 steps on, or the grid's last.
fn last_of(a: usize) -> usize
    ensures { result ≡ P.last_of a }
{
    if a == 0 {
        return 21;
    }
    22
}

// Of the 253 pairs the 230 that are 2 to 21 steps apart are allowed. They are tried by fours: a with b to b + 3. The last
// four of an angle may run past its last pair; there are 65 such blocks.
pub const BLOCKS: usize = 65;

// Its bounds stand in contracts: as ghost fields they would be no plainer, since the definition walks on behind the last block.
#[derive(Clone, Copy)]
pub struct Pair {
    pub a: usize,
    pub b: usize,
}

pub fn first_block() -> Pair
    ensures { result ≡ P.first_block }
{
    Pair { a: 0, b: 2 }
}

pub fn next_block(p: Pair) -> Pair
    requires { (p.a < 21) × (p.b < 23) }
    ensures { result ≡ P.next_block p }
{
    if p.b + 4 <= last_of(p.a) {
        return Pair { a: p.a, b: p.b + 4 };
    }
    Pair {
        a: p.a + 1,
        b: p.a + 3,
    }
}

// Whether the lane k of a block has an allowed pair.
pub fn is_pair(p: Pair, k: usize) -> bool
    requires { (p.b < 23) × (k < 4) }
    ensures { result ≡ leb (p.b + k) (P.last_of p.a) }
{
    p.b + k <= last_of(p.a)
}

// A block's pairs as far as they are allowed. The root is monotone, so a pair whose mean square is not below the best's
// has no lower residual, and is skipped before its root is taken. Each kind of model has its own instance of the walk, and
// both are compiled with this in their loop: a call a block made a ring of two starts take a quarter more instructions.
// n is the number of samples as a float.
#[inline(always)]
pub fn lanes_tried(best0: Best, m: Models, n: f32, centered_ss: f32, mean: f32, p: Pair) -> Best
    requires { (p.a < 21) × (p.b < 23) }
    ensures { result.top ≡ P.lanes_tried n centered_ss mean m p best0.top }
{
    let mut best = best0;
    let xs = robust_lanes::mean_squares(m, n, centered_ss);
    let q_mean = m.q_mean;
    let denom = m.denom;
    let num = m.num;
    // By lane: k is counted on from the pair's angle, and read in four arrays.
    'lanes: for k in 0..4 {
        if !is_pair(p, k) {
            break 'lanes;
        }
        if xs[k] >= best.bound {
            continue 'lanes;
        }
        let theta1 = grid_angle(p.a);
        let theta2 = grid_angle(p.b + k);
        let c = seed::scored_from(
            n,
            centered_ss,
            mean,
            num[k],
            q_mean[k],
            denom[k],
            theta1,
            theta2,
        );
        best = robust_lanes::tried(best, xs[k], c);
    }
    best
}
