// Four pairs of the grid side by side, and the best seed so far with what its root was taken of: the inner part of
// ring_fit/robust.rs, robust_grid_fit.
#![tactic(auto)]

ghost use Rattle.std.specs.Prelude.{◌≡◌, ◌<◌, length};
ghost use Rattle.floats.specs.Ops.{nought};
ghost use Rattle.floats.specs.Library.{max};
ghost use Rattle.robust_lanes.specs.Lanes as L;
ghost use Rattle.robust_lanes.specs.BoundLaws.{bound_once};

use seed::SeedCandidate;

// A sample's row has a place for each of the grid's 23 angles, one that evens them out, and two that the last lanes look at.
pub const GRID_PLACES: usize = 24;

pub const ROW_PLACES: usize = 26;

pub type GridRow = [f32; ROW_PLACES];

// Arrays of four, and no four structs: each step is one on four numbers.
// The sums of four pairs side by side: of the angle a with b, b + 1, b + 2 and b + 3.
#[derive(Drop)]
pub struct Lanes {
    pub q_sum: [f32; 4],
    pub q2_sum: [f32; 4],
    pub num: [f32; 4],
}

pub fn times(x: f32, y: [f32; 4]) -> [f32; 4]
    ensures { result ≡ L.times x y }
{
    [x * y[0], x * y[1], x * y[2], x * y[3]]
}

pub fn plus(x: [f32; 4], y: [f32; 4]) -> [f32; 4]
    ensures { result ≡ L.plus x y }
{
    [x[0] + y[0], x[1] + y[1], x[2] + y[2], x[3] + y[3]]
}

fn squared(y: [f32; 4]) -> [f32; 4]
    ensures { result ≡ L.squared y }
{
    [y[0] * y[0], y[1] * y[1], y[2] * y[2], y[3] * y[3]]
}

// A sample v more, which has the factor x at the angle a and the factors y at the other four.
fn lanes_added(s: Lanes, v: f32, x: f32, y: [f32; 4]) -> Lanes
    ensures { result ≡ L.lanes_added s v x y }
{
    let q = times(x, y);
    let old_q = s.q_sum;
    let old_q2 = s.q2_sum;
    let old_num = s.num;
    let q_sum = plus(old_q, q);
    let q2_sum = plus(old_q2, squared(q));
    let num = plus(old_num, times(v, q));
    Lanes { q_sum, q2_sum, num }
}

// Each lane adds its samples in their order. From b = 20 on the last lanes run past the grid's angles; nothing is asked of
// them. It is compiled into its caller, here and below: where that one has arrays, the number of samples is a constant, the
// loop has no end to test, and what is divided by 16 is multiplied.
#[inline(always)]
pub fn lane_sums(h: &[GridRow], centered: &[f32], a: usize, b: usize) -> Lanes
    requires { (length h.now ≡ length centered.now) × (a < 23) × (b < 23) }
    ensures { result ≡ L.lane_sums (length centered.now) centered.now h.now a b }
{
    let none = [0.0f32; 4];
    let mut s = Lanes {
        q_sum: none,
        q2_sum: none,
        num: none,
    };
    for (row, v) in h.iter().zip(centered) {
        let y = [row[b], row[b + 1], row[b + 2], row[b + 3]];
        s = lanes_added(s, *v, row[a], y);
    }
    s
}

// `max` with 0: a NaN and -0 become 0 too.
fn ahead(x: f32) -> f32
    ensures { result ≡ max x nought }
{
    if x > 0.0 {
        return x;
    }
    0.0
}

// What four pairs bring to their scores.
#[derive(Clone, Copy)]
pub struct Models {
    pub q_mean: [f32; 4],
    pub denom: [f32; 4],
    pub num: [f32; 4],
}

// n is the number of samples as a float, here and below.
#[inline(always)]
pub fn lane_models(s: Lanes, n: f32) -> Models
    ensures { result ≡ L.models_of s n }
{
    let q = s.q_sum;
    let q2 = s.q2_sum;
    let num = s.num;
    let q_mean = [q[0] / n, q[1] / n, q[2] / n, q[3] / n];
    let denom = [
        q2[0] - q[0] * q_mean[0],
        q2[1] - q[1] * q_mean[1],
        q2[2] - q[2] * q_mean[2],
        q2[3] - q[3] * q_mean[3],
    ];
    Models { q_mean, denom, num }
}

// What the root of a pair's residual is taken of.
fn mean_square(num: f32, denom: f32, n: f32, centered_ss: f32) -> f32
    ensures { result ≡ L.mean_square n centered_ss num denom }
{
    ahead(centered_ss - num * num / denom) / n
}

#[inline(always)]
pub fn mean_squares(m: Models, n: f32, centered_ss: f32) -> [f32; 4]
    ensures { result ≡ L.mean_squares m n centered_ss }
{
    let num = m.num;
    let denom = m.denom;
    [
        mean_square(num[0], denom[0], n, centered_ss),
        mean_square(num[1], denom[1], n, centered_ss),
        mean_square(num[2], denom[2], n, centered_ss),
        mean_square(num[3], denom[3], n, centered_ss),
    ]
}

// No Option of both: nothing is at least NaN, so one comparison of `lanes_tried` serves either case.
// The best seed so far, and what the root of its residual was taken of: NaN where there is none.
#[derive(Drop)]
pub struct Best {
    pub top: Option<SeedCandidate>,
    pub bound: f32,
    pub ghost kept: { L.BestBound top bound } by { bound_once top bound },
}

pub fn none_yet() -> Best
    ensures { result.top ≡ None }
{
    Best {
        top: None,
        bound: 0.0 / 0.0,
    }
}

// A candidate whose mean square is x.
pub fn tried(best: Best, x: f32, c: Option<SeedCandidate>) -> Best
    requires { L.Squared x c }
    ensures { result.top ≡ L.inserted best.top c }
{
    let next = Best { top: c, bound: x };
    let Some(s) = c else {
        return best;
    };
    let Some(d) = best.top else {
        return next;
    };
    if s.rms < d.rms {
        return next;
    }
    best
}
