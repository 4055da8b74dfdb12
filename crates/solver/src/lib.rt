// The Gauss-Newton fit from a seed: ring_fit/solver.rs, fit_with_seed.
#![tactic(auto)]

ghost use Rattle.std.specs.Prelude.{◌≡◌, true, ◌≤◌, length};
ghost use Rattle.solver.specs.Solver as S;
ghost use Rattle.solver.specs.Record as R;
ghost use Rattle.elementary.specs.Elementary.{turn};
ghost use Rattle.solver.specs.Buffers as B;

use elementary::SinCos;
use solver_record::{Params, Started};

pub const TANH_BETA: f32 = 4.0;

const GN_MAX_ITERS: usize = 6;

const GN_MAX_ANGLE_STEP: f32 = 0.5;

const GN_TOL: f32 = 1e-4;

// The most samples that a ring has.
pub const MAX_SAMPLES: usize = 24;

// A ring's samples, and beside each the sine and the cosine of its angle.
#[derive(Clone, Copy)]
pub struct Ring<'a> {
    pub samples: &'a [f32],
    pub sphi: &'a [f32],
    pub cphi: &'a [f32],
    pub ghost few: { length samples.now ≤ B.max_samples },
    pub ghost sines: { length sphi.now ≡ length samples.now },
    pub ghost cosines: { length cphi.now ≡ length samples.now },
}

// A sample's residual, and its row 1, q, d1, d2 of the Jacobian.
#[derive(Clone, Copy)]
pub struct Sample {
    pub r: f32,
    pub q: f32,
    pub d1: f32,
    pub d2: f32,
}

impl Sample {
    pub const NONE: Sample = Sample {
        r: 0.0,
        q: 0.0,
        d1: 0.0,
        d2: 0.0,
    };
}

// The sums that a pass leaves: of r and the row; of r times each; of the row's products; and of 1,
// the number of samples. Four fields that stand together are one sum of vector code.
#[derive(Clone, Copy)]
pub struct Sums {
    pub r: f32,
    pub q: f32,
    pub d1: f32,
    pub d2: f32,
    pub rr: f32,
    pub rq: f32,
    pub rd1: f32,
    pub rd2: f32,
    pub qq: f32,
    pub qd1: f32,
    pub qd2: f32,
    pub d1d1: f32,
    pub d1d2: f32,
    pub d2d2: f32,
    pub n: f32,
}

#[tactic(auto, unfolding(crate::specs::Solver::sample_at))]
fn sample_at(p: Params, t1: SinCos, t2: SinCos, v: f32, s: f32, c: f32) -> Sample
    ensures { result ≡ S.sample_at p t1 t2 v s c }
{
    let s1a = s * t1.c - c * t1.s;
    let c1a = c * t1.c + s * t1.s;
    let s2a = s * t2.c - c * t2.s;
    let c2a = c * t2.c + s * t2.s;
    let h1 = elementary::tanh(TANH_BETA * s1a);
    let h2 = elementary::tanh(TANH_BETA * s2a);
    let sech1 = 1.0 - h1 * h1;
    let sech2 = 1.0 - h2 * h2;
    Sample {
        r: v - (p.mu + p.amp * h1 * h2),
        q: h1 * h2,
        d1: -p.amp * sech1 * TANH_BETA * c1a * h2,
        d2: -p.amp * h1 * sech2 * TANH_BETA * c2a,
    }
}

// Whether all were near so far, and x is at most 64 in size too.
fn near_too(near: bool, x: f32) -> bool
    ensures { result ≡ true → (near ≡ true) × (turn x ≡ x) }
{
    if floats::abs(x) > 64.0 {
        return false;
    }
    near
}

// No early return, so that the loop becomes vector code.
pub fn all_near(angles: &[f32]) -> bool
    ensures { result ≡ true → B.RingNear (length angles.now) angles.now }
{
    let mut near = true;
    for x in angles {
        near = near_too(near, *x);
    }
    near
}

// Angles are brought to at most 64 in size in a loop of their own: the remainder in `turn` is a call, and would keep the loop
// of sines from being vector code. The usual angles are near, and `turn` leaves them.
pub fn turn_all(angles: &mut [f32])
    ensures { B.TurnedTo angles.old angles.new }
{
    if all_near(angles) {
        return;
    }
    for x in angles.iter_mut() {
        *x = elementary::turn(*x);
    }
}

// Three buffers and no struct: in `robust` they are on different stacks, and `turned` ends first.
pub fn sin_cos_all(turned: &[f32], sphi: &mut [f32], cphi: &mut [f32])
    requires { (length sphi.old ≡ length turned.now) × (length cphi.old ≡ length turned.now) }
    ensures { B.Sines turned.now sphi.new cphi.new }
{
    let n = turned.len();
    // By place: one slice is read and two are written; a `zip` over an `iter_mut` tells a proof of no element.
    for i in 0..n {
        let t = elementary::sin_cos_near(turned[i]);
        sphi[i] = t.s;
        cphi[i] = t.c;
    }
}

// The trigonometric functions of the angles depend on the ring alone, so they are worked out once.
pub fn prepare(ring_phi: &[f32], turned: &mut [f32], sphi: &mut [f32], cphi: &mut [f32])
    requires { (length turned.old ≡ length ring_phi.now) × (length sphi.old ≡ length ring_phi.now) ×
        (length cphi.old ≡ length ring_phi.now) }
    ensures { B.Prepared ring_phi.now sphi.new cphi.new }
{
    turned.copy_from_slice(ring_phi);
    turn_all(turned);
    sin_cos_all(turned, sphi, cphi);
}

// `js` is no field of Ring: a Ring is copied, and shared by passes that write `js`.
// The residual and the Jacobian's row of each sample: this loop has no running sum, so it becomes vector code.
fn fill(ring: &Ring, p: Params, t1: SinCos, t2: SinCos, js: &mut [Sample])
    requires { length js.old ≡ length ring.now.samples.now }
    ensures { js.new ≡ B.samples_at p t1 t2 ring.now.samples.now ring.now.sphi.now ring.now.cphi.now }
{
    let samples = ring.samples;
    let sphi = ring.sphi;
    let cphi = ring.cphi;
    let n = samples.len();
    // By place: three slices are read and one written; a `zip` over an `iter_mut` tells a proof of no element.
    for i in 0..n {
        js[i] = sample_at(p, t1, t2, samples[i], sphi[i], cphi[i]);
    }
}

// One sample more. The normal matrix is symmetric, so each entry is summed once.
fn packed(s: Sums, t: Sample) -> Sums
    ensures { result ≡ B.packed t s }
{
    Sums {
        r: s.r + 1.0 * t.r,
        q: s.q + 1.0 * t.q,
        d1: s.d1 + 1.0 * t.d1,
        d2: s.d2 + 1.0 * t.d2,
        rr: s.rr + t.r * t.r,
        rq: s.rq + t.r * t.q,
        rd1: s.rd1 + t.r * t.d1,
        rd2: s.rd2 + t.r * t.d2,
        qq: s.qq + t.q * t.q,
        qd1: s.qd1 + t.q * t.d1,
        qd2: s.qd2 + t.q * t.d2,
        d1d1: s.d1d1 + t.d1 * t.d1,
        d1d2: s.d1d2 + t.d1 * t.d2,
        d2d2: s.d2d2 + t.d2 * t.d2,
        n: s.n + 1.0 * 1.0,
    }
}

fn no_sums() -> Sums
    ensures { result ≡ B.no_sums }
{
    Sums {
        r: 0.0,
        q: 0.0,
        d1: 0.0,
        d2: 0.0,
        rr: 0.0,
        rq: 0.0,
        rd1: 0.0,
        rd2: 0.0,
        qq: 0.0,
        qd1: 0.0,
        qd2: 0.0,
        d1d1: 0.0,
        d1d2: 0.0,
        d2d2: 0.0,
        n: 0.0,
    }
}

// The sums of all samples, in their order.
fn add_up(js: &[Sample]) -> Sums
    ensures { B.spread result ≡ B.summed js.now }
{
    let mut s = no_sums();
    for t in js {
        s = packed(s, *t);
    }
    s
}

// One pass over the samples at the parameters p.
fn pass(ring: &Ring, p: Params, js: &mut [Sample]) -> Sums
    requires { length js.old ≡ length ring.now.samples.now }
    ensures { B.spread result ≡ S.pass (length ring.now.samples.now) p ring.now.samples.now ring.now.sphi.now ring.now.cphi.now }
{
    let t = elementary::sin_cos_two(p.theta1, p.theta2);
    let t1 = SinCos { s: t.s1, c: t.c1 };
    let t2 = SinCos { s: t.s2, c: t.c2 };
    fill(ring, p, t1, t2, js);
    add_up(js)
}

// The normal matrix: a mirrored entry is the same sum, since a product commutes.
fn matrix_of(s: Sums) -> [[f32; 4]; 4]
    ensures { result ≡ (B.spread s).m }
{
    [
        [s.n, s.q, s.d1, s.d2],
        [s.q, s.qq, s.qd1, s.qd2],
        [s.d1, s.qd1, s.d1d1, s.d1d2],
        [s.d2, s.qd2, s.d1d2, s.d2d2],
    ]
}

fn right_of(s: Sums) -> [f32; 4]
    ensures { result ≡ (B.spread s).v }
{
    [s.r, s.rq, s.rd1, s.rd2]
}

#[tactic(auto, unfolding(crate::specs::Solver::cut))]
fn cut(d: f32) -> f32
    ensures { result ≡ S.cut d }
{
    if floats::abs(d) > GN_MAX_ANGLE_STEP {
        return floats::signum(d) * GN_MAX_ANGLE_STEP;
    }
    d
}

#[tactic(auto, unfolding(crate::specs::Solver::small))]
fn is_small(d1: f32, d2: f32, d3: f32) -> bool
    ensures { result ≡ S.small d1 d2 d3 }
{
    floats::abs(d2) < GN_TOL && floats::abs(d3) < GN_TOL && floats::abs(d1) < 1e-4
}

fn moved(p: Params, d0: f32, d1: f32, d2: f32, d3: f32) -> Params
    ensures { result ≡ S.moved p d0 d1 d2 d3 }
{
    Params {
        mu: p.mu + d0,
        amp: p.amp + d1,
        theta1: p.theta1 + d2,
        theta2: p.theta2 + d3,
    }
}

// Where the updates stopped: the parameters, the last pass's sums, and the count.
#[derive(Drop)]
struct Run {
    p: Params,
    s: Sums,
    count: usize,
}

// Passes until six updates were made, the elimination fails or the steps are small. The last pass belongs to the final
// parameters.
fn run_updates(ring: &Ring, seed: Params, js: &mut [Sample]) -> Run
    requires { length js.old ≡ length ring.now.samples.now }
    ensures { B.final result.p result.s result.count ≡
        S.updates (length ring.now.samples.now) ring.now.samples.now ring.now.sphi.now ring.now.cphi.now seed }
{
    let mut p = seed;
    let mut count = 0usize;
    // Two calls, here and at the loop's end, keep `pass` a function of its own: put into the loop, its
    // sums were packed as the matrix is, at twice the instructions (measured on an older kit).
    let mut s = pass(ring, p, js);
    // Left by break and carrying the count: the form that this project names for the updates.
    loop {
        if count >= GN_MAX_ITERS {
            break;
        }
        let Some(d) = solver_elimination::solve_4x4(&matrix_of(s), &right_of(s)) else {
            break;
        };
        let c2 = cut(d[2]);
        let c3 = cut(d[3]);
        if is_small(d[1], c2, c3) {
            break;
        }
        p = moved(p, d[0], d[1], c2, c3);
        count += 1;
        s = pass(ring, p, js);
    }
    Run { p, s, count }
}

// A start that is not degenerate, once the sines and cosines are there. `js` is lent: a place for each sample, and of no
// meaning afterwards.
pub fn fit_prepared(ring: &Ring, seed: Params, js: &mut [Sample]) -> Started
    requires { length js.old ≡ length ring.now.samples.now }
    ensures { result ≡ R.start_from (length ring.now.samples.now)
        (S.updates (length ring.now.samples.now) ring.now.samples.now ring.now.sphi.now ring.now.cphi.now seed) }
{
    let run = run_updates(ring, seed, js);
    let s = run.s;
    solver_record::finished(run.p, &matrix_of(s), s.rr, ring.samples.len(), run.count)
}

// The buffers are lent: as long as the samples, and of no meaning afterwards.
pub fn fit_with_seed(
    samples: &[f32],
    ring_phi: &[f32],
    seed: Params,
    centered_var: f32,
    sphi: &mut [f32],
    cphi: &mut [f32],
    js: &mut [Sample],
) -> Started
    requires { B.StartRoom samples.now ring_phi.now sphi.old cphi.old js.old }
    ensures { result ≡ R.record_with_seed (length samples.now) samples.now ring_phi.now seed centered_var }
{
    if solver_record::is_degenerate(seed.amp, centered_var) {
        return solver_record::refused(centered_var, seed.mu);
    }
    let mut turned = [0.0f32; MAX_SAMPLES];
    let n = ring_phi.len();
    prepare(ring_phi, &mut turned[..n], sphi, cphi);
    fit_prepared(
        &Ring {
            samples,
            sphi,
            cphi,
        },
        seed,
        js,
    )
}
