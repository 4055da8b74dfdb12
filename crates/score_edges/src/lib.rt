// How well the gradients agree with a line: the edge sums of score.rs, precompute_edge_alignments,
// and of search.rs, build_axis_rows. Terms go into a lent row first and are added afterwards in the
// order of the pixels: the same bits, and the terms become vector code.
#![tactic(auto)]

ghost use Rattle.std.specs.Prelude.{◌≡◌, true, Float, length};
ghost use Rattle.score_edges.specs.Edges as E;
ghost use Rattle.score_edges.specs.NearLaws as N;

// 4.0_f32.to_radians(): the law `sigma_is`.
const SIGMA: f32 = 0.0698131695;

// 1.0 / (2.0 * SIGMA * SIGMA): the law `inv_2sigma2_is`.
const INV_2SIGMA2: f32 = 102.5877;

fn ordered_sum(row: &[f32]) -> f32
    ensures { result ≡ E.ordered_sum (length row.now) row.now }
{
    let mut s = 0.0f32;
    for term in row {
        s += *term;
    }
    s
}

pub fn edge_weight_total(grad_weights: &[f32]) -> f32
    ensures { result ≡ E.edge_weight_total (length grad_weights.now) grad_weights.now }
{
    ordered_sum(grad_weights)
}

// How a gradient of weight w counts for a line from whose direction it differs by d.
pub trait Gaussian {
    ghost term: { Float → Float → Float };

    fn term(w: f32, d: f32) -> f32
        ensures { result ≡ term w d };
}

// The Gaussian of the ranking.
pub struct Ranking;

impl Gaussian for Ranking {
    ghost term = { E.ranked_term };

    // A negated square is not above 0, where `exp` and `exp_neg` are one.
    fn term(w: f32, d: f32) -> f32 {
        w * elementary::exp_neg(-d * d * INV_2SIGMA2)
    }
}

// The Gaussian of the refinement: of the same value in exact arithmetic, but rounded apart.
pub struct Refinement;

impl Gaussian for Refinement {
    ghost term = { E.refined_term };

    fn term(w: f32, d: f32) -> f32 {
        w * elementary::exp_neg(-0.5 * (d / SIGMA) * (d / SIGMA))
    }
}

fn less_pi(x: f32) -> f32
    ensures { result ≡ N.less_pi x }
{
    if x >= floats::PI {
        return x - floats::PI;
    }
    if x <= -floats::PI {
        return x + floats::PI;
    }
    x
}

fn raised_pi(r: f32) -> f32
    ensures { result ≡ N.raised_pi r }
{
    if r < 0.0 {
        return r + floats::PI;
    }
    r
}

// `signed_line_delta` without `%`, for an x = a - b + PI/2 between -TAU and TAU.
fn near_delta(x: f32) -> f32
    ensures { result ≡ N.near_delta x }
{
    raised_pi(less_pi(x)) - floats::HALF_PI
}

// 1 where x is not between -TAU and TAU.
fn far(x: f32) -> usize
    ensures { result ≡ N.far_count x }
{
    usize::from(!((-floats::TAU < x) & (x < floats::TAU)))
}

// Counted, and no `all` or flag: with neither an early end nor a branch the loop can be vector code.
// Whether every difference can be found without `%`.
fn all_near(grad_angles: &[f32], theta: f32) -> bool
    ensures { result ≡ true → N.AllNear (length grad_angles.now) grad_angles.now theta }
{
    let mut count = 0usize;
    for angle in grad_angles {
        count += far(*angle - theta + floats::HALF_PI);
    }
    count == 0
}

// Slices and no Disk, here and below: these need two of its five, and no bound on their length.
// The terms of the gradients, where every difference can be found without `%`. By place: two rows are read and the third written in step.
fn near_terms<G: Gaussian>(grad_angles: &[f32], grad_weights: &[f32], theta: f32, terms: &mut [f32])
    requires { (length grad_weights.now ≡ length grad_angles.now) × (length terms.old ≡ length grad_angles.now) }
    ensures { terms.new ≡ N.near_terms G.term (length grad_angles.now) grad_angles.now grad_weights.now theta }
{
    // By place: after a `zip` over an `iter_mut` a proof knows no element, and the contract speaks of each.
    for p in 0..grad_angles.len() {
        let d = near_delta(grad_angles[p] - theta + floats::HALF_PI);
        terms[p] = G::term(grad_weights[p], d);
    }
}

// Two loops: with the test inside, the loop of the usual angles would have the call of `%` in it.
// The same of any differences.
fn far_terms<G: Gaussian>(grad_angles: &[f32], grad_weights: &[f32], theta: f32, terms: &mut [f32])
    requires { (length grad_weights.now ≡ length grad_angles.now) × (length terms.old ≡ length grad_angles.now) }
    ensures { terms.new ≡ N.far_terms G.term (length grad_angles.now) grad_angles.now grad_weights.now theta }
{
    // By place, for the same reason.
    for p in 0..grad_angles.len() {
        let d = geometry::signed_line_delta(grad_angles[p], theta);
        terms[p] = G::term(grad_weights[p], d);
    }
}

// The edge sum of a line at theta; `terms` is lent as scratch.
pub fn edge_sum<G: Gaussian>(
    grad_angles: &[f32],
    grad_weights: &[f32],
    theta: f32,
    terms: &mut [f32],
) -> f32
    requires { (length grad_weights.now ≡ length grad_angles.now) × (length terms.old ≡ length grad_angles.now) }
    ensures { result ≡ E.edge_sum G.term (length grad_angles.now) grad_angles.now grad_weights.now theta }
{
    if all_near(grad_angles, theta) {
        near_terms::<G>(grad_angles, grad_weights, theta, terms);
    } else {
        far_terms::<G>(grad_angles, grad_weights, theta, terms);
    }
    ordered_sum(terms)
}
