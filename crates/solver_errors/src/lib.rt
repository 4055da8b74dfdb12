// The standard errors of the two axes, and whether they are known: ring_fit/solver.rs, axis_std_errors. Both right sides go
// through one elimination.
#![tactic(auto)]

ghost use Rattle.std.specs.Prelude.{◌≡◌, ◌^◌, ◌<◌};
ghost use Rattle.solver_elimination.specs.Solve.{solve4x4, unit2, unit3};
ghost use Rattle.solver_errors.specs.StdErrors as S;
ghost use Rattle.solver_errors.specs.Parts as P;

// The standard errors of the two axes.
#[derive(Clone, Copy)]
pub struct Errors {
    pub error1: f32,
    pub error2: f32,
}

// What is to be said of a fit's errors beside their numbers: whether they are known. Callers hand it on whole, so that what
// is to be said besides needs a place here and none of its own in their records.
#[derive(Clone, Copy)]
pub struct Standing {
    pub known: bool,
}

// No Option: the errors are answered as numbers also where they are not known, as in the Rust.
// Errors with their standing.
#[derive(Clone, Copy)]
pub struct Estimate {
    pub errors: Errors,
    pub standing: Standing,
}

#[tactic(auto, unfolding(crate::specs::StdErrors::axis_error))]
fn axis_error(v: f32, c: f32) -> f32
    ensures { result ≡ S.axis_error v c }
{
    floats::min(roots::sqrt(v * floats::max(c, 0.0)), floats::PI)
}

pub fn unfounded() -> Standing
    ensures { result ≡ S.unfounded }
{
    Standing { known: false }
}

// No errors to be had: PI stands in their place.
fn no_estimate() -> Estimate
    ensures { result ≡ P.no_estimate }
{
    let errors = Errors {
        error1: floats::PI,
        error2: floats::PI,
    };
    let standing = unfounded();
    Estimate { errors, standing }
}

// The residual sum and the two entries on the inverse's diagonal, as the elimination left them.
#[tactic(auto, unfolding(crate::specs::StdErrors::standing_by))]
fn standing_by(ssr: f32, c2: f32, c3: f32) -> Standing
    ensures { result ≡ S.standing_by ssr c2 c3 }
{
    let known = floats::is_finite(ssr) & (floats::is_finite(c2) & floats::is_finite(c3));
    Standing { known }
}

// Of the inverse the two columns that matter, by one elimination: a failure answers PI.
fn both_errors(jtj: &[[f32; 4]; 4], ssr: f32, v: f32) -> Estimate
    ensures { result ≡ P.both_estimated ssr v (solve4x4 jtj.now unit2) (solve4x4 jtj.now unit3) }
{
    let sides = solver_elimination::eliminate(jtj, 0.0, 0.0, 1.0, 0.0, 0.0, 0.0, 0.0, 1.0);
    let Some(sides) = sides else {
        return no_estimate();
    };
    let c2 = sides.first[2];
    let c3 = sides.second[3];
    let error1 = axis_error(v, c2);
    let error2 = axis_error(v, c3);
    let errors = Errors { error1, error2 };
    let standing = standing_by(ssr, c2, c3);
    Estimate { errors, standing }
}

#[tactic(auto, unfolding(crate::specs::StdErrors::axis_std_errors, crate::specs::StdErrors::standing))]
pub fn axis_std_errors(jtj: &[[f32; 4]; 4], ssr: f32, n: usize) -> Estimate
    requires { n < 2 ^ 32 }
    ensures { result ≡ S.estimate jtj.now ssr n }
{
    if n <= 4 {
        return no_estimate();
    }
    both_errors(jtj, ssr, ssr / floats::count_f32(n - 4))
}
