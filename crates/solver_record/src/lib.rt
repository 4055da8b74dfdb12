// The record of a start's fit: ring_fit/solver.rs, degenerate_fit, the test before it, and what fit_with_seed answers where its
// updates stopped.
#![tactic(auto)]

ghost use Rattle.std.specs.Prelude.{◌≡◌, ◌^◌, ◌<◌};
ghost use Rattle.solver_record.specs.Fit as F;
ghost use Rattle.solver_record.specs.Record as R;

use solver_axes::Axes;
use solver_errors::{Errors, Standing};

// A start below either of these has no contrast to fit.
const MIN_AMP_SEED: f32 = 1e-4;

const MIN_CENTERED_VAR: f32 = 1e-6;

// Result of the parametric two-axis intensity fit: the amplitude, both axes, their standard errors
// and the residual; and the fitted mean, which the Rust drops.
#[derive(Clone, Copy)]
pub struct TwoAxisFit {
    pub amp: f32,
    pub theta1: f32,
    pub theta2: f32,
    pub fit_std_error_theta1: f32,
    pub fit_std_error_theta2: f32,
    pub rms: f32,
    pub mean: f32,
}

// A start's fit, the standing of its errors, and how many updates it made.
#[derive(Clone, Copy)]
pub struct Started {
    pub fit: TwoAxisFit,
    pub standing: Standing,
    pub updates: usize,
}

// The four parameters of the model.
#[derive(Clone, Copy)]
pub struct Params {
    pub mu: f32,
    pub amp: f32,
    pub theta1: f32,
    pub theta2: f32,
}

#[tactic(auto, unfolding(crate::specs::Record::degenerate_record, crate::specs::Fit::degenerate_fit))]
pub fn degenerate_fit(centered_var: f32, mean: f32) -> TwoAxisFit
    ensures { result ≡ R.degenerate_record centered_var mean }
{
    TwoAxisFit {
        amp: 0.0,
        theta1: 0.0,
        theta2: floats::HALF_PI,
        fit_std_error_theta1: floats::PI,
        fit_std_error_theta2: floats::PI,
        rms: roots::sqrt(floats::max(centered_var, 0.0)),
        mean,
    }
}

// A start that is degenerate: no update, the seed's mean, and nothing is known of the errors.
pub fn refused(centered_var: f32, mean: f32) -> Started
    ensures { result ≡ R.refused centered_var mean }
{
    let fit = degenerate_fit(centered_var, mean);
    let standing = solver_errors::unfounded();
    Started {
        fit,
        standing,
        updates: 0,
    }
}

#[tactic(auto, unfolding(crate::specs::Fit::degenerate))]
pub fn is_degenerate(amp: f32, centered_var: f32) -> bool
    ensures { result ≡ F.degenerate amp centered_var }
{
    !floats::is_finite(amp) || floats::abs(amp) < MIN_AMP_SEED || centered_var < MIN_CENTERED_VAR
}

// The errors follow their axes where these were exchanged.
#[tactic(auto, unfolding(crate::specs::Fit::assembled))]
fn assembled(a: Axes, e: Errors, rms: f32, mean: f32) -> TwoAxisFit
    ensures { result ≡ R.with_mean (F.assembled a e rms) mean }
{
    if a.swapped {
        return TwoAxisFit {
            amp: a.amp,
            theta1: a.theta1,
            theta2: a.theta2,
            fit_std_error_theta1: e.error2,
            fit_std_error_theta2: e.error1,
            rms,
            mean,
        };
    }
    TwoAxisFit {
        amp: a.amp,
        theta1: a.theta1,
        theta2: a.theta2,
        fit_std_error_theta1: e.error1,
        fit_std_error_theta2: e.error2,
        rms,
        mean,
    }
}

// The record at the final parameters, with the matrix and the sum of squares of their pass.
#[tactic(auto, unfolding(crate::specs::Fit::finished))]
pub fn finished(p: Params, jtj: &[[f32; 4]; 4], ssr: f32, n: usize, updates: usize) -> Started
    requires { n < 2 ^ 32 }
    ensures { result ≡ R.start_of n p jtj.now ssr updates }
{
    let e = solver_errors::axis_std_errors(jtj, ssr, n);
    let errors = e.errors;
    let standing = e.standing;
    let rms = roots::sqrt(ssr / floats::count_f32(n));
    let a = solver_axes::canonicalize_tracking_swap(p.theta1, p.theta2, p.amp);
    let fit = assembled(a, errors, rms, p.mu);
    Started {
        fit,
        standing,
        updates,
    }
}
