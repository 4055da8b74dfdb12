// Two axes brought into their canonical form: ring_fit/solver.rs, wrap_to_tau, canonicalize and
// canonicalize_tracking_swap. The ring and the disk both go through here.
#![tactic(auto)]

ghost use Rattle.std.specs.Prelude.{◌≡◌};
ghost use Rattle.solver_axes.specs.Canonical as C;

// Both axes, the amplitude, and whether the axes were exchanged.
#[derive(Drop)]
pub struct Axes {
    pub theta1: f32,
    pub theta2: f32,
    pub amp: f32,
    pub swapped: bool,
}

pub fn wrap_to_tau(x: f32) -> f32
    ensures value { result ≡ C.wrap_to_tau x }
    ensures wrapped_tau { C.WrappedTau x result }
{
    let r = remainders::rem_euclid_tau(x);
    if floats::is_finite(r) {
        return r;
    }
    0.0
}

#[tactic(auto, unfolding(crate::specs::Canonical::arc))]
fn arc(from: f32, to: f32) -> f32
    ensures { result ≡ C.arc from to }
{
    remainders::rem_euclid_tau(to - from)
}

#[tactic(auto, unfolding(crate::specs::Canonical::placed))]
fn placed(t: f32, d: f32, a: f32, w: bool) -> Axes
    ensures { result ≡ C.placed t d a w }
{
    let t1 = remainders::rem_euclid_pi(t);
    Axes {
        theta1: t1,
        theta2: t1 + d,
        amp: a,
        swapped: w,
    }
}

// Exchanging the axes is the one way to the short arc that leaves the model as it is.
#[tactic(auto, unfolding(crate::specs::Canonical::axes_settled))]
fn axes_settled(t1: f32, t2: f32, a: f32) -> Axes
    ensures { result ≡ C.axes_settled t1 t2 a }
{
    let diff = arc(t1, t2);
    if diff >= floats::PI {
        return placed(t2, arc(t2, t1), a, true);
    }
    placed(t1, diff, a, false)
}

// An axis turned by PI with the amplitude negated is the same model.
pub fn canonicalize_tracking_swap(theta1: f32, theta2: f32, amp: f32) -> Axes
    ensures value { result ≡ C.canonicalize_tracking_swap theta1 theta2 amp }
    ensures canonical_range { C.CanonicalRange result.theta1 result.theta2 result.amp }
{
    let t1 = wrap_to_tau(theta1);
    let t2 = wrap_to_tau(theta2);
    if amp < 0.0 {
        return axes_settled(wrap_to_tau(t1 + floats::PI), t2, -amp);
    }
    axes_settled(t1, t2, amp)
}
