// Angles of undirected lines, modulo PI: disk_sector/geometry.rs, and its twin in ring_fit/seed.rs.
#![tactic(auto)]

ghost use Rattle.std.specs.Prelude.{◌≡◌};
ghost use Rattle.std.specs.Float.Ieee.{neg};
ghost use Rattle.floats.specs.Ops.{◌⊕◌, ◌⊖◌, nought, pi, half_pi};
ghost use Rattle.geometry.specs.Geometry as G;

pub fn wrap_pi(a: f32) -> f32
    ensures value { result ≡ G.wrap_pi a }
    ensures wrapped_between { G.WrappedBetween nought pi a result }
{
    remainders::rem_euclid_pi(a)
}

pub fn signed_line_delta(a: f32, b: f32) -> f32
    ensures value { result ≡ G.signed_line_delta a b }
    ensures wrapped_between { G.WrappedBetween (neg half_pi) half_pi (a ⊖ b ⊕ half_pi) result }
{
    remainders::rem_euclid_pi(a - b + floats::HALF_PI) - floats::HALF_PI
}

pub fn line_delta(a: f32, b: f32) -> f32
    ensures value { result ≡ G.line_delta a b }
    ensures wrapped_between { G.WrappedBetween nought half_pi (a ⊖ b ⊕ half_pi) result }
{
    floats::abs(signed_line_delta(a, b))
}

pub fn line_separation(a0: f32, a1: f32) -> f32
    ensures value { result ≡ G.line_separation a0 a1 }
    ensures wrapped_between { G.WrappedBetween nought half_pi (a0 ⊖ a1 ⊕ half_pi) result }
{
    line_delta(a0, a1)
}

pub fn pair_disagreement(a0: f32, a1: f32, b0: f32, b1: f32) -> f32
    ensures { result ≡ G.pair_disagreement a0 a1 b0 b1 }
{
    let direct = floats::max(line_delta(a0, b0), line_delta(a1, b1));
    let swapped = floats::max(line_delta(a0, b1), line_delta(a1, b0));
    floats::min(direct, swapped)
}

// 12 and 89.5 degrees, both included.
pub fn valid_pair(a0: f32, a1: f32) -> bool
    ensures { result ≡ G.valid_pair a0 a1 }
{
    let sep = line_separation(a0, a1);
    let from = floats::to_radians(12.0);
    let to = floats::to_radians(89.5);
    sep >= from && sep <= to
}
