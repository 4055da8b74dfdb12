// Rust's `%` and `rem_euclid` by PI and by TAU, for every f32, from bits and whole numbers: C's fmodf is not called.
// PI is 13176795 * 2 ^ -22 and TAU is twice that, so a remainder is one of whole numbers by 13176795.
#![tactic(auto)]

ghost use Rattle.std.specs.Prelude.{◌≡◌, false, cond, ◌+◌, ◌*◌, ◌%◌, ◌^◌, ◌<◌, ◌≤◌};
ghost use Rattle.std.specs.Float.{binary32};
ghost use Rattle.std.specs.Float.Ieee.{lt, rem};
ghost use Rattle.floats.specs.Ops.{◌⊕◌, nought, pi, tau};
ghost use Rattle.floats.specs.Library.{rem_euclid};
ghost use Rattle.floats.specs.UnitLaws.{Val};
ghost use Rattle.remainders.specs.RemainderLaws.{within, modulus};

// PI is q = 0 and TAU is q = 1, no enum: q stands in exponents, as the power of two between the two.
// m * 2 ^ k less the multiples of 13176795, 32 digits at a time so that a product fits.
fn reduced(m: u64, k: u64) -> u64
    requires { m < 2 ^ 24 }
    ensures { result ≡ m * 2 ^ k % 13176795 }
{
    let mut n = m;
    for _ in 0..k / 32 {
        n = n * 4294967296 % 13176795;
    }
    (n << (k % 32)) % 13176795
}

// One step of the remainders by PI (q is 0) or by TAU (q is 1), with the sign of x.
fn step(x: f32, q: u32) -> f32
    requires { q ≤ 1 }
    ensures { Val binary32 result (lt x nought) (2 ^ (127 + q)) }
{
    if q == 0 {
        if x < 0.0 {
            return -0.0000002384185791015625;
        }
        return 0.0000002384185791015625;
    }
    if x < 0.0 {
        return -0.000000476837158203125;
    }
    0.000000476837158203125
}

// The remainder of an x that is at least the divisor in size, or a NaN: x is a whole number of steps, and so is the remainder.
fn rem_far(x: f32, q: u32) -> f32
    requires q_bound { q ≤ 1 }
    requires x_value { within (modulus q) x ≡ false }
    ensures { result ≡ rem binary32 x (modulus q) }
{
    let d = x - x;
    if d != d {
        return d;
    }
    let b = f32::to_bits(x) % 0x80000000;
    let m = 8388608 + b % 8388608;
    let k = b / 8388608 - 128 - q;
    reduced(m as u64, k as u64) as f32 * step(x, q)
}

// PI or TAU.
fn divisor(q: u32) -> f32
    requires { q ≤ 1 }
    ensures { result ≡ modulus q }
{
    if q == 0 {
        return floats::PI;
    }
    floats::TAU
}

// The remainder by PI (Q is 0) or by TAU (Q is 1).
fn rem_by<const Q: u32>(x: f32) -> f32
    requires { Q ≤ 1 }
    ensures { result ≡ rem binary32 x (modulus Q) }
{
    let d = divisor(Q);
    if -d < x && x < d {
        return x;
    }
    rem_far(x, Q)
}

// A remainder r by PI or TAU, and the divisor added where r is below zero.
fn raised<const Q: u32>(r: f32) -> f32
    requires { Q ≤ 1 }
    ensures { result ≡ cond (lt r nought) (r ⊕ modulus Q) r }
{
    if r < 0.0 {
        return r + divisor(Q);
    }
    r
}

// Four names over two functions: they are promised, and ask nothing, where the generic ones ask of Q.
pub fn rem_pi(x: f32) -> f32
    ensures { result ≡ rem binary32 x pi }
{
    rem_by::<0>(x)
}

pub fn rem_tau(x: f32) -> f32
    ensures { result ≡ rem binary32 x tau }
{
    rem_by::<1>(x)
}

pub fn rem_euclid_pi(x: f32) -> f32
    ensures { result ≡ rem_euclid binary32 x pi }
{
    raised::<0>(rem_pi(x))
}

pub fn rem_euclid_tau(x: f32) -> f32
    ensures { result ≡ rem_euclid binary32 x tau }
{
    raised::<1>(rem_tau(x))
}
