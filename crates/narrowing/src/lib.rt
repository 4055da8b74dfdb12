// An f64 to the nearest f32, ties to the even one, for every f64: the lossy cast, which `as` does not have.
#![tactic(auto)]

ghost use Rattle.std.specs.Prelude.{◌≡◌, ◌^◌, ◌<◌, ◌≤◌};
ghost use Rattle.std.specs.Float.{binary64};
ghost use Rattle.std.specs.Float.Ieee.{of_bits};
ghost use Rattle.std.specs.Float.Ieee.Nearest.{closest};
ghost use Rattle.floats.specs.Library as Library;

// m / d to the nearest whole number, a tie to the even one.
fn rounded(m: u64, d: u64) -> u64
    requires d_nonzero { 0 < d }
    requires d_bound { d < 2 ^ 62 }
    requires m_bound { m < 2 ^ 62 }
    ensures { result ≡ closest m d }
{
    let q = m / d;
    let r = m % d;
    if r * 2 > d {
        return q + 1;
    }
    if r * 2 == d {
        return q + q % 2;
    }
    q
}

fn power(s: u64) -> u64
    requires { s < 62 }
    ensures { result ≡ 2 ^ s }
{
    1 << s
}

// The value of the pattern b, which has no sign's bit and is no NaN's.
fn narrow_bits(b: u64) -> f32
    requires { b ≤ 0x7ff0000000000000 }
    ensures { result ≡ Library.narrow (of_bits binary64 b) }
{
    let e = b / 4503599627370496;
    if e < 872 {
        return 0.0;
    }
    if e > 1150 {
        return f32::from_bits(0x7f800000);
    }
    let m = 4503599627370496 + b % 4503599627370496;
    if e < 897 {
        let q = rounded(m, power(926 - e));
        return f32::from_bits(q as u32);
    }
    let q = rounded(m, 536870912);
    let p = (e - 897) * 8388608 + q;
    f32::from_bits(p as u32)
}

pub fn narrow(x: f64) -> f32
    ensures { result ≡ Library.narrow x }
{
    if x != x {
        let z: f32 = 0.0;
        return z / z;
    }
    let b = f64::to_bits(x);
    if b < 0x8000000000000000 {
        return narrow_bits(b);
    }
    -narrow_bits(b - 0x8000000000000000)
}
