// The square root of an f32, correctly rounded, for every f32. A guess made with floating-point steps is mended by comparing squares of whole numbers,
// so nothing is asked of the guess but that it is small enough for its square to fit.
#![tactic(auto)]

ghost use Rattle.std.specs.Prelude.{◌≡◌, ◌+◌, ◌*◌, ◌^◌, ◌<◌, ◌≤◌, false};
ghost use Rattle.std.specs.Float.{binary32};
ghost use Rattle.std.specs.Float.Ieee.{of_bits, units};
ghost use Rattle.floats.specs.Library.{root_units};
ghost use Rattle.floats.specs.Library as Library;

// A guess at the root of m * 2 ^ 23, or of twice that if `wide` is 1: right in all but 1.5 % of cases for an m of 24 digits, and then one off.
// A cubic for the root on 1 to 2, one step of Heron's, and the nearest whole number out of the low digits of a sum with 2 ^ 52.
fn guess(m: u32, wide: u32) -> u64
    ensures { result ≤ 33554432 }
{
    let w = m as f64 * 0.00000011920928955078125;
    let o = wide as f64;
    let g = (0.36995542 + w * (0.787925303 + w * (-0.182749078 + w * 0.024937747)))
        * (1.0 + o * 0.41421356);
    let y = (g + (w + o * w) / g) * 0.5;
    let k = y * 8388608.0 + 4503599627370496.0;
    if k >= 4503599627370496.0 && k < 4503599660924928.0 {
        return f64::to_bits(k) % 33554432;
    }
    8388608
}

// s * s, for an s of at most 25 digits
fn square(s: u64) -> u64
    requires { s ≤ 33554432 }
    ensures { (result ≡ s * s) × (result ≤ 1125899906842624) }
{
    s * s
}

// the whole number nearest to the root of n, from any guess g: the heart of the square root
// No range with `find` in these loops: each would answer an Option that is never None.
fn nearest_root(n: u64, g: u64) -> u64
    requires { (1 ≤ n) × (n < 281474976710656) × (g ≤ 33554432) }
    ensures { (n ≤ result * result + result) × (result * result < n + result) }
{
    let mut s = g;
    while n > square(s) + s {
        s += 1;
    }
    while n + s <= square(s) {
        s -= 1;
    }
    s
}

// p * 2 ^ h units, for a p of 24 digits, or the next power of two.
fn assembled(p: u64, h: u64) -> f32
    requires le_p { 8388608 ≤ p }
    requires p_bound { p ≤ 16777216 }
    requires h_bound { h < 200 }
    ensures { result ≡ units binary32 false p h }
{
    let b = h * 8388608 + p;
    f32::from_bits(b as u32)
}

// The root of m * 2 ^ (2 * h) units, from any guess g at the root of m.
fn root_even(m: u64, g: u64, h: u64) -> f32
    requires bound { 2 ^ 46 ≤ m }
    requires m_bound { m < 2 ^ 48 }
    requires g_bound { g ≤ 33554432 }
    requires h_bound { h < 200 }
    ensures { result ≡ root_units binary32 (m * (2 ^ h * 2 ^ h)) }
{
    assembled(nearest_root(m, g), h)
}

// The root of m * 2 ^ j units. Parity by arithmetic: a branch on it would be mispredicted half of the time.
fn root_parts(m: u64, j: u64) -> f32
    requires bound { 2 ^ 23 ≤ m }
    requires m_bound { m < 2 ^ 24 }
    requires le_j { 126 ≤ j }
    requires j_bound { j ≤ 402 }
    ensures { result ≡ root_units binary32 (m * 2 ^ j) }
{
    let wide = 1 - j % 2;
    let g = guess(m as u32, wide as u32);
    root_even(m * 8388608 * (1 + wide), g, (j - 23 - wide) / 2)
}

// The root of a subnormal value, t units: t is brought to 24 digits first.
fn root_small(t: u64) -> f32
    requires t_nonzero { 0 < t }
    requires t_bound { t < 2 ^ 23 }
    ensures { result ≡ root_units binary32 (t * 2 ^ 149) }
{
    let i = 23 - t.ilog2() as u64;
    root_parts(t << i, 149 - i)
}

fn root_bits(b: u32) -> f32
    requires b_nonzero { 0 < b }
    requires b_bound { b < 0x7f800000 }
    ensures { result ≡ Library.sqrt binary32 (of_bits binary32 b) }
{
    let e = b / 8388608;
    let t = b % 8388608;
    if e == 0 {
        return root_small(t as u64);
    }
    root_parts((8388608 + t) as u64, e as u64 + 148)
}

pub fn sqrt(x: f32) -> f32
    ensures { result ≡ Library.sqrt binary32 x }
{
    if x != x {
        return x;
    }
    if x == 0.0 {
        return x;
    }
    if x < 0.0 {
        let z = 0.0;
        return z / z;
    }
    let b = f32::to_bits(x);
    if b == 0x7f800000 {
        return x;
    }
    root_bits(b)
}
