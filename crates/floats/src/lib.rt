// What Rust's library does on f32 and f64, each function proved equal to its definition in
// specs/Library.antt for every value: NaN, infinities, both zeros and subnormals.
#![tactic(auto)]

ghost use Rattle.std.specs.Prelude.{◌≡◌, ◌^◌, ◌<◌, true, pos, from_bits, to_bits};
ghost use Rattle.std.specs.Float.{binary32, binary64};
ghost use Rattle.std.specs.Float.Ieee.{eq, of_int};
ghost use Rattle.std.specs.Float.Ieee.Scale.{finite};
ghost use Rattle.floats.specs.Library as L;

// The constants are those of specs/Ops.antt, where each is its bit pattern.
pub const PI: f32 = 3.14159274;

pub const TAU: f32 = 6.2831855;

pub const HALF_PI: f32 = 1.57079637;

pub const QUARTER_PI: f32 = 0.785398185;

// The bins of a histogram of line angles, from 0 to PI.
pub const HIST_BINS: usize = 72;

// 0 - x is +0 at both zeros. Where the result is compared this compiles to one instruction.
pub fn abs(x: f32) -> f32
    ensures { result ≡ L.abs x }
{
    if x > 0.0 {
        return x;
    }
    0.0 - x
}

// An infinity less itself is a NaN, and so is a NaN; what is finite leaves a zero.
pub fn is_finite(x: f32) -> bool
    ensures { result ≡ finite x }
{
    let d = x - x;
    d == d
}

pub fn signum(x: f32) -> f32
    ensures { result ≡ L.signum x }
{
    if x != x {
        return x;
    }
    if x < 0.0 {
        return -1.0;
    }
    if x == 0.0 {
        return zero_signum(x);
    }
    1.0
}

// The reciprocal of -0 is below zero, that of +0 is not.
fn zero_signum(x: f32) -> f32
    requires { eq x (from_bits binary32 0) ≡ true }
    ensures { result ≡ L.signum x }
{
    if 1.0 / x < 0.0 {
        return -1.0;
    }
    1.0
}

// Of two equal numbers either will do, but of two zeros +0 is the greater: their sum is +0 unless
// both are -0. One text for both formats: a type parameter's comparisons say nothing of a NaN, so that one
// function would need a trait of its own.
macro_rules! greater {
    ($x:ident, $y:ident) => {{
        if $x != $x {
            return $y;
        }
        if $y != $y {
            return $x;
        }
        if $x < $y {
            return $y;
        }
        if $x == $y && $x == 0.0 {
            return $x + $y;
        }
        $x
    }};
}

pub fn max(x: f32, y: f32) -> f32
    ensures { result ≡ L.max x y }
{
    greater!(x, y)
}

pub fn max_f64(x: f64, y: f64) -> f64
    ensures { result ≡ L.max x y }
{
    greater!(x, y)
}

pub fn min(x: f32, y: f32) -> f32
    ensures { result ≡ L.min x y }
{
    if x != x {
        return y;
    }
    if y != y {
        return x;
    }
    if y < x {
        return y;
    }
    if y == x && y == 0.0 {
        return -(-x + -y);
    }
    x
}

pub fn to_radians(x: f32) -> f32
    ensures { result ≡ L.to_radians x }
{
    x * 0.0174532924
}

// A key and no `total_cmp`: the function lines answer the key itself.
// `a.total_cmp(&b)` is the order of `total_key(a)` and `total_key(b)`.
pub fn total_key(x: f32) -> u32
    ensures { result ≡ L.total_key x }
{
    if x != x {
        return 0xffc00000;
    }
    let b = f32::to_bits(x);
    if b < 0x80000000 {
        return b + 0x80000000;
    }
    0xffffffff - b
}

// The saturating cast drops the fraction and takes what is below zero to 0, so `floor` is idle
// before it.
pub fn bin_of(angle: f32) -> usize
    ensures value { result ≡ L.bin angle }
    ensures upper_bound { result < L.hist_bins }
{
    let v = angle / PI * count_f32(HIST_BINS);
    if v > -1.0 {
        if v < 18446744073709551616.0 {
            let n = std::num::truncating_f32_to_u64(v);
            return n as usize % HIST_BINS;
        }
        return 15;
    }
    0
}

// A NaN, whose sign and digits Rust leaves open, is 7fc00000.
pub fn to_bits(x: f32) -> u32
    ensures { result ≡ to_bits binary32 x }
{
    if x != x {
        return 0x7fc00000;
    }
    f32::to_bits(x)
}

// Every NaN pattern is the one NaN.
pub fn from_bits(w: u32) -> f32
    ensures { result ≡ from_bits binary32 w }
{
    if w % 0x80000000 > 0x7f800000 {
        return 0.0 / 0.0;
    }
    f32::from_bits(w)
}

// Not one function with `from_bits`: two lines each, which share no constant and no call.
pub fn from_bits_f64(w: u64) -> f64
    ensures { result ≡ from_bits binary64 w }
{
    if w % 0x8000000000000000 > 0x7ff0000000000000 {
        return 0.0 / 0.0;
    }
    f64::from_bits(w)
}

// The wider format holds every f32, the NaN too: the value stays what it is.
pub fn widen(x: f32) -> f64
    ensures { result ≡ x }
{
    std::num::f32_to_f64_with_nan(x)
}

pub fn count_f32(n: usize) -> f32
    requires { n < 2 ^ 32 }
    ensures { result ≡ of_int binary32 (pos n) }
{
    std::num::nearest_u32_to_f32(n as u32)
}

// Not one function with `count_f32`: each is one call of the library, which has one a format.
pub fn count_f64(n: usize) -> f64
    ensures { result ≡ of_int binary64 (pos n) }
{
    std::num::nearest_u64_to_f64(n as u64)
}
