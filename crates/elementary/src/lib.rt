// sin, cos, tanh, exp and atan2 in fixed steps, each proved equal to its definition in
// specs/Elementary.antt. Only f32 `+ - * /`, comparisons and selects, so that a loop over pixels
// becomes vector code; the one look at bits is `scale`.
#![tactic(auto)]

ghost use Rattle.std.specs.Prelude.{◌≡◌, not, T};
ghost use Rattle.std.specs.Float.Ieee.{is_nan};
ghost use Rattle.elementary.specs.Elementary as E;

// Four functions: the order of a comparison says what a NaN gives, and one with a closure for it would hide just that.
// Selects that pass a NaN on. Each branch returns: two in a row compile to `minps` and `maxps`.
fn capped(x: f32, top: f32) -> f32
    ensures { result ≡ E.capped x top }
{
    if x > top {
        return top;
    }
    x
}

fn raised(x: f32, bottom: f32) -> f32
    ensures { result ≡ E.raised x bottom }
{
    if x < bottom {
        return bottom;
    }
    x
}

// Selects that turn a NaN into the end: what `scale` is given has passed a test, or is a constant.
fn above(x: f32, bottom: f32) -> f32
    ensures { result ≡ E.above x bottom }
{
    if x > bottom {
        return x;
    }
    bottom
}

fn under(x: f32, top: f32) -> f32
    ensures { result ≡ E.under x top }
{
    if x < top {
        return x;
    }
    top
}

fn unit(y: f32) -> f32
    ensures { result ≡ E.unit y }
{
    raised(capped(y, 1.0), -1.0)
}

fn scale(t: f32) -> f32
    requires { T (not (is_nan t)) }
    ensures { result ≡ E.scale t }
{
    let b = f32::to_bits(t);
    f32::from_bits((b % 256) * 8388608)
}

// To the nearest whole number, with no cast.
fn whole(v: f32) -> f32
    ensures { result ≡ E.whole v }
{
    (v + 12582912.0) - 12582912.0
}

fn tanh_rest(l: f32, r: f32) -> f32
    ensures { result ≡ E.tanh_rest l r }
{
    let z = r * r;
    let q = z * (0.333331883 + z * -0.0221048966) - l * r;
    r - (r * q + 0.0) / (1.0 + q)
}

pub fn tanh(x: f32) -> f32
    ensures { result ≡ E.tanh x }
{
    let a = raised(capped(x, 9.25), -9.25);
    let t = x * 2.75 + 12583039.0;
    let v = under(above(t, 12583016.0), 12583062.0);
    let r = a - (v - 12583039.0) * 0.34657359;
    let s = scale(v);
    let l = (1.0 - s) / (1.0 + s);
    let h = tanh_rest(l, r);
    unit((1.0 - l * l) * h - l)
}

fn exp_rest(h: f32, l: f32) -> f32
    ensures { result ≡ E.exp_rest h l }
{
    let r = h - l;
    let e = 0.49999994
        + r * (0.166665196 + r * (0.0416684002 + r * (0.00836885069 + r * 0.00138143206)));
    1.0 + (h + ((r * r) * e - l))
}

// exp of an x that is not above 0, or a NaN. The cut at -87.33654 keeps subnormal products, thirty
// times as slow as others, off the common path.
pub fn exp_neg(x: f32) -> f32
    ensures { result ≡ E.exp_neg x }
{
    let z = raised(x, -87.3365402);
    let t = z * 1.44269502 + 12583039.0;
    let u = above(t, 12582912.0);
    let k = t - 12583039.0;
    let p = exp_rest(z - k * 0.693145752, k * 0.00000142860677);
    let w = raised(capped(p * scale(u), 1.0), 0.0);
    if x < -87.3365402 {
        return 0.0;
    }
    w
}

pub fn exp(x: f32) -> f32
    ensures { result ≡ E.exp x }
{
    if x > 0.0 {
        return 1.0 / exp_neg(-x);
    }
    exp_neg(x)
}

#[derive(Clone, Copy)]
pub struct SinCos {
    pub s: f32,
    pub c: f32,
}

fn sin_rest(r: f32, l: f32) -> f32
    ensures { result ≡ E.sin_rest r l }
{
    let z = r * r;
    r - ((r * z) * (0.166666552 + z * (-0.00833216868 + z * 0.000195160115)) + l)
}

fn cos_rest(r: f32, l: f32) -> f32
    ensures { result ≡ E.cos_rest r l }
{
    let z = r * r;
    let y = 0.5 * z;
    let w = 1.0 - y;
    w + (((1.0 - w) - y)
        + ((z * z) * (0.0416666456 + z * (-0.00138873549 + z * 0.0000244370076)) + r * l))
}

fn quadrant(k: f32, sr: f32, cr: f32) -> SinCos
    ensures { result ≡ E.quadrant k sr cr }
{
    let m = whole(k * 0.5);
    let e = (m + m) - k;
    let n = whole(m * 0.5);
    let p = m - (n + n);
    let a = (1.0 - (p * p + p * p)) - e * e;
    SinCos {
        s: unit(a * sr - e * cr),
        c: unit(a * cr + e * sr),
    }
}

// For an x up to 64 in size. Loops over angles call this one, since `%` in `turn` is a call.
pub fn sin_cos_near(x: f32) -> SinCos
    ensures { result ≡ E.sin_cos_near x }
{
    let k = whole(x * 0.636619747);
    let h = x - k * 1.57079315;
    let g = k * 0.00000317493686;
    let r = h - g;
    let l = (g - (h - r)) + k * 0.00000000000256334407;
    quadrant(k, sin_rest(r, l), cos_rest(r, l))
}

pub fn turn(x: f32) -> f32
    ensures { result ≡ E.turn x }
{
    if x > 64.0 {
        return remainders::rem_tau(x);
    }
    if x < -64.0 {
        return remainders::rem_tau(x);
    }
    x
}

pub fn sin_cos(x: f32) -> SinCos
    ensures { result ≡ E.sin_cos x }
{
    sin_cos_near(turn(x))
}

// Sine and cosine of two angles, in the order in which they are worked out side by side.
#[derive(Drop)]
pub struct TwoSinCos {
    pub s1: f32,
    pub s2: f32,
    pub c1: f32,
    pub c2: f32,
}

pub fn sin_cos_two(x: f32, y: f32) -> TwoSinCos
    ensures { result ≡ E.sin_cos_two x y }
{
    let t = sin_cos_near(turn(x));
    let u = sin_cos_near(turn(y));
    TwoSinCos {
        s1: t.s,
        s2: u.s,
        c1: t.c,
        c2: u.c,
    }
}

// `sin` and `cos` are two names that C's exports and the promises have; each is a call and a field.
pub fn sin(x: f32) -> f32
    ensures { result ≡ E.sin x }
{
    let both = sin_cos(x);
    both.s
}

pub fn cos(x: f32) -> f32
    ensures { result ≡ E.cos x }
{
    let both = sin_cos(x);
    both.c
}

// Below zero, or -0.
fn left(x: f32) -> bool
    ensures { result ≡ E.left x }
{
    if x < 0.0 {
        return true;
    }
    1.0 / x < 0.0
}

fn ratio(ay: f32, ax: f32) -> f32
    ensures { result ≡ E.ratio ay ax }
{
    if ay == ax {
        if ax == 0.0 {
            return 0.0;
        }
        return 1.0;
    }
    if ay > ax {
        return ax / ay;
    }
    ay / ax
}

fn atan_rest(t: f32) -> f32
    ensures { result ≡ E.atan_rest t }
{
    let z = t * t;
    let w8 = -0.0165811554 + z * 0.00297459238;
    let w6 = -0.0758057833 + z * (0.0435535274 + z * w8);
    let w4 = -0.142142117 + z * (0.10678941 + z * w6);
    let w = -0.333331645 + z * (0.199941352 + z * w4);
    t + (t * z) * w
}

fn size(x: f32) -> f32
    ensures { result ≡ E.size x }
{
    if x < 0.0 {
        return -x;
    }
    x
}

// The flags here and below choose no step: they are what comparisons gave, as in the definitions.
fn signed(b: f32, below: bool) -> f32
    ensures { result ≡ E.signed b below }
{
    if below {
        return -b;
    }
    b
}

// PI/2 and PI stand in two parts each.
fn octant(c: f32, steep: bool, back: bool) -> f32
    ensures { result ≡ E.octant c steep back }
{
    if steep {
        return 1.57079637 - (c + 0.00000004371139);
    }
    if back {
        return 3.14159274 + (c - 0.00000008742278);
    }
    c
}

pub fn atan2(y: f32, x: f32) -> f32
    ensures { result ≡ E.atan2 y x }
{
    let ax = size(x);
    let ay = size(y);
    let b = atan_rest(ratio(ay, ax));
    let back = left(x);
    let d = octant(signed(b, back), ay > ax, back);
    let e = signed(d, left(y));
    raised(capped(e, 3.14159274), -3.14159274)
}
