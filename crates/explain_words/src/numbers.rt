// Numbers as words of 24 characters, of which those that are not used are 0. They are worked out in f64
// and whole numbers, with no help of the C library.

ghost use Rattle.std.specs.Prelude.{◌≤◌};

pub type Word = [u8; 24];

// The word that says nothing.
pub const BLANK: Word = [0; 24];

// A word written from its end: what stands in it begins at `from`.
struct Spelling {
    bytes: Word,
    from: usize,
    ghost within: { from ≤ 24 },
}

impl Spelling {
    fn empty() -> Spelling {
        Spelling {
            bytes: BLANK,
            from: 24,
        }
    }

    // A character in front of what stands there, as long as there is room.
    fn front(&mut self, b: u8) {
        if self.from > 0 {
            self.from -= 1;
            self.bytes[self.from] = b;
        }
    }

    // The digits of n in front of what stands there.
    fn digits(&mut self, n: u64, base: u64, least: u64, places: u64)
        requires { 1 ≤ base }
    {
        let mut rest = n;
        for k in 0..20u64 {
            if (rest == 0) & (k >= least) {
                return;
            }
            if (places > 0) & (k == places) {
                self.front(b'.');
            }
            self.front(hexadecimal::hex((rest % base % 16) as u32));
            rest /= base;
        }
    }

    fn exponent(&mut self, e: Exponent) {
        match e {
            Exponent::Up(k) => self.digits(k, 10, 1, 0),
            Exponent::Down(k) => {
                self.digits(k, 10, 1, 0);
                self.front(b'-');
            }
        }
        self.front(b'e');
    }

    fn word(self) -> Word {
        let Spelling { bytes, from: _ } = self;
        bytes
    }
}

// A number by its four digits: value times ten to the power of `power` less 400.
#[derive(Clone, Copy)]
struct Scaled {
    value: f64,
    power: usize,
}

impl Scaled {
    // Times ten until it has four digits before the point.
    fn raised(x: f64) -> Scaled {
        let mut value = x;
        for power in (1..=400usize).rev() {
            if value >= 1000.0 {
                return Scaled { value, power };
            }
            value *= 10.0;
        }
        Scaled { value, power: 0 }
    }

    // Divided by ten until it has four digits before the point, once rounded.
    fn lowered(self) -> Scaled {
        let mut value = self.value;
        for power in self.power..800 {
            if value < 9999.5 {
                return Scaled { value, power };
            }
            value /= 10.0;
        }
        Scaled { value, power: 800 }
    }
}

// A power of ten: up, or down.
#[derive(Clone, Copy)]
enum Exponent {
    Up(u64),
    Down(u64),
}

// The digits of n, at least `least`, with `places` of them behind the point, then zeros, and, where it is
// scaled, an exponent.
#[derive(Clone, Copy)]
struct Numeral {
    negative: bool,
    n: u64,
    least: u64,
    places: u64,
    zeros: usize,
    exponent: Option<Exponent>,
}

impl Numeral {
    // A number without exponent.
    fn plain(negative: bool, n: u64, least: u64, places: u64, zeros: usize) -> Numeral {
        Numeral {
            negative,
            n,
            least,
            places,
            zeros,
            exponent: None,
        }
    }

    fn scientific(negative: bool, n: u64, exponent: Exponent) -> Numeral {
        Numeral {
            negative,
            n,
            least: 4,
            places: 3,
            zeros: 0,
            exponent: Some(exponent),
        }
    }

    // Four digits and their power: plain from a thousandth to a million, else scientific.
    fn placed(negative: bool, n: u64, power: usize) -> Numeral {
        if power < 394 {
            return Numeral::scientific(negative, n, Exponent::Down(397 - power as u64));
        }
        if power > 402 {
            return Numeral::scientific(negative, n, Exponent::Up(power as u64 - 397));
        }
        if power > 400 {
            return Numeral::plain(negative, n, 1, 0, power - 400);
        }
        let places = (400 - power) as u64;
        Numeral::plain(negative, n, places + 1, places, 0)
    }

    fn spelt(self) -> Word {
        let mut w = Spelling::empty();
        if let Some(e) = self.exponent {
            w.exponent(e);
        }
        for _ in 0..self.zeros {
            w.front(b'0');
        }
        w.digits(self.n, 10, self.least, self.places);
        if self.negative {
            w.front(b'-');
        }
        w.word()
    }
}

pub fn number(n: u64) -> Word {
    Numeral::plain(false, n, 1, 0, 0).spelt()
}

// A number by its hexadecimal digits, at least `width` of them.
pub fn bits(n: u64, width: u64) -> Word {
    let mut w = Spelling::empty();
    w.digits(n, 16, width, 0);
    w.word()
}

// The first 24 letters of s.
pub fn letters(s: &[u8]) -> Word {
    let mut w = BLANK;
    for (x, b) in w.iter_mut().zip(s) {
        *x = *b;
    }
    w
}

// The s of a noun: none where there is one.
pub fn plural(n: u64) -> Word {
    if n == 1 { BLANK } else { letters(b"s") }
}

fn infinity(negative: bool) -> Word {
    if negative {
        return letters(b"-infinity");
    }
    letters(b"infinity")
}

// A number by four significant digits; NaN and the infinities by their names.
pub fn figures(x: f64) -> Word {
    if x.is_nan() {
        return letters(b"NaN");
    }
    if x.is_infinite() {
        return infinity(x < 0.0);
    }
    if x == 0.0 {
        return number(0);
    }
    let s = Scaled::raised(x.abs()).lowered();
    let n = std::num::saturating_f64_to_u64(s.value + 0.5);
    Numeral::placed(x < 0.0, n, s.power).spelt()
}

// With so many places behind the point, where ten to their power is `scale`. From a million on, and where
// it is NaN, a number is written by four digits.
fn fixed(x: f64, scale: f64, places: u64) -> Word
    requires { places ≤ 3 }
{
    if x.abs() < 1000000.0 {
        let n = std::num::saturating_f64_to_u64(x.abs() * scale + 0.5);
        return Numeral::plain(x < 0.0, n, places + 1, places, 0).spelt();
    }
    figures(x)
}

// With two places behind the point.
pub fn hundredths(x: f64) -> Word {
    fixed(x, 100.0, 2)
}

// With three places behind the point.
pub fn thousandths(x: f64) -> Word {
    fixed(x, 1000.0, 3)
}
