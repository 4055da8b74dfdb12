// Hexadecimal digits, words and values: reading them from a slice, and writing them into a lent one.
#![tactic(auto)]

ghost use Rattle.std.specs.Prelude.{List, ℕ, ◌≡◌, ◌+◌, ◌*◌, ◌<◌, ◌≤◌, length};
ghost use Rattle.loops.specs.Loops.{tab};
ghost use Rattle.hexadecimal.specs.Hex.{is_hex, all_hex, digit_of, byte_of, word_of, word_list_of, value_of, values_of};
ghost use Rattle.hexadecimal.specs.Hex.{hex_of, byte_text, count_text, word_text, words_text, put};

// Four tests and no `matches!` over two ranges: tried, and its goals stayed open.
#[tactic(auto, unfolding(crate::specs::Hex::is_hex))]
pub fn is_hex(b: u8) -> bool
    ensures { result ≡ is_hex b }
{
    if b < 48 {
        return false;
    }
    if b < 58 {
        return true;
    }
    if b < 97 {
        return false;
    }
    b < 103
}

// Whether every character of a line is a digit. No `all`: the loop has neither an early end nor a branch.
pub fn all_hex(s: &[u8]) -> bool
    ensures { result ≡ all_hex s.now (length s.now) }
{
    let mut ok = true;
    for b in s {
        ok = ok & is_hex(*b);
    }
    ok
}

// No table: a const array is built anew on the stack at each use.
fn digit(b: u8) -> u32
    ensures { (result < 16) × (result ≡ digit_of b) }
{
    let x = u32::from(b);
    (x % 16 + 9 * (x / 64)) % 16
}

// The byte that two characters spell.
#[tactic(auto, unfolding(crate::specs::Hex::byte_of))]
pub fn byte_at(s: &[u8], at: usize) -> u32
    requires { at + 2 ≤ length s.now }
    ensures { (result < 256) × (result ≡ byte_of s.now at) }
{
    digit(s[at]) * 16 + digit(s[at + 1])
}

#[tactic(auto, unfolding(crate::specs::Hex::word_of))]
pub fn word_at(s: &[u8], at: usize) -> u32
    requires { at + 8 ≤ length s.now }
    ensures { result ≡ word_of s.now at }
{
    let a = byte_at(s, at);
    let b = byte_at(s, at + 2);
    let c = byte_at(s, at + 4);
    let d = byte_at(s, at + 6);
    a * 16777216 + b * 65536 + c * 256 + d
}

// The value whose bits a word is; each pattern of a NaN is the one NaN.
pub fn value_at(s: &[u8], at: usize) -> f32
    requires { at + 8 ≤ length s.now }
    ensures { result ≡ value_of s.now at }
{
    floats::from_bits(word_at(s, at))
}

// What eight digits are read as: a word, or the value whose bits it is.
trait Spelt: Copy {
    ghost spelt: { List ℕ → ℕ → Self };

    fn spelt_at(s: &[u8], at: usize) -> Self
        requires { at + 8 ≤ length s.now }
        ensures { result ≡ spelt s.now at };
}

impl Spelt for u32 {
    ghost spelt = { word_of };

    fn spelt_at(s: &[u8], at: usize) -> u32 {
        word_at(s, at)
    }
}

impl Spelt for f32 {
    ghost spelt = { value_of };

    fn spelt_at(s: &[u8], at: usize) -> f32 {
        value_at(s, at)
    }
}

// What is spelt from `at` on, as much as the buffer holds.
fn all_at<T: Spelt>(s: &[u8], at: usize, out: &mut [T])
    requires { (length out.old < 4096) × (at + 8 * length out.old ≤ length s.now) }
    ensures { out.new ≡ tab (λ k. T.spelt s.now (at + 8 * k)) (length out.old) }
{
    let n = out.len();
    // By place: the k-th is spelt 8 k characters on, so `enumerate` would count the same k.
    for k in 0..n {
        out[k] = T::spelt_at(s, at + 8 * k);
    }
}

// Two names over one generic function: they are public, and each promises its own definition.
// The words from `at` on.
#[tactic(auto, unfolding(crate::specs::Hex::word_list_of))]
pub fn words(s: &[u8], at: usize, out: &mut [u32])
    requires { (length out.old < 4096) × (at + 8 * length out.old ≤ length s.now) }
    ensures { out.new ≡ word_list_of s.now at (length out.old) }
{
    all_at(s, at, out);
}

// The values of those words.
#[tactic(auto, unfolding(crate::specs::Hex::values_of))]
pub fn values(s: &[u8], at: usize, out: &mut [f32])
    requires { (length out.old < 4096) × (at + 8 * length out.old ≤ length s.now) }
    ensures { out.new ≡ values_of s.now at (length out.old) }
{
    all_at(s, at, out);
}

// By hand: std's `from_digit` answers an Option of a char, which would be taken apart and cast.
// The character of a digit.
pub fn hex(n: u32) -> u8
    requires { n < 16 }
    ensures { result ≡ hex_of n }
{
    if n < 10 {
        return (n + 48) as u8;
    }
    (n + 87) as u8
}

// Each writer puts its text over the buffer at a place: `put`. Two writes next to each other are one (`put_put`).
pub fn put_byte(out: &mut [u8], at: usize, b: u32)
    requires { (b < 256) × (at + 2 ≤ length out.old) }
    ensures { out.new ≡ put out.old at (byte_text b) }
{
    let h = hex(b / 16);
    let l = hex(b % 16);
    out[at] = h;
    out[at + 1] = l;
}

pub fn put_count(out: &mut [u8], at: usize, n: u32)
    requires { (n < 65536) × (at + 4 ≤ length out.old) }
    ensures { out.new ≡ put out.old at (count_text n) }
{
    put_byte(out, at, n / 256);
    put_byte(out, at + 2, n % 256);
}

pub fn put_word(out: &mut [u8], at: usize, w: u32)
    requires { at + 8 ≤ length out.old }
    ensures { out.new ≡ put out.old at (word_text w) }
{
    put_count(out, at, w / 65536);
    put_count(out, at + 4, w % 65536);
}

// All words of ws, one after the other.
pub fn put_words(out: &mut [u8], at: usize, ws: &[u32])
    requires { (length ws.now < 4096) × (at + 8 * length ws.now ≤ length out.old) }
    ensures { out.new ≡ put out.old at (words_text ws.now (length ws.now)) }
{
    for (k, w) in ws.iter().enumerate() {
        put_word(out, at + 8 * k, *w);
    }
}
