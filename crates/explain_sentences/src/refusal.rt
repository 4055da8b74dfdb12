// A refusal in sentences: why, and at which value, with the value itself where the frame above is
// refused for it.
ghost use Rattle.std.specs.Prelude.{◌≡◌, ◌+◌, ◌≤◌, length, is_none};
ghost use Rattle.explain_words.specs.Tell.{Told, flags_of};
ghost use Rattle.explain_sentences.specs.Sentences as S;

use explain_sorts::{Above, Asks, Due, Refusal};
use explain_words::Page;
use explain_words::numbers::{BLANK, Word, bits, figures, number, plural};
use shapes::{Kind, RingKind};

// Which of a disk's values: the energy, the two base angles, then the five runs of n values; or behind them.
#[derive(Clone, Copy, PartialEq, Eq)]
enum Part {
    Energy,
    Base0,
    Base1,
    Xs,
    Ys,
    ValsCentered,
    GradAngles,
    GradWeights,
    Beyond,
}

// No From: with its ghost relation `from_gives` it would be longer and say the same.
// The part with the number k.
fn numbered(k: u32) -> Part
    ensures { result ≡ S.numbered k }
{
    match k {
        0 => Part::Energy,
        1 => Part::Base0,
        2 => Part::Base1,
        3 => Part::Xs,
        4 => Part::Ys,
        5 => Part::ValsCentered,
        6 => Part::GradAngles,
        7 => Part::GradWeights,
        _ => Part::Beyond,
    }
}

#[tactic(auto, unfolding(crate::specs::Sentences::part_of))]
fn part_of(n: u32, place: u32) -> Part
    requires { place ≤ 65535 }
    ensures { result ≡ S.part_of n place }
{
    if place < 3 {
        return numbered(place);
    }
    if n == 0 {
        return Part::Beyond;
    }
    numbered(3 + (place - 3) / n)
}

// The count of pixels of the disk above, where it is not refused.
fn count_above(a: Above) -> Option<u32>
    ensures { result ≡ S.count_above a }
{
    match a {
        Above::Asked(f) => match (f.asks, f.due) {
            (Asks::Ring(_), _) | (_, Due::BadCount) => None,
            (Asks::Disk(n), _) => Some(n),
        },
        _ => None,
    }
}

fn is_disk(r: Refusal) -> bool
    ensures { result ≡ S.is_disk r }
{
    super::of_disk(r.kind) & (r.number == 3)
}

#[tactic(auto, unfolding(crate::specs::Sentences::name_of))]
fn name_of(r: Refusal, a: Above) -> Option<Part>
    ensures { result ≡ S.name_of r a }
{
    if !is_disk(r) {
        return None;
    }
    match count_above(a) {
        Some(n) => Some(part_of(n, u32::from(r.place))),
        None => None,
    }
}

fn is_part(name: Option<Part>, part: Part) -> bool
    ensures { result ≡ S.is_part part name }
{
    name == Some(part)
}

fn is_nameless(name: Option<Part>) -> bool
    ensures { result ≡ is_none name }
{
    name.is_none()
}

// Whether the frame above is refused for a value.
fn is_above_wild(a: Above) -> bool
    ensures { result ≡ S.is_above_wild a }
{
    match a {
        Above::Asked(f) => matches!(f.due, Due::Wild(_, _)),
        _ => false,
    }
}

fn is_shown(r: Refusal, a: Above) -> bool
    ensures { result ≡ S.is_shown r a }
{
    is_above_wild(a) & explain_sorts::belongs(a, r.kind, r.number, r.place)
}

// Whether a line stands above that is no frame and no answer.
fn is_bad(a: Above) -> bool
    ensures { result ≡ S.is_bad a }
{
    matches!(a, Above::Malformed(_) | Above::Flawed(_))
}

// Whether a place is one of a ring's samples, or of the angles behind them.
fn is_sample(r: Refusal) -> bool
    ensures { result ≡ S.is_sample r }
{
    match r.kind {
        Some(Kind::Ring(k)) => (r.number == 3) & (usize::from(r.place) < k.samples()),
        _ => false,
    }
}

fn is_angle(r: Refusal) -> bool
    ensures { result ≡ S.is_angle r }
{
    let place = usize::from(r.place);
    match r.kind {
        Some(Kind::Ring(k)) => {
            (r.number == 3) & (place >= k.samples()) & (place < 2 * k.samples())
        }
        _ => false,
    }
}

fn flags_of(r: Refusal, a: Above, name: Option<Part>, shown: bool) -> [bool; 30]
    ensures { (result ≡ flags_of (S.refusal_rows r a name shown)) × (30 ≡ length result) }
{
    let ring = super::of_ring(r.kind, RingKind::Sixteen);
    let ring24 = super::of_ring(r.kind, RingKind::TwentyFour);
    let nameless = is_disk(r) & is_nameless(name);
    [
        ring,
        ring24,
        super::of_disk(r.kind),
        super::of_malformed(r.kind),
        r.number == 1,
        r.number == 2,
        r.number == 3,
        r.number == 4,
        r.number == 5,
        (r.number == 2) & super::of_disk(super::kind_above(a)),
        is_sample(r),
        is_angle(r),
        ring & (r.number == 3) & (r.place > 31),
        ring24 & (r.number == 3) & (r.place > 47),
        is_part(name, Part::Energy),
        is_part(name, Part::Base0),
        is_part(name, Part::Base1),
        is_part(name, Part::Xs),
        is_part(name, Part::Ys),
        is_part(name, Part::ValsCentered),
        is_part(name, Part::GradAngles),
        is_part(name, Part::GradWeights),
        is_part(name, Part::Beyond),
        nameless,
        nameless,
        shown,
        r.number == 3,
        r.number == 4,
        (r.number == 5) & is_bad(a),
        (r.place != 0) & ((r.number == 1) | (r.number == 2) | (r.number == 5)),
    ]
}

// Which angle: they stand behind the samples.
fn angle_of(r: Refusal) -> usize {
    match r.kind {
        Some(Kind::Ring(k)) => usize::from(r.place).saturating_sub(k.samples()),
        _ => 0,
    }
}

// Which pixel of its run.
fn pixel_of(n: u32, place: u16) -> u32 {
    if n == 0 {
        return 0;
    }
    u32::from(place.saturating_sub(3)) % n
}

// The value that the frame above is refused for, and its bits.
fn value_words(a: Above) -> [Word; 2]
    ensures { 2 ≡ length result }
{
    match a {
        Above::Asked(f) => match f.due {
            Due::Wild(_, w) => [
                figures(floats::widen(floats::from_bits(w))),
                bits(u64::from(w), 8),
            ],
            _ => [BLANK; 2],
        },
        _ => [BLANK; 2],
    }
}

fn words_of(line: u64, r: Refusal, a: Above) -> [Word; 11]
    ensures { 11 ≡ length result }
{
    let place = u64::from(r.place);
    let pixels = super::pixels_above(a);
    let [value, value_bits] = value_words(a);
    [
        number(line),
        number(u64::from(r.number)),
        number(u64::from(pixels)),
        number(place),
        number(angle_of(r) as u64),
        number(u64::from(pixel_of(pixels, r.place))),
        plural(u64::from(pixels)),
        value,
        value_bits,
        plural(place),
        number(super::line_above(a)),
    ]
}

pub fn told(page: &mut Page, line: u64, r: Refusal, a: Above)
    requires { page.old.at + 26952 ≤ length page.old.text.now }
    ensures { (page.new.at ≤ page.old.at + 26952) × Told (S.refused_rows r a) page.old page.new }
{
    let name = name_of(r, a);
    let flags = flags_of(r, a, name, is_shown(r, a));
    let words = words_of(line, r, a);
    page.tell(
        b"line {a}: ring refused, number {b}: |\
line {a}: 24-point ring refused, number {b}: |\
line {a}: disk refused, number {b}: |\
line {a}: refused, number {b}: |\
a slice has the wrong length, or the answer buffer is too short
|the count of pixels is 0 or over 320
|a value is not finite
|the search over the disk found nothing
|the frame line is malformed
|  pixels      {c}
|  value       sample {d}|  value       angle {e}|  \
warning: there is no place {d}: a ring's values are 0 to 31|  \
warning: there is no place {d}: a 24-point ring's values are 0 to 47|  \
value       val_energy|  value       base0|  value       base1|  \
value       xs[{f}]|  value       ys[{f}]|  value       vals_centered[{f}]|  \
value       grad_angles[{f}]|  value       grad_weights[{f}]|  \
warning: there is no place {d} in a disk of {c} pixel{g}|  \
value       {d} (0 is the energy, 1 and 2 the base angles, then xs, ys, vals_centered, |\
grad_angles and grad_weights, as long as there are pixels)| \
is {h} (bits {i})|
|  work        {d} trial{j}
|  frame       line {k}; what is wrong stands there
|  warning: the place is {d}, and number {b} has the place 0
|",
        &flags,
        &words,
    );
}
