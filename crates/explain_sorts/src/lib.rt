// What a line of frames and answers is, and which answer the frame above it is due. Nothing is written
// here; all of it equals its definition in specs/Sorts.antt.
#![tactic(auto)]

ghost use Rattle.std.specs.Prelude.{◌≡◌, ◌+◌, ◌*◌, ◌≤◌, ◌<◌, length};
ghost use Rattle.shapes.specs.Shapes.{ShapeSized, fit_length};
ghost use Rattle.explain_sorts.specs.Sorts as S;

use shapes::{Fault, Kind, RingKind, Shape};

// Numbers as they stand in the line: the sentences name them, and the rules of frame lines do.
// A refusal: of a frame of its kind, or of a malformed line; its number and its place.
#[derive(Clone, Copy)]
pub struct Refusal {
    pub kind: Option<Kind>,
    pub number: u32,
    pub place: u16,
}

// What is wrong with a line that is neither a frame nor an answer: as a frame it is malformed, or of a type
// that there is not; as an answer, of a kind or of a malformed line, it has not its length, or it is as long
// as a fit with a number of refusal, or has a number that there is not, or one that its type has not.
#[derive(Clone, Copy)]
pub enum Wrong {
    Malformed(Fault),
    UnknownType(u32),
    AnswerLength(Option<Kind>),
    FitNumber(u32),
    NoNumber(u32),
    StrangeNumber(Option<Kind>, u32),
}

// What a frame asks for: the fit of a ring, or of a disk of so many pixels, a count that may be one that is
// refused.
#[derive(Clone, Copy)]
pub enum Asks {
    Ring(RingKind),
    Disk(u32),
}

// What it is due: a fit, or, of a disk, that nothing was found; the refusal of its count; or that of its
// first value that is not finite, with its place and its bits.
#[derive(Clone, Copy)]
pub enum Due {
    Fit,
    BadCount,
    Wild(u16, u32),
}

// A frame, with the number of its line.
#[derive(Clone, Copy)]
pub struct Frame {
    pub line: u64,
    pub asks: Asks,
    pub due: Due,
}

// What stands above an answer: nothing; a frame; a malformed line, by its number; or a flawed answer, of
// which it is not known whether it is meant as a frame.
#[derive(Clone, Copy)]
pub enum Above {
    Nothing,
    Asked(Frame),
    Malformed(u64),
    Flawed(u64),
}

// A frame, whose count of pixels may be one that is refused; a fit, of its answer's kind; a refusal;
// none of these.
#[derive(Clone, Copy)]
pub enum Sort {
    Asked(Frame),
    Fit(Kind),
    Refused(Refusal),
    Bad(Wrong),
}

// Which numbers a type has: a ring 1 and 3, a disk 1 to 4, and a malformed line 5 alone.
fn is_of(kind: Option<Kind>, number: u32) -> bool
    ensures { result ≡ S.is_of kind number }
{
    match kind {
        Some(Kind::Ring(_)) => (number == 1) | (number == 3),
        Some(Kind::Disk) => number < 5,
        None => number == 5,
    }
}

#[tactic(auto, unfolding(crate::specs::Sorts::refusal_sort))]
fn refusal_sort(line: &[u8], kind: Option<Kind>) -> Sort
    requires { 8 ≤ length line.now }
    ensures { (result ≡ S.refusal_sort line.now kind) × S.SortSound (length line.now) result }
{
    let number = hexadecimal::byte_at(line, 2);
    let place = hexadecimal::byte_at(line, 4) * 256 + hexadecimal::byte_at(line, 6);
    if (number == 0) | (number > 5) {
        return Sort::Bad(Wrong::NoNumber(number));
    }
    if is_of(kind, number) {
        return Sort::Refused(Refusal {
            kind,
            number,
            place: place as u16,
        });
    }
    Sort::Bad(Wrong::StrangeNumber(kind, number))
}

// How many characters a fit of a kind has.
fn fit_size(kind: Kind) -> usize
    ensures { (4 ≤ result) × (result ≡ fit_length kind) }
{
    match kind {
        Kind::Ring(_) => 60,
        Kind::Disk => 98,
    }
}

// An answer of a kind that has fits.
#[tactic(auto, unfolding(crate::specs::Sorts::fit_answer))]
fn fit_answer(line: &[u8], kind: Kind) -> Sort
    ensures { (result ≡ S.fit_answer line.now kind) × S.SortSound (length line.now) result }
{
    let n = line.len();
    if n == 8 {
        return refusal_sort(line, Some(kind));
    }
    if n != fit_size(kind) {
        return Sort::Bad(Wrong::AnswerLength(Some(kind)));
    }
    let number = hexadecimal::byte_at(line, 2);
    if number != 0 {
        return Sort::Bad(Wrong::FitNumber(number));
    }
    Sort::Fit(kind)
}

#[tactic(auto, unfolding(crate::specs::Sorts::malformed_answer))]
fn malformed_answer(line: &[u8]) -> Sort
    ensures { (result ≡ S.malformed_answer line.now) × S.SortSound (length line.now) result }
{
    if line.len() == 8 {
        return refusal_sort(line, None);
    }
    Sort::Bad(Wrong::AnswerLength(None))
}

// A line of a type that no frame has.
#[tactic(auto, unfolding(crate::specs::Sorts::answer_sort))]
fn answer_sort(line: &[u8], answer: u32) -> Sort
    ensures { (result ≡ S.answer_sort line.now answer) × S.SortSound (length line.now) result }
{
    match answer {
        129 => fit_answer(line, Kind::Ring(RingKind::Sixteen)),
        131 => fit_answer(line, Kind::Ring(RingKind::TwentyFour)),
        130 => fit_answer(line, Kind::Disk),
        255 => malformed_answer(line),
        _ => Sort::Bad(Wrong::UnknownType(answer)),
    }
}

// The first of n words that is no finite value.
fn wild_word(line: &[u8], at: usize, n: usize) -> Option<usize>
    requires { (n < 65536) × (at < 65536) × (at + 8 * n ≤ length line.now) }
    ensures { (result ≡ S.wild_word line.now at n 0) × S.WordWithin n result }
{
    // By number: the words lie 8 characters apart, and the answer is the number of one.
    for k in 0..n {
        if !floats::is_finite(hexadecimal::value_at(line, at + 8 * k)) {
            return Some(k);
        }
    }
    None
}

// What a frame is due whose values are read: n words from `at` on.
fn due_of(line: &[u8], at: usize, n: usize) -> Due
    requires { (n < 65536) × (at < 65536) × (at + 8 * n ≤ length line.now) }
    ensures { result ≡ S.due_of line.now at n }
{
    match wild_word(line, at, n) {
        Some(k) => Due::Wild(k as u16, hexadecimal::word_at(line, at + 8 * k)),
        None => Due::Fit,
    }
}

// A line of a shape, whose number is `line`.
fn shape_sort(text: &[u8], line: u64, shape: Shape) -> Sort
    requires { ShapeSized (length text.now) shape }
    ensures { (result ≡ S.shape_sort text.now line shape) × S.SortSound (length text.now) result }
{
    match shape {
        Shape::Ring(kind) => Sort::Asked(Frame {
            line,
            asks: Asks::Ring(kind),
            due: due_of(text, 2, 2 * kind.samples()),
        }),
        Shape::Disk(n) => Sort::Asked(Frame {
            line,
            asks: Asks::Disk(n),
            due: due_of(text, 6, 3 + 5 * (n as usize)),
        }),
        Shape::BadCount(n) => Sort::Asked(Frame {
            line,
            asks: Asks::Disk(n),
            due: Due::BadCount,
        }),
        Shape::OtherType(answer) => answer_sort(text, answer),
        Shape::Malformed(fault) => Sort::Bad(Wrong::Malformed(fault)),
    }
}

// The flag comes with the line: as an Option of a line the `if` would only move to the caller.
// Line number `number`. A line of which a part is gone was too long.
#[tactic(auto, unfolding(crate::specs::Sorts::sort_of))]
pub fn sort_of(line: &[u8], skip: bool, number: u64) -> Sort
    ensures { (result ≡ S.sort_of line.now skip number) × S.SortSound (length line.now) result }
{
    if skip {
        return Sort::Bad(Wrong::Malformed(Fault::TooLong));
    }
    shape_sort(line, number, shapes::shape_of(line))
}

fn bad_above(w: Wrong, number: u64) -> Above
    ensures { result ≡ S.bad_above w number }
{
    match w {
        Wrong::Malformed(_) | Wrong::UnknownType(_) => Above::Malformed(number),
        _ => Above::Flawed(number),
    }
}

// What stands above the line after this one.
pub fn above_of(sort: Sort, number: u64) -> Above
    ensures { result ≡ S.above_of sort number }
{
    match sort {
        Sort::Asked(frame) => Above::Asked(frame),
        Sort::Fit(_) | Sort::Refused(_) => Above::Nothing,
        Sort::Bad(w) => bad_above(w, number),
    }
}

// Whether a kind is the one that a frame asks for.
fn is_asked(asks: Asks, kind: Option<Kind>) -> bool
    ensures { result ≡ S.is_asked asks kind }
{
    match (asks, kind) {
        (Asks::Ring(ring), Some(Kind::Ring(answered))) => ring == answered,
        (Asks::Disk(_), Some(Kind::Disk)) => true,
        _ => false,
    }
}

// Whether an answer with a number of refusal, 0 for a fit, and a place may be what a frame is due.
fn is_due(f: Frame, number: u32, place: u16) -> bool
    ensures { result ≡ S.is_due f number place }
{
    match f.due {
        Due::BadCount => (number == 2) & (place == 0),
        Due::Wild(k, _) => (number == 3) & (place == k),
        Due::Fit => match f.asks {
            Asks::Ring(_) => number == 0,
            Asks::Disk(_) => (number == 0) | (number == 4),
        },
    }
}

// Whether an answer of a kind, with a number of refusal, 0 for a fit, and a place may be that of what stands
// above it.
pub fn belongs(a: Above, kind: Option<Kind>, number: u32, place: u16) -> bool
    ensures { result ≡ S.belongs a kind number place }
{
    match a {
        Above::Asked(f) => is_asked(f.asks, kind) & is_due(f, number, place),
        Above::Malformed(_) => kind.is_none() & (number == 5) & (place == 0),
        Above::Nothing | Above::Flawed(_) => true,
    }
}

// Whether a line is no answer, so that the frame above it has none.
pub fn is_alone(sort: Sort) -> bool
    ensures { result ≡ S.is_alone sort }
{
    matches!(sort, Sort::Asked(_) | Sort::Bad(_))
}

// Whether it is an answer, and not that of the frame above it.
pub fn is_strange(sort: Sort, a: Above) -> bool
    ensures { result ≡ S.is_strange sort a }
{
    match sort {
        Sort::Fit(kind) => !belongs(a, Some(kind), 0, 0),
        Sort::Refused(r) => !belongs(a, r.kind, r.number, r.place),
        Sort::Asked(_) | Sort::Bad(_) => false,
    }
}
