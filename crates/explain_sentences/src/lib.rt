// What explain says of a line, in sentences: each function tells its own, and which of them are told
// equals its definition in specs/Sentences.antt. So do the refusal that is due, the type, the numbers and the counts that are
// told; of the words in the blanks, how each is spelt and where it stands, it is proved that they are safe, no more.
#![tactic(auto)]

use explain_sorts::{Above, Asks, Due, Refusal};
use explain_words::Page;
use explain_words::numbers::{BLANK, Word, bits, number, plural};
use shapes::{Kind, RingKind};

pub mod bad;
pub mod fit;
pub mod refusal;

ghost use Rattle.std.specs.Prelude.{◌≡◌, ◌+◌, ◌≤◌, length, is_none};
ghost use Rattle.explain_words.specs.Tell.{Told};
ghost use Rattle.explain_sentences.specs.Sentences as S;

fn of_ring(kind: Option<Kind>, ring: RingKind) -> bool
    ensures { result ≡ S.of_ring ring kind }
{
    match kind {
        Some(Kind::Ring(k)) => k == ring,
        _ => false,
    }
}

fn of_disk(kind: Option<Kind>) -> bool
    ensures { result ≡ S.disk_kind kind }
{
    matches!(kind, Some(Kind::Disk))
}

fn of_malformed(kind: Option<Kind>) -> bool
    ensures { result ≡ is_none kind }
{
    kind.is_none()
}

// The type of an answer, ff of a malformed line.
fn type_of_kind(kind: Option<Kind>) -> u8
    ensures { result ≡ S.type_of_kind kind }
{
    match kind {
        Some(Kind::Ring(k)) => k.answer_type(),
        Some(Kind::Disk) => 130,
        None => 255,
    }
}

// What the frame above is of, where a frame stands there. No conversion: of three of the four cases there is no kind.
fn kind_above(a: Above) -> Option<Kind>
    ensures { result ≡ S.kind_above a }
{
    match a {
        Above::Asked(f) => match f.asks {
            Asks::Ring(k) => Some(Kind::Ring(k)),
            Asks::Disk(_) => Some(Kind::Disk),
        },
        _ => None,
    }
}

// Whether what stands above is due a refusal, or a frame of finite values a fit.
fn is_refused(a: Above) -> bool
    ensures { result ≡ S.is_refused a }
{
    match a {
        Above::Asked(f) => !matches!(f.due, Due::Fit),
        Above::Malformed(_) => true,
        Above::Nothing | Above::Flawed(_) => false,
    }
}

fn is_clean(a: Above) -> bool
    ensures { result ≡ S.is_clean a }
{
    match a {
        Above::Asked(f) => matches!(f.due, Due::Fit),
        _ => false,
    }
}

// The number of the line above, and the count of pixels there: no Options, since a sentence without that blank does not
// show the 0.
fn line_above(a: Above) -> u64
    ensures { result ≡ S.line_above a }
{
    match a {
        Above::Nothing => 0,
        Above::Asked(f) => f.line,
        Above::Malformed(line) | Above::Flawed(line) => line,
    }
}

fn pixels_above(a: Above) -> u32
    ensures { result ≡ S.pixels_above a }
{
    match a {
        Above::Asked(f) => match f.asks {
            Asks::Ring(_) => 0,
            Asks::Disk(n) => n,
        },
        _ => 0,
    }
}

// A frame that no answer follows. A bar ends a sentence, here and in all that follow.
pub fn alone_told(page: &mut Page, a: Above)
    requires { page.old.at + 5280 ≤ length page.old.text.now }
    ensures { (page.new.at ≤ page.old.at + 5280) × Told (S.alone_rows a) page.old page.new }
{
    let kind = kind_above(a);
    let flags = [
        of_ring(kind, RingKind::Sixteen),
        of_ring(kind, RingKind::TwentyFour),
        of_disk(kind),
    ];
    let n = u64::from(pixels_above(a));
    let words = [number(line_above(a)), number(n), plural(n)];
    page.tell(
        b"line {a}: ring frame without an answer: run it through fitlines
|line {a}: 24-point ring frame without an answer: run it through fitlines
|line {a}: disk frame of {b} pixel{c} without an answer: run it through fitlines
|",
        &flags,
        &words,
    );
}

// The refusal that what stands above is due.
fn due(a: Above) -> Option<Refusal>
    ensures { result ≡ S.due a }
{
    match a {
        Above::Asked(f) => match f.due {
            Due::Fit => None,
            Due::BadCount => Some(Refusal {
                kind: kind_above(a),
                number: 2,
                place: 0,
            }),
            Due::Wild(k, _) => Some(Refusal {
                kind: kind_above(a),
                number: 3,
                place: k,
            }),
        },
        Above::Malformed(_) => Some(Refusal {
            kind: None,
            number: 5,
            place: 0,
        }),
        Above::Nothing | Above::Flawed(_) => None,
    }
}

// A refusal as its line is written.
fn refusal_line(r: Option<Refusal>) -> Word {
    match r {
        Some(r) => {
            let answer = u64::from(type_of_kind(r.kind));
            bits(
                answer * 16777216 + u64::from(r.number) * 65536 + u64::from(r.place),
                8,
            )
        }
        None => BLANK,
    }
}

// An answer that is not that of the frame above it.
pub fn mismatch_told(page: &mut Page, a: Above)
    requires { page.old.at + 8760 ≤ length page.old.text.now }
    ensures { (page.new.at ≤ page.old.at + 8760) × Told (S.mismatch_rows a) page.old page.new }
{
    let kind = kind_above(a);
    let clean = is_clean(a);
    let flags = [
        is_refused(a),
        clean & of_ring(kind, RingKind::Sixteen),
        clean & of_ring(kind, RingKind::TwentyFour),
        clean & of_disk(kind),
    ];
    let words = [number(line_above(a)), refusal_line(due(a))];
    page.tell(
        b"  warning: this does not answer line {a}: its frame is refused, {b}
|  warning: this does not answer line {a}: a ring frame of finite values has a ring fit
|  warning: this does not answer line {a}: a 24-point ring frame of finite values has a 24-point ring fit
|  warning: this does not answer line {a}: a disk frame of finite values has a disk fit, or refusal 4
|",
        &flags,
        &words,
    );
}
