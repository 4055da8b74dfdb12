// What is wrong with a line that is neither a frame nor an answer, in one sentence.
ghost use Rattle.std.specs.Prelude.{◌≡◌, ◌+◌, ◌≤◌, length};
ghost use Rattle.explain_words.specs.Tell.{Told, flags_of};
ghost use Rattle.explain_sentences.specs.Sentences as S;

use explain_sorts::Wrong;
use explain_words::Page;
use explain_words::numbers::{BLANK, Word, bits, letters, number, plural};
use shapes::{Fault, Kind, RingKind};

// The first character that is no digit: its place.
fn first_foreign(line: &[u8]) -> Option<usize>
    ensures { result ≡ S.foreign_place line.now }
{
    line.iter().position(|b| !hexadecimal::is_hex(*b))
}

// That character, at its place: a long line is looked through once.
fn foreign_byte(line: &[u8], place: Option<usize>) -> Option<u8>
    requires { place ≡ S.foreign_place line.now }
    ensures { result ≡ S.foreign_byte line.now }
{
    match place {
        Some(k) => Some(line[k]),
        None => None,
    }
}

// A to F, and a carriage return.
fn is_upper(b: Option<u8>) -> bool
    ensures { result ≡ S.is_upper b }
{
    match b {
        Some(b) => (b >= b'A') & (b <= b'F'),
        None => false,
    }
}

fn is_return(b: Option<u8>) -> bool
    ensures { result ≡ S.is_return b }
{
    match b {
        Some(b) => b == b'\r',
        None => false,
    }
}

// What is wrong, by its sentence. A function each: as matches in one array, tried, they left over forty goals open.
fn is_too_long(w: Wrong) -> bool
    ensures { result ≡ S.is_too_long w }
{
    matches!(w, Wrong::Malformed(Fault::TooLong))
}

fn is_foreign(w: Wrong) -> bool
    ensures { result ≡ S.is_foreign w }
{
    matches!(w, Wrong::Malformed(Fault::Foreign))
}

fn is_short(w: Wrong) -> bool
    ensures { result ≡ S.is_short w }
{
    matches!(w, Wrong::Malformed(Fault::Short))
}

fn is_unknown_type(w: Wrong) -> bool
    ensures { result ≡ S.is_unknown_type w }
{
    matches!(w, Wrong::UnknownType(_))
}

fn is_ring_length(w: Wrong) -> bool
    ensures { result ≡ S.is_ring_length w }
{
    matches!(w, Wrong::Malformed(Fault::RingLength(RingKind::Sixteen)))
}

fn is_ring24_length(w: Wrong) -> bool
    ensures { result ≡ S.is_ring24_length w }
{
    matches!(w, Wrong::Malformed(Fault::RingLength(RingKind::TwentyFour)))
}

fn is_disk_short(w: Wrong) -> bool
    ensures { result ≡ S.is_disk_short w }
{
    matches!(w, Wrong::Malformed(Fault::DiskShort))
}

fn is_disk_length(w: Wrong) -> bool
    ensures { result ≡ S.is_disk_length w }
{
    matches!(w, Wrong::Malformed(Fault::DiskLength(_)))
}

fn is_answer_length(w: Wrong) -> bool
    ensures { result ≡ S.is_answer_length w }
{
    matches!(w, Wrong::AnswerLength(_))
}

fn is_ring_answer_length(w: Wrong) -> bool
    ensures { result ≡ S.is_ring_answer_length w }
{
    matches!(w, Wrong::AnswerLength(Some(Kind::Ring(_))))
}

fn is_disk_answer_length(w: Wrong) -> bool
    ensures { result ≡ S.is_disk_answer_length w }
{
    matches!(w, Wrong::AnswerLength(Some(Kind::Disk)))
}

fn is_malformed_answer_length(w: Wrong) -> bool
    ensures { result ≡ S.is_malformed_answer_length w }
{
    matches!(w, Wrong::AnswerLength(None))
}

fn is_fit_number(w: Wrong) -> bool
    ensures { result ≡ S.is_fit_number w }
{
    matches!(w, Wrong::FitNumber(_))
}

fn is_no_number(w: Wrong) -> bool
    ensures { result ≡ S.is_no_number w }
{
    matches!(w, Wrong::NoNumber(_))
}

fn is_strange_number(w: Wrong) -> bool
    ensures { result ≡ S.is_strange_number w }
{
    matches!(w, Wrong::StrangeNumber(_, _))
}

fn flags_of(w: Wrong, n: usize, b: Option<u8>) -> [bool; 20]
    ensures { (result ≡ flags_of (S.bad_rows w n b)) × (20 ≡ length result) }
{
    let upper = is_upper(b);
    let returned = is_return(b);
    let foreign = is_foreign(w);
    let short = is_short(w);
    let strange = is_strange_number(w);
    [
        true,
        is_too_long(w),
        foreign & upper,
        foreign & returned,
        foreign & !(upper | returned),
        short & (n == 0),
        short & (n != 0),
        is_unknown_type(w),
        is_ring_length(w),
        is_ring24_length(w),
        is_disk_short(w),
        is_disk_length(w),
        is_answer_length(w),
        is_ring_answer_length(w),
        is_disk_answer_length(w),
        is_malformed_answer_length(w),
        is_fit_number(w),
        is_no_number(w),
        strange,
        strange,
    ]
}

// No Options: a sentence without that blank does not show the 0, so each caller would unwrap to one.
// The type that a sentence speaks of, the count of pixels, and the number of refusal: 0 where it speaks of none.
fn type_of(w: Wrong) -> u32
    ensures { result ≡ S.type_of w }
{
    match w {
        Wrong::UnknownType(kind) => kind,
        Wrong::AnswerLength(kind) | Wrong::StrangeNumber(kind, _) => {
            u32::from(super::type_of_kind(kind))
        }
        _ => 0,
    }
}

fn pixels_of(w: Wrong) -> u32
    ensures { result ≡ S.pixels_of w }
{
    match w {
        Wrong::Malformed(Fault::DiskLength(n)) => n,
        _ => 0,
    }
}

fn number_told(w: Wrong) -> u32
    ensures { result ≡ S.number_told w }
{
    match w {
        Wrong::FitNumber(n) | Wrong::NoNumber(n) | Wrong::StrangeNumber(_, n) => n,
        _ => 0,
    }
}

// The place of the first character that is no digit, and its byte. People count characters from 1.
fn foreign_words(line: &[u8], place: Option<usize>) -> [Word; 2]
    requires { place ≡ S.foreign_place line.now }
    ensures { 2 ≡ length result }
{
    match place {
        Some(k) => [
            number(std::num::wrapping_add_u64(k as u64, 1)),
            bits(u64::from(line[k]), 2),
        ],
        None => [BLANK; 2],
    }
}

fn words_of(line_number: u64, line: &[u8], place: Option<usize>, w: Wrong) -> [Word; 11]
    requires { place ≡ S.foreign_place line.now }
    ensures { 11 ≡ length result }
{
    let [at, foreign] = foreign_words(line, place);
    let characters = line.len() as u64;
    let pixels = u64::from(pixels_of(w));
    let odd = if characters % 2 == 1 {
        letters(b" (an odd number)")
    } else {
        BLANK
    };
    [
        number(line_number),
        at,
        foreign,
        bits(u64::from(type_of(w)), 2),
        number(characters),
        plural(characters),
        odd,
        number(30 + 40 * pixels),
        number(pixels),
        plural(pixels),
        number(u64::from(number_told(w))),
    ]
}

// Line number `number`.
pub fn told(page: &mut Page, number: u64, line: &[u8], w: Wrong)
    requires { page.old.at + 24936 ≤ length page.old.text.now }
    ensures { (page.new.at ≤ page.old.at + 24936) × Told (S.line_rows w line.now) page.old page.new }
{
    let place = first_foreign(line);
    let flags = flags_of(w, line.len(), foreign_byte(line, place));
    let words = words_of(number, line, place, w);
    page.tell(
        b"line {a}: bad line: |\
over 12830 characters, the most that a frame has
|upper-case digit at character {b}: the house format is lower-case
|carriage return at character {b}: a line ends in a line feed alone
|character {b} is no hexadecimal digit (byte {c})
|empty: as a frame it is answered ff050000
|1 character (an odd number): the type alone has 2
|unknown type {d}, {e} character{f}{g}: frames are 01, 02 and 03, answers 81, 82, 83 and ff
|a ring frame of {e} character{f}{g} instead of 258
|a 24-point ring frame of {e} character{f}{g} instead of 386
|a disk frame of {e} character{f}{g}: it has 30, and 40 for each pixel
|a disk frame of {e} character{f}{g} instead of {h} for its {i} pixel{j}
|an answer of type {d} with {e} character{f}{g}: |\
a fit has 60, a refusal 8
|a fit has 98, a refusal 8
|it has 8
|an answer as long as a fit, with the number of refusal {k}: a fit has 0
|unknown number of refusal {k}: there are 1 to 5
|an answer of type {d} with the number of refusal {k}: |\
a ring has 1 and 3, a disk 1 to 4, type ff has 5
|",
        &flags,
        &words,
    );
}
