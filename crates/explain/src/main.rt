// explain: frames and answers of standard input in words that a person reads, on standard output.
// A frame line and the answer in the line after it are a pair; an answer alone is explained alone.
// Which sentences are said of each line equals its definition, specs/Explain.antt and what that cites;
// what stands in their blanks is proved safe, no more.
#![tactic(auto)]

ghost use Rattle.std.specs.Prelude.{◌≡◌, ◌+◌, ◌≤◌, length};
ghost use Rattle.lines.specs.Turns.{StateKept, Lies, input, output};
ghost use Rattle.explain_sorts.specs.Sorts.{SortSound};
ghost use Rattle.explain.specs.Explain as E;

use explain_sorts::{Above, Sort};
use explain_words::Page;
use lines::{Found, State};
use std::io::{Read, Write};

// More than is said of any line: 24 characters for each of its sentences' own.
const ROOM: usize = 60000;

// What is said of a line itself.
fn body_told(page: &mut Page, number: u64, line: &[u8], sort: Sort, a: Above)
    requires { SortSound (length line.now) sort × (page.old.at + 44424 ≤ length page.old.text.now) }
    ensures { (page.new.at ≤ page.old.at + 44424) × E.Body line.now sort a page.old page.new }
{
    match sort {
        Sort::Asked(_) => {}
        Sort::Fit(kind) => explain_sentences::fit::told(page, number, line, kind),
        Sort::Refused(r) => explain_sentences::refusal::told(page, number, r, a),
        Sort::Bad(w) => explain_sentences::bad::told(page, number, line, w),
    }
}

// All that is said at a line: that the frame above has no answer, the line itself, that it is not the
// answer of that frame.
fn line_told(page: &mut Page, number: u64, line: &[u8], sort: Sort, a: Above)
    requires { SortSound (length line.now) sort × (page.old.at + 60000 ≤ length page.old.text.now) }
    ensures { (page.new.at ≤ page.old.at + 60000) × E.Explained line.now sort a page.old page.new }
{
    if explain_sorts::is_alone(sort) {
        explain_sentences::alone_told(page, a);
    }
    body_told(page, number, line, sort, a);
    if explain_sorts::is_strange(sort, a) {
        explain_sentences::mismatch_told(page, a);
    }
}

// How far the program is, the line above the next one, and how many lines there were.
#[derive(Clone, Copy)]
struct Explaining {
    state: State,
    above: Above,
    lines: u64,
}

// The line up to `e` explained; the next one starts at `from`.
fn line_turn<W: Write>(
    writer: &mut W,
    buf: &[u8],
    text: &mut [u8],
    x: Explaining,
    e: usize,
    from: usize,
) -> Explaining
    requires { StateKept x.state × Lies x.state e from × (length buf.now ≡ input) × (length text.old ≡ output) }
    ensures { StateKept result.state × E.Explains x buf.now e from text.old text.new result }
{
    let s = x.state;
    let f = s.feed;
    let number = std::num::wrapping_add_u64(x.lines, 1);
    let line = &buf[f.from..e];
    let sort = explain_sorts::sort_of(line, f.skip, number);
    let at = s.room(writer, text, ROOM);
    let mut page = Page { text, at };
    line_told(&mut page, number, line, sort, x.above);
    Explaining {
        state: s.answered(from, page.at),
        above: explain_sorts::above_of(sort, number),
        lines: number,
    }
}

// A frame at the end of the input has no answer.
fn last_turn<W: Write>(writer: &mut W, text: &mut [u8], x: Explaining) -> Explaining
    requires { StateKept x.state × (length text.old ≡ output) }
    ensures { StateKept result.state × E.End x text.old text.new result }
{
    let s = x.state;
    let at = s.room(writer, text, ROOM);
    let mut page = Page { text, at };
    explain_sentences::alone_told(&mut page, x.above);
    let said = s.answered(s.feed.from, page.at);
    let state = said.finish(writer, text);
    Explaining { state, ..x }
}

// One line explained, or one block read, or the end.
fn turn<R: Read, W: Write>(
    reader: &mut R,
    writer: &mut W,
    buf: &mut [u8],
    text: &mut [u8],
    x: Explaining,
) -> Explaining
    requires { StateKept x.state × (length buf.old ≡ input) × (length text.old ≡ output) }
    ensures { StateKept result.state × E.ExplainTurn x buf.old buf.new text.old text.new result }
{
    let s = x.state;
    match s.feed.find(buf) {
        Found::Line(e, next) => line_turn(writer, buf, text, x, e, next),
        Found::More => Explaining {
            state: s.read_on(reader, writer, buf, text, shapes::LIMIT),
            ..x
        },
        Found::Done => last_turn(writer, text, x),
    }
}

// The loop of this program alone: one in `lines` with a closure for the turn would take that closure's contract for its own.
fn serve<R: Read, W: Write>(
    reader: &mut R,
    writer: &mut W,
    buf: &mut [u8],
    text: &mut [u8],
) -> Explaining
    requires { (length buf.old ≡ input) × (length text.old ≡ output) }
    ensures { E.AllExplained buf.old text.old result buf.new text.new }
{
    let mut x = Explaining {
        state: State::begin(),
        above: Above::Nothing,
        lines: 0,
    };
    for _ in 0..u64::MAX {
        x = turn(reader, writer, buf, text, x);
        if !x.state.more {
            return x;
        }
    }
    x
}

fn main(rt: HostRuntime) {
    let mut buf = [0u8; lines::INPUT];
    let mut text = [0u8; lines::OUTPUT];
    serve(&mut rt.stdin(), &mut rt.stdout(), &mut buf, &mut text);
}
