// Lines out of blocks of input: which bytes are the next line, and the next block behind those that
// are left. A line longer than the caller's limit is dropped as it comes, in constant memory, and
// told by `skip`. The turns of a program that answers line by line are here too, but for the answer:
// a turn finds a line, asks `room` for its answer's place and calls `answered`, or reads on, or ends.
#![tactic(auto)]

ghost use Rattle.std.specs.Prelude.{◌≡◌, ◌+◌, ◌≤◌, ◌<◌, length, IfSome};
ghost use Rattle.lines.specs.Lines.{Filled, Front, begun, end_of, found_of, is_gone, kept_of, passed, FoundWithin};
ghost use Rattle.lines.specs.Turns as T;

use std::io::{ErrorKind, Read, Write};

// The sizes of a program's buffers, for its input and its text. They are asked as lengths of slices: as arrays they would be
// made slices at each call all the same.
pub const INPUT: usize = 81920;

pub const OUTPUT: usize = 65536;

// What is left of the buffer: the bytes from `from` up to `total`; whether the start of the line there is
// gone; whether the input has ended. At first nothing is read.
#[derive(Clone, Copy, Default)]
pub struct Feed {
    pub from: usize,
    pub total: usize,
    pub skip: bool,
    pub ended: bool,
}

// A line, with its end and where the next one starts; more input is wanted; or the end.
#[derive(Drop)]
pub enum Found {
    Line(usize, usize),
    More,
    Done,
}

impl Feed {
    pub fn start() -> Feed
        ensures { result ≡ begun }
    {
        Feed::default()
    }

    // Where the next line ends, counted from its start.
    pub fn line_end(self, buf: &[u8]) -> Option<usize>
        requires { (self.from ≤ self.total) × (self.total ≤ length buf.now) }
        ensures same { result ≡ end_of buf.now self }
        ensures within { IfSome result (λ k. self.from + k < self.total) }
    {
        buf[self.from..self.total].iter().position(|b| *b == b'\n')
    }

    // The next line of the buffer.
    pub fn find(self, buf: &[u8]) -> Found
        requires { (self.from ≤ self.total) × (self.total ≤ length buf.now) }
        ensures { (result ≡ found_of buf.now self) × FoundWithin self result }
    {
        match self.line_end(buf) {
            Some(k) => Found::Line(self.from + k, self.from + k + 1),
            None if !self.ended => Found::More,
            None if (self.from < self.total) | self.skip => Found::Line(self.total, self.total),
            None => Found::Done,
        }
    }

    // The line before `from` has been answered.
    pub fn past(self, from: usize) -> Feed
        requires { from ≤ self.total }
        ensures { result ≡ passed self from }
    {
        Feed {
            from,
            skip: false,
            ..self
        }
    }

    // Whether the unfinished line loses its start: it is over the limit, or its start is gone already.
    fn gone(self, limit: usize) -> bool
        requires { self.from ≤ self.total }
        ensures { result ≡ is_gone self limit }
    {
        self.skip | (self.total - self.from > limit)
    }

    // How much of the unfinished line is kept, at the front of the buffer: all of it, or nothing.
    fn kept(self, buf: &mut [u8], limit: usize) -> usize
        requires { (self.from ≤ self.total) × (self.total ≤ length buf.old) }
        ensures { (result ≤ limit) × (result ≤ length buf.old) × (result ≡ kept_of self limit) × Front result self.from buf.old buf.new }
    {
        if self.gone(limit) {
            return 0;
        }
        buf.copy_within(self.from..self.total, 0);
        self.total - self.from
    }

    // The next block of the input, behind what is kept. A read that fails is taken for the input's end.
    pub fn fill<R: Read>(self, reader: &mut R, buf: &mut [u8], limit: usize) -> Feed
        requires { (self.from ≤ self.total) × (self.total ≤ length buf.old) × (limit < length buf.old) }
        ensures { (result.from ≤ result.total) × (result.total ≤ length buf.old) × Filled self limit buf.old buf.new result }
    {
        let skip = self.gone(limit);
        let have = self.kept(buf, limit);
        let n = reader.read(&mut buf[have..]).unwrap_or(0);
        Feed {
            from: 0,
            total: have + n,
            skip,
            ended: n == 0,
        }
    }
}

// The first `put` bytes of the text go to the output. A write that fails loses them, and nothing else:
// the program goes on to the end of its input. Whether somebody still takes the text: not once a pipe
// is closed.
pub fn flush<W: Write>(writer: &mut W, text: &[u8], put: usize) -> bool
    requires { put ≤ length text.now }
{
    match writer.write_all(&text[..put]) {
        Ok(()) => true,
        Err(e) => e.kind() != ErrorKind::BrokenPipe,
    }
}

// How far a program is: what is left of its input, up to where its text stands, and whether there is
// more to do. That it is kept is `T.StateKept`, no ghost field: each definition that builds a state would carry its proof.
#[derive(Clone, Copy)]
pub struct State {
    pub feed: Feed,
    pub put: usize,
    pub more: bool,
}

// Reader, writer and buffers go apart: in a struct of `&mut` each call would take them out one by one.
impl State {
    pub fn begin() -> State
        ensures { T.StateKept result × (result ≡ T.opening) }
    {
        State {
            feed: Feed::start(),
            put: 0,
            more: true,
        }
    }

    // A place with room for `need` more bytes: this one, or, once all that stands in the text has been
    // written out, its start.
    pub fn room<W: Write>(self, writer: &mut W, text: &[u8], need: usize) -> usize
        requires { (self.put ≤ length text.now) × (need ≤ length text.now) × (length text.now < 1000000) }
        ensures { (result + need ≤ length text.now) × (result ≡ T.room_of self.put need (length text.now)) }
    {
        let put = self.put;
        if put + need <= text.len() {
            return put;
        }
        flush(writer, text, put);
        0
    }

    // A line has been answered: the text stands up to `put`, and the next line starts at `from`.
    pub fn answered(self, from: usize, put: usize) -> State
        requires { T.StateKept self × (from ≤ self.feed.total) × (put ≤ T.output) }
        ensures { T.StateKept result × (result ≡ T.answered_of self from put) }
    {
        State {
            feed: self.feed.past(from),
            put,
            more: true,
        }
    }

    // More input is wanted. What stands in the text is written out before the read, so that whoever waits
    // for an answer has it. Where nobody takes the text any more, nothing is read, as at the input's end: a
    // closed pipe ends the program, as the system's signal does where it is not held back.
    pub fn read_on<R: Read, W: Write>(
        self,
        reader: &mut R,
        writer: &mut W,
        buf: &mut [u8],
        text: &[u8],
        limit: usize,
    ) -> State
        requires { T.StateKept self × (limit < T.input) × (length buf.old ≡ T.input) × (length text.now ≡ T.output) }
        ensures { T.StateKept result × T.Read self limit buf.old buf.new result }
    {
        let feed = if flush(writer, text, self.put) {
            self.feed.fill(reader, buf, limit)
        } else {
            self.feed.fill(&mut std::io::empty(), buf, limit)
        };
        State {
            feed,
            put: 0,
            more: true,
        }
    }

    // The input has ended, and what stands in the text is written out.
    pub fn finish<W: Write>(self, writer: &mut W, text: &[u8]) -> State
        requires { T.StateKept self × (length text.now ≡ T.output) }
        ensures { T.StateKept result × (result ≡ T.closed self) }
    {
        flush(writer, text, self.put);
        State {
            put: 0,
            more: false,
            ..self
        }
    }
}
