// Text for people: sentences with words in their blanks, written into a lent buffer. What is written is
// proved to be the sentences that are asked for, with the words that are given in their blanks
// (specs/Tell.antt); how a number is spelt (`numbers`) is proved safe and ending, no more.
#![tactic(auto)]

pub mod numbers;

ghost use Rattle.std.specs.Prelude.{◌≡◌, ◌+◌, ◌*◌, ◌<◌, ◌≤◌, false, [], ◌∷◌, length, slice_index_or};
ghost use Rattle.explain_words.specs.Tell as T;

use numbers::Word;

// A text, and the place in it behind what is said so far.
#[derive(Drop)]
pub struct Page<'a> {
    pub text: &'a mut [u8],
    pub at: usize,
}

fn is_mark(c: u8) -> bool
    ensures { result ≡ T.is_mark c }
{
    (c == b'{') | (c == b'}') | (c == b'|')
}

fn is_told(flags: &[bool], k: usize) -> bool
    ensures { result ≡ slice_index_or flags.now k false }
{
    flags.get(k).copied().unwrap_or(false)
}

// A bar ends a sentence.
fn after(k: usize, c: u8) -> usize
    requires { k < 1000000 }
    ensures { (result ≤ k + 1) × (result ≡ T.sentence_after k c) }
{
    if c == b'|' { k + 1 } else { k }
}

// How much room there must be is asked at each call, and no ghost field: it shrinks with each character.
impl Page<'_> {
    fn put(&mut self, b: u8)
        requires { self.old.at < length self.old.text.now }
        ensures { (self.new.at ≡ self.old.at + 1) × T.Said self.old self.new (b ∷ []) }
    {
        self.text[self.at] = b;
        self.at += 1;
    }

    // A character of a word; control characters are left out, so that no word ends a line.
    fn letter(&mut self, b: u8)
        requires { self.old.at < length self.old.text.now }
        ensures { (self.new.at ≤ self.old.at + 1) × T.Said self.old self.new (T.letter b) }
    {
        if b >= 32 {
            self.put(b);
        }
    }

    fn word(&mut self, w: &Word)
        requires { self.old.at + 24 ≤ length self.old.text.now }
        ensures { (self.new.at ≤ self.old.at + 24) × T.Said self.old self.new (T.spelt w.now 24) }
    {
        for b in w {
            self.letter(*b);
        }
    }

    // The word of a letter: `a` is the first.
    fn blank(&mut self, c: u8, words: &[Word])
        requires { self.old.at + 24 ≤ length self.old.text.now }
        ensures { (self.new.at ≤ self.old.at + 24) × T.Said self.old self.new (T.word_at words.now c) }
    {
        let k = (usize::from(c) + 31) % 32;
        if k < words.len() {
            self.word(&words[k]);
        }
    }

    // `inside` is where in a sentence the character stands, and no switch that a caller sets.
    // What a character of a sentence stands for: see specs/Tell.antt.
    #[tactic(auto, using(crate::specs::TellLaws::said_none), unfolding(crate::specs::Tell::piece))]
    fn piece(&mut self, inside: bool, c: u8, words: &[Word])
        requires { self.old.at + 24 ≤ length self.old.text.now }
        ensures { (self.new.at ≤ self.old.at + 24) × T.Said self.old self.new (T.piece words.now inside c) }
    {
        if is_mark(c) {
            return;
        }
        if inside {
            self.blank(c, words);
        } else {
            self.put(c);
        }
    }

    // Of the sentences in s those whose flag is set, with the words in their blanks.
    pub fn tell(&mut self, s: &[u8], flags: &[bool], words: &[Word])
        requires { (length s.now < 1000000) × (self.old.at + 24 * length s.now ≤ length self.old.text.now) }
        ensures { T.Tells flags.now words.now s.now self.old self.new }
    {
        let mut k = 0usize;
        let mut inside = false;
        for c in s {
            if is_told(flags, k) {
                self.piece(inside, *c, words);
            }
            k = after(k, *c);
            inside = *c == b'{';
        }
    }
}
