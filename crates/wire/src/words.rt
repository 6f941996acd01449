// The words of a command: where each of them stands.
ghost use Rattle.std.specs.Prelude.{◌≡◌, ◌+◌, ◌≤◌, length, drop};
ghost use Rattle.wire.specs.Bytes.{part, same};
ghost use Rattle.wire.specs.Words.{words_most, word_at, crlf, before_cr, read_count, read_word};
ghost use Rattle.wire.specs.Promises.{words_in, Inside, Places, next_of, counted_for, placed_for};

use crate::integers::read_natural;
use std::marker::Model;

// The most words of a command.
pub const WORDS_MOST: usize = 64;

// The next word of a command, by its number, if there is one.
pub fn next_word(count: usize, i: usize) -> Option<usize>
    ensures { result ≡ next_of count i }
{
    if i < count { Some(i) } else { None }
}

// A count that was read, and the place after it.
#[derive(Clone, Copy)]
struct Counted {
    count: usize,
    next: usize,
}

// A word that was read: where it starts, its size and the place after it.
#[derive(Clone, Copy)]
struct Placed {
    start: usize,
    size: usize,
    next: usize,
}

// The place of the first CR from a place on, or the end.
fn line_end(s: &[u8], from: usize) -> usize
    ensures { result ≡ from + length (before_cr (drop from s.now)) }
{
    for i in from..s.len() {
        if s[i] == 13 {
            return i;
        }
    }
    from.max(s.len())
}

// Whether CR LF stands at a place.
fn ends_line(s: &[u8], at: usize) -> bool
    requires { at ≤ length s.now }
    ensures { result ≡ same (part at 2 s.now) crlf }
{
    if s.len() - at < 2 {
        return false;
    }
    if s[at] != 13 {
        return false;
    }
    s[at + 1] == 10
}

// A mark, a count of at most `most`, CR LF, from a place on.
fn read_count(s: &[u8], at: usize, mark: u8, most: u64) -> Option<Counted>
    ensures { result ≡ counted_for (length s.now) (read_count mark most (drop at s.now)) }
{
    if s.len() <= at {
        return None;
    }
    if s[at] != mark {
        return None;
    }
    let from = at + 1;
    let end = line_end(s, from);
    if !ends_line(s, end) {
        return None;
    }
    let n = read_natural(&s[from..end], most)?;
    Some(Counted {
        count: n as usize,
        next: end + 2,
    })
}

// One word from a place on: `$len\r\n`, the bytes, `\r\n`.
fn read_word(s: &[u8], at: usize) -> Option<Placed>
    requires { at ≤ length s.now }
    ensures { result ≡ placed_for (length s.now) (read_word (drop at s.now)) }
{
    let left = s.len() - at;
    let Counted {
        count: size,
        next: start,
    } = read_count(s, at, 36, left as u64)?;
    if s.len() - start < size {
        return None;
    }
    let end = start + size;
    if !ends_line(s, end) {
        return None;
    }
    Some(Placed {
        start,
        size,
        next: end + 2,
    })
}

// Where the words of a command stand: their number, and for each in order its place, a start and a size; or 0 where the command is damaged.
// Places from the number on, and all where it is 0, are left free.
pub fn split(s: &[u8], places: &mut [[usize; 2]]) -> usize
    requires { words_most ≤ length places.old }
    ensures { Places s.now places.new result }
{
    let Some(head) = read_count(s, 0, 42, WORDS_MOST as u64) else {
        return 0;
    };
    let mut at = head.next;
    for i in 0..head.count {
        let Some(word) = read_word(s, at) else {
            return 0;
        };
        places[i] = [word.start, word.size];
        at = word.next;
    }
    if at != s.len() {
        return 0;
    }
    head.count
}

// The words that stand at places of some bytes: a place is a word's start and its size. A clause sees the list of the words.
#[derive(Drop)]
pub struct Words<'a> {
    bytes: &'a [u8],
    places: &'a [[usize; 2]],
}

impl<'a> Model for Words<'a> {
    ghost use Rattle.std.specs.Prelude.{List};
    ghost use Rattle.wire.specs.Words.{Word};
    ghost use Rattle.wire.specs.Promises.{words_in};
    ghost use Rattle.wire.specs.Promises as promises;

    ghost Value = { List Word };

    ghost view = { λ w. words_in w.bytes.now w.places.now };

    ghost invariant = { λ w. promises.Inside w.bytes.now w.places.now };
}

impl<'a> Words<'a> {
    pub fn new(bytes: &'a [u8], places: &'a [[usize; 2]]) -> Words<'a>
        requires { Inside bytes.now places.now }
        ensures { result ≡ words_in bytes.now places.now }
    {
        Words { bytes, places }
    }

    // How many words there are, at most as many as a command has.
    pub fn len(&self) -> usize
        ensures value { result ≡ length self.now }
        ensures most { result ≤ words_most }
    {
        self.places.len()
    }

    // Word i, or no bytes where there are fewer words.
    pub fn word(&self, i: usize) -> &'a [u8]
        ensures { result.now ≡ word_at i self.now }
    {
        if self.places.len() <= i {
            return &self.bytes[..0];
        }
        let start = self.places[i][0];
        let end = start + self.places[i][1];
        &self.bytes[start..end]
    }

    // The words from word i on.
    pub fn after(&self, i: usize) -> Words<'a>
        requires { i ≤ length self.now }
        ensures value { result ≡ drop i self.now }
        ensures most { length self.now ≤ words_most }
    {
        Words {
            bytes: self.bytes,
            places: &self.places[i..],
        }
    }
}
