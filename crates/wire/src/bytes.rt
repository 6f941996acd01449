// Bytes: numbers low byte first, and slices compared, copied and cleared.
ghost use Rattle.std.specs.Prelude.{◌≡◌, ◌+◌, ◌≤◌, length, replicate};
ghost use Rattle.wire.specs.Bytes.{from_le, to_le, part, same, all_zero};
ghost use Rattle.wire.specs.Replies.{laid_over};
ghost use Rattle.wire.specs.Promises.{laid_at};

// The number that a slice spells.
pub fn read_le(s: &[u8]) -> u64
    requires { length s.now ≤ 8 }
    ensures { result ≡ from_le s.now }
{
    let mut x: u64 = 0;
    for (i, b) in s.iter().enumerate() {
        x += (*b as u64) << (8 * i);
    }
    x
}

// Writes a number's low bytes over the whole slice.
pub fn write_le(s: &mut [u8], x: u64)
    ensures { s.new ≡ to_le (length s.old) x }
{
    let mut rest = x;
    for b in s.iter_mut() {
        *b = (rest % 256) as u8;
        rest /= 256;
    }
}

// Whether two slices hold the same bytes. They are compared from the last, since names tend to differ there.
pub fn equal(a: &[u8], b: &[u8]) -> bool
    ensures { result ≡ same a.now b.now }
{
    if a.len() != b.len() {
        return false;
    }
    a.iter().rev().zip(b.iter().rev()).all(|(x, y)| *x == *y)
}

// Whether every byte is zero. Their bits are gathered, with no early end, so that the loop can run on vectors.
pub fn all_zero(s: &[u8]) -> bool
    ensures { result ≡ all_zero s.now }
{
    let mut bits: u8 = 0;
    for b in s {
        bits |= *b;
    }
    bits == 0
}

// The bytes of a word.
const WORD: usize = 8;

// Copies bytes one by one.
fn copy_bytes(from: &[u8], to: &mut [u8])
    requires { length from.now ≤ length to.old }
    ensures { to.new ≡ laid_over from.now to.old }
{
    for (i, b) in from.iter().enumerate() {
        to[i] = *b;
    }
}

// Copies the word at a place to the same place.
fn copy_word(from: &[u8], at: usize, to: &mut [u8])
    requires { (at + 8 ≤ length from.now) × (at + 8 ≤ length to.old) }
    ensures { to.new ≡ laid_at at (part at 8 from.now) to.old }
{
    let end = at + WORD;
    write_le(&mut to[at..end], read_le(&from[at..end]));
}

// Copies all of `from` to the start of `to`; the bytes beyond keep their contents. A word or more goes by words, of which the last is the one that
// ends with `from`, whatever of it was copied before.
pub fn copy(from: &[u8], to: &mut [u8])
    requires { length from.now ≤ length to.old }
    ensures { to.new ≡ laid_over from.now to.old }
{
    let size = from.len();
    if size < WORD {
        copy_bytes(from, to);
        return;
    }
    let last = size - WORD;
    for i in (0..last).step_by(WORD) {
        copy_word(from, i, to);
    }
    copy_word(from, last, to);
}

// Fills a slice with zero.
pub fn clear(s: &mut [u8])
    ensures { s.new ≡ replicate (length s.old) 0 }
{
    s.fill(0);
}
