// The forms of a reply, each laid at the start of a lent buffer: it answers how many bytes that is, and leaves those beyond as they were.
ghost use Rattle.std.specs.Prelude.{◌∷◌, ◌++◌, ◌≤◌, length};
ghost use Rattle.wire.specs.Integers.{natural_text};
ghost use Rattle.wire.specs.Words.{crlf};
ghost use Rattle.wire.specs.Replies.{nil, integer, number, bulk, header};
ghost use Rattle.wire.specs.Promises.{integer_of, Laid};

use crate::bytes::copy;
use crate::integers::{Signed, write_integer, write_natural};

// CR LF.
fn put_end(out: &mut [u8]) -> usize
    requires { length crlf ≤ length out.old }
    ensures { Laid crlf out.old out.new result }
{
    out[0] = 13;
    out[1] = 10;
    2
}

// A line of text.
pub fn put_line(text: &[u8], out: &mut [u8]) -> usize
    requires { length (text.now ++ crlf) ≤ length out.old }
    ensures { Laid (text.now ++ crlf) out.old out.new result }
{
    copy(text, out);
    let at = text.len();
    put_end(&mut out[at..]) + at
}

pub fn put_nil(out: &mut [u8]) -> usize
    requires { length nil ≤ length out.old }
    ensures { Laid nil out.old out.new result }
{
    put_line(b"$-1", out)
}

// A mark, a number's text, CR LF.
fn put_count(mark: u8, n: u64, out: &mut [u8]) -> usize
    requires { length (mark ∷ natural_text n ++ crlf) ≤ length out.old }
    ensures { Laid (mark ∷ natural_text n ++ crlf) out.old out.new result }
{
    out[0] = mark;
    let at = write_natural(n, &mut out[1..]) + 1;
    put_end(&mut out[at..]) + at
}

pub fn put_integer(z: Signed, out: &mut [u8]) -> usize
    requires { length (integer (integer_of z)) ≤ length out.old }
    ensures { Laid (integer (integer_of z)) out.old out.new result }
{
    out[0] = 58;
    let at = write_integer(z, &mut out[1..]) + 1;
    put_end(&mut out[at..]) + at
}

pub fn put_number(n: u64, out: &mut [u8]) -> usize
    requires { length (number n) ≤ length out.old }
    ensures { Laid (number n) out.old out.new result }
{
    put_count(58, n, out)
}

// The header of an array of n elements.
pub fn put_header(n: u64, out: &mut [u8]) -> usize
    requires { length (header n) ≤ length out.old }
    ensures { Laid (header n) out.old out.new result }
{
    put_count(42, n, out)
}

pub fn put_bulk(w: &[u8], out: &mut [u8]) -> usize
    requires { length (bulk w.now) ≤ length out.old }
    ensures { Laid (bulk w.now) out.old out.new result }
{
    let at = put_count(36, w.len() as u64, out);
    put_line(w, &mut out[at..]) + at
}
