// What several of the programs do: read input and take it apart, lay a command, write on where a write fails, and show a store's slots.
#![tactic(auto)]

ghost use Rattle.std.specs.Prelude.{◌≡◌, true, ◌+◌, ◌≤◌, ◌<◌, ◌++◌, length, take, drop, IfSome, IfOk, IsOk};
ghost use Rattle.std.specs.Io.KnownBytes.{Consumes};
ghost use Rattle.wire.specs.Bytes.{from_le};
ghost use Rattle.store.specs.Store.{well_formed, slot_count};
ghost use Rattle.store.specs.Promises.{Held};

use std::fmt::Display;
use std::io::{self, Read};
use store::read;
use wire::bytes::read_le;
use wire::replies::{put_bulk, put_header};

// Reads until the place is full, the input ends or a read fails, and answers how many bytes it read: the next that the reader gives.
pub fn read_full<R: Read>(reader: &mut R, space: &mut [u8]) -> usize
    ensures within { result ≤ length space.new }
    ensures bytes { Consumes (R.remaining reader.old) (R.remaining reader.new) (take result space.new) }
{
    let mut done = 0;
    while done < space.len() {
        match reader.read(&mut space[done..]) {
            Ok(n) if 0 < n => done += n,
            Ok(_) | Err(_) => break,
        }
    }
    done
}

// The bytes that stand after their size, itself in four bytes, low first, and what follows them; none where the input is cut short.
pub fn take_sized(input: &[u8]) -> Option<(&[u8], &[u8])>
    ensures { IfSome result (λ p. (drop 4 input.now ≡ p.0.now ++ p.1.now) × (length p.0.now ≡ from_le (take 4 input.now))
        × (length p.1.now < length input.now)) }
{
    let (size, rest) = input.split_at_checked(4)?;
    rest.split_at_checked(read_le(size) as usize)
}

// What a feeding call left of a piece; nothing where it used nothing.
pub fn unused(piece: &[u8], used: usize) -> &[u8]
    ensures fewer { 0 < length piece.now → length result.now < length piece.now }
    ensures rest { 0 < used → result.now ≡ drop used piece.now }
{
    if used == 0 {
        return &[];
    }
    piece.get(used..).unwrap_or(&[])
}

// A word as a bulk string, where it has at most `longest` bytes and there is room.
fn put_word(word: &[u8], longest: usize, out: &mut [u8]) -> usize
    requires { longest < 1000 }
    ensures within { result ≤ length out.old }
    ensures size { result ≤ length word.now + 8 }
{
    let frame = if longest < 100 { 7 } else { 8 };
    if longest < word.len() || out.len() < word.len() + frame {
        return 0;
    }
    put_bulk(word, out)
}

// The words of a line as bulk strings, one after the other.
fn put_words(line: &[u8], longest: usize, out: &mut [u8]) -> usize
    requires { longest < 1000 }
    ensures { result ≤ length out.old }
{
    let mut at = 0;
    for word in line.split_inclusive(|b| *b == b' ') {
        let word = word.strip_suffix(b" ").unwrap_or(word);
        at += put_word(word, longest, &mut out[at..]);
    }
    at
}

// The command that a line of at most `most` words says, of which one that is over `longest` bytes or has no room is left out; nothing where there are more.
pub fn put_command(line: &[u8], most: usize, longest: usize, out: &mut [u8]) -> usize
    requires { (most < 1000) × (longest < 1000) }
    ensures { result ≤ length out.old }
{
    let count = line.split_inclusive(|b| *b == b' ').count();
    if most < count || out.len() < 6 {
        return 0;
    }
    let at = put_header(count as u64, out);
    put_words(line, longest, &mut out[at..]) + at
}

// A standard output whose writes never fail: what could not be written is lost, and what comes after it is written.
#[derive(Clone, Copy)]
pub struct Steady<'a, R: Print> {
    pub rt: &'a R,
}

impl<R: Print> Print for Steady<'_, R> {
    fn print<D: Display + Drop>(&self, value: D) -> io::Result<()>
        ensures { IsOk result }
    {
        let _ = self.rt.print(value);
        Ok(())
    }

    fn println<D: Display + Drop>(&self, value: D) -> io::Result<()>
        ensures { IsOk result }
    {
        let _ = self.rt.println(value);
        Ok(())
    }

    fn write_all(&self, bytes: &[u8]) -> io::Result<()>
        ensures { IsOk result }
    {
        let _ = self.rt.write_all(bytes);
        Ok(())
    }
}

fn show_entry(rt: &impl Print, store: &[u8], i: usize) -> io::Result<()>
    requires { Held store.now i }
{
    rt.write_all(read::key(store, i))?;
    print!(rt; " ")?;
    rt.write_all(read::field(store, i))?;
    print!(rt; " = ")?;
    rt.write_all(read::value(store, i))?;
    print!(rt; ", version {}", read::version(store, i))
}

// A line for each slot of a store, and how many lines. After an entry's version it says what `expiry` writes.
pub fn show_slots<R: Print, F: Fn(&R, Option<u64>) -> io::Result<()>>(
    rt: &R,
    indent: &str,
    store: &[u8],
    expiry: F,
) -> io::Result<usize>
    requires { (well_formed store.now ≡ true) × F.IsAlwaysCallable expiry }
    ensures { IfOk result (λ n. n ≡ slot_count store.now) }
{
    let mut shown = 0;
    for i in 0..read::slots(store) {
        print!(rt; "{indent}slot {i}: ")?;
        if read::is_empty(store, i) {
            println!(rt; "empty")?;
        } else {
            show_entry(rt, store, i)?;
            expiry(rt, read::expiry(store, i))?;
        }
        shown += 1;
    }
    Ok(shown)
}
