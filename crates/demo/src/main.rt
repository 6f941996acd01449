// Plays the script of standard input, a line a step, against the feeder and a store of two slots. A line's first byte says what it is:
//   =  a heading: from here on a fresh feeder and empty stores
//   a digit: a record, its clock in ms and its command; its record is fed
//   ~  from here on records come in pieces of so many bytes, and every call is shown
//   !  stray bytes, fed as they stand
//   ?  shows the store
//   &  puts the store aside as the first of two, and begins the second with a fresh feeder
//   ^  an instant: lists what the two stores differ in
//   %  an instant, a key and a field: shows the newer value, and whose it is
//   .  says what happened
// Any other line is written as it stands.
#![tactic(auto)]

ghost use Rattle.std.specs.Prelude.{◌-◌, ◌≤◌, length};

use commands::execute::BUFFER_LEAST;
use compare::Which;
use compare::listing::compare;
use compare::newer::{newer, newer_in};
use feeder::{Fed, Feeder};
use programs::{Steady, put_command, read_full, show_slots, unused};
use std::io;
use store::check::well_formed;
use store::layout::{HEADER_SIZE, SLOT_SIZE, TIME_LIMIT};
use store::read;
use wire::bytes::write_le;
use wire::integers::read_natural;

const SCRIPT: usize = 16384;

// A store of two slots.
const STORE: usize = HEADER_SIZE + 2 * SLOT_SIZE;

// A record: mark, clock and length in 12 bytes, and at most 1,024 more.
const RECORD: usize = 1036;

const COMMAND: usize = 12;

// 45 57, low byte first.
const MARK: u64 = 0x5745;

// The most words of a command, and the longest.
const WORDS: usize = 64;

const WORD: usize = 99;

// The feeder, the size of pieces where records do not come whole, the two stores, and the place of a reply.
#[derive(Drop)]
struct Play {
    feeder: Feeder,
    cut: Option<usize>,
    store: [u8; STORE],
    other: [u8; STORE],
    reply: [u8; BUFFER_LEAST],
}

// ---- text

// A line.
fn say(rt: &impl Print, before: &str, text: &[u8]) -> io::Result<()> {
    rt.write_all(before.as_bytes())?;
    rt.write_all(text)?;
    rt.write_all(b"\n")
}

// The bytes but the first so many.
fn beyond(s: &[u8], count: usize) -> &[u8]
    ensures { length result.now ≤ length s.now - count }
{
    s.get(count..).unwrap_or(&[])
}

// The number that a word says, 0 where it says none.
fn number_of(word: &[u8]) -> u64 {
    read_natural(word, TIME_LIMIT).unwrap_or(0)
}

// The record of a line: the word before the first space is its clock, the rest its command.
fn put_record(line: &[u8], out: &mut [u8; RECORD]) -> usize
    ensures { result ≤ 1036 }
{
    let mut parts = line.splitn(2, |b| *b == b' ');
    let clock = number_of(parts.next().unwrap_or(&[]));
    let size = put_command(
        parts.next().unwrap_or(&[]),
        WORDS,
        WORD,
        &mut out[COMMAND..],
    );
    write_le(&mut out[0..2], MARK);
    write_le(&mut out[2..10], clock);
    write_le(&mut out[10..COMMAND], size as u64);
    COMMAND + size
}

// ---- replies

// Writes a line of a reply, and answers whether the next line is the bytes of a value.
fn show_line(rt: &impl Print, line: &[u8], value: bool) -> io::Result<bool> {
    if value {
        print!(rt; " \"")?;
        rt.write_all(line)?;
        print!(rt; "\"")?;
        return Ok(false);
    }
    match line {
        [b'$', b'-', b'1'] => print!(rt; " nil")?,
        [b'$', ..] => return Ok(true),
        [b'*', ..] => {}
        _ => {
            print!(rt; " ")?;
            rt.write_all(beyond(line, 1))?;
        }
    }
    Ok(false)
}

// Writes a reply as text.
fn show_reply(rt: &impl Print, reply: &[u8]) -> io::Result<()> {
    let mut value = false;
    let mut rest = reply;
    while !rest.is_empty() {
        let end = rest.iter().position(|b| *b == b'\r').unwrap_or(rest.len());
        value = show_line(rt, &rest[..end], value)?;
        rest = beyond(rest, end + 2);
    }
    Ok(())
}

// ---- the store

fn show_expiry(rt: &impl Print, expiry: Option<u64>, clock: u64) -> io::Result<()> {
    match expiry {
        None => println!(rt),
        Some(instant) if clock < instant => println!(rt; ", expires at {instant}"),
        Some(instant) => println!(rt; ", dead since {instant}"),
    }
}

fn show_store<R: Print>(rt: &R, bytes: &[u8]) -> io::Result<()> {
    if !well_formed(bytes) {
        return Ok(());
    }
    let clock = read::clock(bytes);
    println!(rt; "        store, at {clock}:")?;
    show_slots(
        rt,
        "          ",
        bytes,
        |rt, expiry| show_expiry(rt, expiry, clock),
    )?;
    Ok(())
}

// ---- two stores side by side

// A value, and whose it is.
fn show_value(rt: &impl Print, value: &[u8], whose: &str) -> io::Result<()> {
    print!(rt; "        \"")?;
    rt.write_all(value)?;
    println!(rt; "\", {whose}")
}

// ---- steps

impl Play {
    fn fresh() -> Play {
        Play {
            feeder: Feeder::fresh(),
            cut: None,
            store: [0; STORE],
            other: [0; STORE],
            reply: [0; BUFFER_LEAST],
        }
    }

    // Begins anew beside a first store. The place of a reply stays as it is: what stands in it is shown only up to a reply's length.
    fn begin(&mut self, other: [u8; STORE]) {
        self.feeder = Feeder::fresh();
        self.cut = None;
        self.store = [0; STORE];
        self.other = other;
    }

    // What the two stores differ in.
    fn show_differences(&mut self, rt: &impl Print, instant: u64) -> io::Result<()> {
        let compared = compare(&self.other, &self.store, instant, &mut self.reply);
        if compared.refusal != 0 {
            return println!(rt; "        refused: {}", compared.refusal);
        }
        if compared.written == 0 {
            return println!(rt; "        none");
        }
        let text = self.reply.get(..compared.written).unwrap_or(&self.reply);
        for line in text.split_inclusive(|b| *b == b'\n') {
            say(rt, "        ", line.strip_suffix(b"\n").unwrap_or(line))?;
        }
        Ok(())
    }

    // The newer value of the field that a line names: instant, key and field, with one space between them.
    fn show_newer(&self, rt: &impl Print, line: &[u8]) -> io::Result<()> {
        let mut parts = line.splitn(3, |b| *b == b' ');
        let instant = number_of(parts.next().unwrap_or(&[]));
        let key = parts.next().unwrap_or(&[]);
        let field = parts.next().unwrap_or(&[]);
        let value = newer(&self.other, &self.store, key, field, instant);
        match newer_in(&self.other, &self.store, key, field, instant) {
            Which::First(_) => show_value(rt, value, "the first's"),
            Which::Second(_) => show_value(rt, value, "the second's"),
            Which::Neither => println!(rt; "        neither's"),
            Which::Refused(number) => println!(rt; "        refused: {number}"),
        }
    }

    // A call's reply, and the call itself where records come in pieces.
    fn show_fed(&self, rt: &impl Print, fed: Fed, offered: usize) -> io::Result<()> {
        if self.cut.is_some() {
            print!(rt; "        piece of {offered}: {} used, ", fed.used)?;
            println!(rt; "{} skipped, {} waiting", fed.skipped, fed.feeder.count)?;
        }
        if fed.replied == 0 {
            return Ok(());
        }
        print!(rt; "        ->")?;
        show_reply(rt, self.reply.get(..fed.replied).unwrap_or(&self.reply))?;
        println!(rt)
    }

    // Feeds bytes, in pieces where they do not come whole.
    fn feed(&mut self, rt: &impl Print, bytes: &[u8]) -> io::Result<()> {
        let mut rest = bytes;
        while !rest.is_empty() {
            let size = self.cut.unwrap_or(usize::MAX).min(rest.len());
            let fed = self
                .feeder
                .feed(&rest[..size], &mut self.store, &mut self.reply);
            self.feeder = fed.feeder;
            self.show_fed(rt, fed, size)?;
            rest = unused(rest, fed.used);
        }
        Ok(())
    }

    fn send(&mut self, rt: &impl Print, line: &[u8]) -> io::Result<()> {
        say(rt, "  ", line)?;
        let mut record = [0u8; RECORD];
        let size = put_record(line, &mut record);
        self.feed(rt, &record[..size])
    }

    // Feeds bytes as they stand.
    fn send_stray(&mut self, rt: &impl Print, bytes: &[u8]) -> io::Result<()> {
        print!(rt; "  stray")?;
        for byte in bytes {
            print!(rt; " {byte:02x}")?;
        }
        println!(rt)?;
        self.feed(rt, bytes)
    }

    // A line that changes no store.
    fn show(&mut self, rt: &impl Print, line: &[u8]) -> io::Result<()> {
        match line {
            [b'?', ..] => show_store(rt, &self.store),
            [b'.', ..] => say(rt, "        ", beyond(line, 2)),
            [b'^', rest @ ..] => {
                say(rt, "  side by side at ", rest)?;
                self.show_differences(rt, number_of(rest))
            }
            [b'%', rest @ ..] => {
                say(rt, "  newer at ", rest)?;
                self.show_newer(rt, rest)
            }
            _ => say(rt, "", line),
        }
    }

    fn line(&mut self, rt: &impl Print, line: &[u8]) -> io::Result<()> {
        match line {
            [b'0'..=b'9', ..] => self.send(rt, line),
            [b'!', rest @ ..] => self.send_stray(rt, rest),
            [b'~', rest @ ..] => {
                self.cut = Some(number_of(rest) as usize).filter(|cut| *cut != 0);
                Ok(())
            }
            [b'=', ..] => {
                self.begin([0; STORE]);
                say(rt, "\n", beyond(line, 2))
            }
            [b'&', ..] => {
                self.begin(self.store);
                rt.write_all(
                    b"  store put aside as the first handset's, and the second's begins empty\n",
                )
            }
            _ => self.show(rt, line),
        }
    }
}

fn play_all(rt: &impl Print, script: &[u8]) -> io::Result<()> {
    let mut play = Play::fresh();
    for line in script.split_inclusive(|b| *b == b'\n') {
        play.line(rt, line.strip_suffix(b"\n").unwrap_or(line))?;
    }
    Ok(())
}

// A failed read is the script's end, and what a failed write was to write is lost.
fn main(rt: HostRuntime) {
    let mut space = [0u8; SCRIPT];
    let size = read_full(&mut rt.stdin(), &mut space);
    let _ = play_all(&Steady { rt: &rt }, &space[..size]);
}
