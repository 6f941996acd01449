// Does the rows of standard input, each on an empty store of two slots, and writes each command with its reply, and then what the store holds. A row is
// a line that names it and a line for each command: the record's clock, and the words with one space between. An empty line stands between rows.
#![tactic(auto)]

use commands::execute::{BUFFER_LEAST, execute};
use programs::{Steady, put_command, read_full, show_slots};
use std::io;
use store::check::well_formed;
use store::layout::{HEADER_SIZE, SLOT_SIZE};
use store::read;
use wire::bytes::clear;
use wire::integers::read_natural;

const INPUT: usize = 8192;

// A store of two slots.
const STORE: usize = HEADER_SIZE + 2 * SLOT_SIZE;

// The longest line of words, and room for it as RESP.
const LINE: usize = 160;

const COMMAND: usize = 2048;

// Writes bytes as a line, CR and LF spelt out.
fn write_spelt(rt: &impl Print, s: &[u8]) -> io::Result<()> {
    for byte in s {
        match *byte {
            b'\r' => rt.write_all(b"\\r")?,
            b'\n' => rt.write_all(b"\\n")?,
            other => rt.write_all(&[other])?,
        }
    }
    println!(rt)
}

// Does a command on a well-formed store, and writes the reply.
fn answer(rt: &impl Print, clock: u64, command: &[u8], store: &mut [u8]) -> io::Result<()> {
    if !well_formed(store) {
        return Ok(());
    }
    let mut reply = [0u8; BUFFER_LEAST];
    let done = execute(clock, command, store, &mut reply);
    print!(rt; "      ")?;
    write_spelt(rt, &reply[..done.replied])
}

// Does the command of a line of words on a store, and writes it and its reply. A line that is too long is passed over.
fn run_line(rt: &impl Print, clock: u64, line: &[u8], store: &mut [u8]) -> io::Result<()> {
    if LINE < line.len() {
        return Ok(());
    }
    print!(rt; "{clock}  ")?;
    write_spelt(rt, line)?;
    let mut command = [0u8; COMMAND];
    let size = put_command(line, LINE, LINE, &mut command);
    answer(rt, clock, &command[..size], store)
}

fn show_expiry<R: Print>(rt: &R, expiry: Option<u64>) -> io::Result<()> {
    match expiry {
        None => println!(rt; ", no expiry"),
        Some(instant) => println!(rt; ", expires at {instant}"),
    }
}

// Writes what a well-formed store holds: its clock, and each slot.
fn show_store<R: Print>(rt: &R, store: &[u8]) -> io::Result<()> {
    if !well_formed(store) {
        return Ok(());
    }
    println!(rt; "clock {}", read::clock(store))?;
    show_slots(rt, "", store, show_expiry)?;
    Ok(())
}

// Does what a line asks: shows the store after a row, starts a row on an empty store, or does a command.
fn take_line(rt: &impl Print, line: &[u8], store: &mut [u8]) -> io::Result<()> {
    if line.is_empty() {
        show_store(rt, store)?;
        return println!(rt);
    }
    let mut parts = line.splitn(2, |b| *b == b' ');
    let clock = parts.next().and_then(|word| read_natural(word, u64::MAX));
    match (clock, parts.next()) {
        (Some(clock), Some(words)) => run_line(rt, clock, words, store),
        (Some(_), None) => Ok(()),
        (None, _) => {
            clear(store);
            write_spelt(rt, line)
        }
    }
}

fn take_lines(rt: &impl Print, input: &[u8], store: &mut [u8]) -> io::Result<()> {
    for line in input.split_inclusive(|b| *b == b'\n') {
        take_line(rt, line.strip_suffix(b"\n").unwrap_or(line), store)?;
    }
    show_store(rt, store)
}

// A failed read is the input's end, and what a failed write was to write is lost.
fn main(rt: HostRuntime) {
    let mut input = [0u8; INPUT];
    let size = read_full(&mut rt.stdin(), &mut input);
    let mut store = [0u8; STORE];
    let _ = take_lines(&Steady { rt: &rt }, &input[..size], &mut store);
}
