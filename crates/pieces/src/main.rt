// Feeds the stream of standard input uncut, and then in pieces of 1, 2, 7 and 1,000 bytes, each way from a fresh feeder and an empty store of four
// slots, and writes what each way comes to and whether it comes to the same as uncut.
#![tactic(auto)]

ghost use Rattle.std.specs.Prelude.{◌<◌};

use commands::execute::BUFFER_LEAST;
use feeder::{Fed, Feeder};
use programs::{Steady, read_full, unused};
use std::io;
use store::layout::{HEADER_SIZE, SLOT_SIZE};

const STREAM: usize = 100000;

// A store of four slots.
const STORE: usize = HEADER_SIZE + 4 * SLOT_SIZE;

const MODULUS: u64 = 4294967291;

// What the calls so far come to: the joined replies' length and checksum, the bytes skipped, and the state.
#[derive(Clone, Copy)]
struct Totals {
    replied: u64,
    checksum: u64,
    skipped: u64,
    feeder: Feeder,
}

// What a stream comes to.
#[derive(Clone, Copy, PartialEq)]
struct Outcome {
    replied: u64,
    replies: u64,
    skipped: u64,
    waiting: u64,
    store: u64,
}

// The checksum of bytes that follow those of another checksum.
fn checksum(before: u64, s: &[u8]) -> u64 {
    s.iter().fold(before, |sum, byte| {
        (sum % MODULUS * 31 + u64::from(*byte)) % MODULUS
    })
}

// One call more.
fn tally(before: Totals, fed: Fed, reply: &[u8]) -> Totals {
    let replied = &reply[..fed.replied.min(reply.len())];
    Totals {
        replied: before.replied.wrapping_add(fed.replied as u64),
        checksum: checksum(before.checksum, replied),
        skipped: before.skipped.wrapping_add(fed.skipped as u64),
        feeder: fed.feeder,
    }
}

// Offers a piece until it is used up.
fn feed_piece(before: Totals, piece: &[u8], store: &mut [u8], reply: &mut [u8]) -> Totals {
    let mut totals = before;
    let mut rest = piece;
    while !rest.is_empty() {
        let fed = totals.feeder.feed(rest, store, reply);
        totals = tally(totals, fed, reply);
        rest = unused(rest, fed.used);
    }
    totals
}

// Feeds a stream in pieces of `cut` bytes.
fn feed_cut(stream: &[u8], cut: usize, store: &mut [u8], reply: &mut [u8]) -> Totals
    requires { 0 < cut }
{
    let mut totals = Totals {
        replied: 0,
        checksum: 0,
        skipped: 0,
        feeder: Feeder::fresh(),
    };
    for piece in stream.chunks(cut) {
        totals = feed_piece(totals, piece, store, reply);
    }
    totals
}

// What a stream comes to from a fresh feeder and an empty store.
fn feed_way(stream: &[u8], cut: usize) -> Outcome
    requires { 0 < cut }
{
    let mut store = [0u8; STORE];
    let mut reply = [0u8; BUFFER_LEAST];
    let totals = feed_cut(stream, cut, &mut store, &mut reply);
    Outcome {
        replied: totals.replied,
        replies: totals.checksum,
        skipped: totals.skipped,
        waiting: totals.feeder.count as u64,
        store: checksum(0, &store),
    }
}

fn show(rt: &impl Print, o: Outcome) -> io::Result<()> {
    println!(rt; "replies {}, checksum {}", o.replied, o.replies)?;
    println!(rt; "skipped {}\nwaiting {}", o.skipped, o.waiting)?;
    println!(rt; "store's checksum {}", o.store)
}

// Feeds the stream uncut and in pieces, and says whether each way comes to the same.
fn try_cuts(rt: &impl Print, stream: &[u8]) -> io::Result<()> {
    let uncut = feed_way(stream, usize::MAX);
    println!(rt; "uncut")?;
    show(rt, uncut)?;
    for cut in [1, 2, 7, 1000] {
        let o = feed_way(stream, cut);
        println!(rt; "in pieces of {cut}")?;
        show(rt, o)?;
        println!(rt;
            "{}",
            if o == uncut {
                "as uncut"
            } else {
                "not as uncut"
            }
        )?;
    }
    Ok(())
}

// A failed read is the stream's end, and what a failed write was to write is lost.
fn main(rt: HostRuntime) {
    let mut space = [0u8; STREAM];
    let size = read_full(&mut rt.stdin(), &mut space);
    let _ = try_cuts(&Steady { rt: &rt }, &space[..size]);
}
