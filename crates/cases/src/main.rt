// Reads the second implementation's cases from standard input: streams, each with its answers (rust/make_cases has the form). Feeds each stream from a
// fresh feeder, uncut and in pieces of 7 bytes and of 1, and writes in how many cases replies, skipped bytes, waiting bytes and store are the case's.
#![tactic(auto)]

ghost use Rattle.std.specs.Prelude.{◌<◌, ◌≤◌, length};

use commands::execute::BUFFER_LEAST;
use feeder::{Fed, Feeder};
use programs::{Steady, read_full, take_sized, unused};
use std::io;

const INPUT: usize = 400000;

// The most bytes that a case's store has.
const MOST: usize = 1500;

// A case: the store before, the stream, and the answers.
#[derive(Clone, Copy)]
struct Case<'a> {
    store: &'a [u8],
    stream: &'a [u8],
    replies: &'a [u8],
    skipped: u64,
    waiting: &'a [u8],
    after: &'a [u8],
}

// What the calls so far, each taken and replied as expected, come to: the replies that are left, the bytes skipped, and the state.
#[derive(Clone, Copy)]
struct Run<'a> {
    replies: &'a [u8],
    skipped: u64,
    feeder: Feeder,
}

// How many cases there are, and how many agree each way.
#[derive(Clone, Copy)]
struct Score {
    cases: u64,
    uncut: u64,
    sevens: u64,
    ones: u64,
}

// The part at the front, which stands after its size, and what follows it; nothing where the input is cut short.
fn take_part(input: &[u8]) -> (&[u8], &[u8])
    ensures any { length result.1.now ≤ length input.now }
    ensures some { 0 < length input.now → length result.1.now < length input.now }
{
    take_sized(input).unwrap_or((&[], &[]))
}

// The number at the front and what follows it; 0 and nothing where the input is cut short.
fn take_number(input: &[u8]) -> (u64, &[u8])
    ensures { length result.1.now ≤ length input.now }
{
    match input.split_first_chunk::<8>() {
        Some((number, rest)) => (u64::from_le_bytes(*number), rest),
        None => (0, &[]),
    }
}

// The case at the front, and what follows it.
fn take_case(input: &[u8]) -> (Case<'_>, &[u8])
    ensures { 0 < length input.now → length result.1.now < length input.now }
{
    let (store, rest) = take_part(input);
    let (stream, rest) = take_part(rest);
    let (replies, rest) = take_part(rest);
    let (skipped, rest) = take_number(rest);
    let (waiting, rest) = take_part(rest);
    let (after, rest) = take_part(rest);
    let case = Case {
        store,
        stream,
        replies,
        skipped,
        waiting,
        after,
    };
    (case, rest)
}

// One call more; none where it was refused, or replied otherwise than expected.
fn with_call<'a>(run: Run<'a>, fed: Fed, reply: &[u8]) -> Option<Run<'a>> {
    if fed.refusal != 0 {
        return None;
    }
    Some(Run {
        replies: run.replies.strip_prefix(reply.get(..fed.replied)?)?,
        skipped: run.skipped.wrapping_add(fed.skipped as u64),
        feeder: fed.feeder,
    })
}

// Feeds a case's stream, each call offered at most the next `cut` bytes.
fn feed_cut<'a>(case: Case<'a>, cut: usize, store: &mut [u8], reply: &mut [u8]) -> Option<Run<'a>> {
    let mut run = Run {
        replies: case.replies,
        skipped: 0,
        feeder: Feeder::fresh(),
    };
    let mut rest = case.stream;
    while !rest.is_empty() {
        let piece = &rest[..cut.min(rest.len())];
        let fed = run.feeder.feed(piece, store, reply);
        run = with_call(run, fed, reply)?;
        rest = unused(rest, fed.used);
    }
    Some(run)
}

// Whether a run comes to a case's replies, skipped bytes and waiting bytes.
fn comes_to(run: Run<'_>, case: Case<'_>) -> bool {
    run.replies.is_empty()
        && run.skipped == case.skipped
        && run.feeder.waiting.get(..run.feeder.count) == Some(case.waiting)
}

// Whether a case's stream comes to its answers on a copy of its store.
fn agrees(case: Case<'_>, cut: usize) -> bool {
    let size = case.store.len();
    if MOST < size {
        return false;
    }
    let mut space = [0u8; MOST];
    let store = &mut space[..size];
    store.copy_from_slice(case.store);
    let mut reply = [0u8; BUFFER_LEAST];
    match feed_cut(case, cut, store, &mut reply) {
        Some(run) => comes_to(run, case) && *store == *case.after,
        None => false,
    }
}

// 1 where a case agrees, fed uncut or in pieces; else 0, and it says which case differs.
fn try_cut(rt: &impl Print, case: Case<'_>, number: u64, cut: Option<usize>) -> io::Result<u64> {
    if agrees(case, cut.unwrap_or(usize::MAX)) {
        return Ok(1);
    }
    match cut {
        None => println!(rt; "case {number} differs uncut")?,
        Some(cut) => println!(rt; "case {number} differs in pieces of {cut}")?,
    }
    Ok(0)
}

// One case more, tried each way.
fn with_case(rt: &impl Print, score: Score, case: Case<'_>) -> io::Result<Score> {
    let number = score.cases.wrapping_add(1);
    let uncut = try_cut(rt, case, number, None)?;
    let sevens = try_cut(rt, case, number, Some(7))?;
    let ones = try_cut(rt, case, number, Some(1))?;
    Ok(Score {
        cases: number,
        uncut: score.uncut.wrapping_add(uncut),
        sevens: score.sevens.wrapping_add(sevens),
        ones: score.ones.wrapping_add(ones),
    })
}

fn try_all(rt: &impl Print, input: &[u8]) -> io::Result<()> {
    let mut score = Score {
        cases: 0,
        uncut: 0,
        sevens: 0,
        ones: 0,
    };
    let mut rest = input;
    while !rest.is_empty() {
        let (case, after) = take_case(rest);
        score = with_case(rt, score, case)?;
        rest = after;
    }
    print!(rt; "{} cases: {} agree uncut, ", score.cases, score.uncut)?;
    println!(rt;
        "{} in pieces of 7, {} in pieces of 1",
        score.sevens, score.ones
    )
}

// A failed read is the input's end, and what a failed write was to write is lost.
fn main(rt: HostRuntime) {
    let mut space = [0u8; INPUT];
    let size = read_full(&mut rt.stdin(), &mut space);
    let _ = try_all(&Steady { rt: &rt }, &space[..size]);
}
