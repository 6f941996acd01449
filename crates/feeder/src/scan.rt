// Where reading stops in the waiting bytes and those of a piece, taken as one list.
ghost use Rattle.std.specs.Prelude.{◌≡◌, ◌==◌, true, ◌++◌, ◌+◌, ◌≤◌, ◌<◌, length};
ghost use Rattle.std.specs.List.{position};
ghost use Rattle.feeder.specs.Record.{first_mark};
ghost use Rattle.feeder.specs.Promises.{block_size, UnmarkedPairs, UnmarkedUpTo, NextPlace, joined, stop_of};

use crate::record::{FIRST_MARK, Head, Joined, SECOND_MARK};

// The first record, by its place and its command's size, or where the rest that waits starts.
#[derive(Clone, Copy)]
pub enum Stop {
    Record(usize, usize),
    Rest(usize),
}

// Bytes that are looked at together.
const BLOCK_SIZE: usize = 64;

// Whether no byte of a block begins a mark with the byte that follows it. All are looked at, with no early end and no `&&`, so that the loop can
// run on vectors.
fn is_unmarked(block: &[u8], following: &[u8]) -> bool
    requires block_len { length block.now ≡ block_size }
    requires following_len { length following.now ≡ block_size }
    ensures { result ≡ true → UnmarkedPairs block.now following.now }
{
    let mut unmarked = true;
    for (i, byte) in block.iter().enumerate() {
        unmarked = unmarked & !((*byte == FIRST_MARK) & (following[i] == SECOND_MARK));
    }
    unmarked
}

// Past all blocks of a piece, from a place on, in which no mark begins.
fn pass_blocks(piece: &[u8], from: usize) -> usize
    requires { from ≤ length piece.now }
    ensures { UnmarkedUpTo piece.now from result }
{
    let mut i = from;
    while BLOCK_SIZE < piece.len() - i {
        let end = i + BLOCK_SIZE;
        if !is_unmarked(&piece[i..end], &piece[i + 1..end + 1]) {
            return i;
        }
        i = end;
    }
    i
}

// The first byte that begins a mark, byte by byte.
fn first_byte(bytes: &[u8]) -> Option<usize>
    ensures { result ≡ position (λ b. b == first_mark) bytes.now }
{
    bytes.iter().position(|byte| *byte == FIRST_MARK)
}

// The next byte of a piece from a place on that begins a mark, or the end, past all blocks in which no mark begins.
#[tactic(auto, using(crate::proofs::ScanStops::pass_on, crate::proofs::ScanStops::pass_others))]
fn next_mark(piece: &[u8], from: usize) -> usize
    requires { from ≤ length piece.now }
    ensures { UnmarkedUpTo piece.now from result }
{
    let i = pass_blocks(piece, from);
    i + first_byte(&piece[i..]).unwrap_or(piece.len() - i)
}

impl Joined<'_> {
    // The place to look at after one whose byte is skipped. In the piece all bytes up to the next one that begins a mark
    // are passed over.
    fn next_place(&self, at: usize) -> usize
        requires { at < length (joined self.now) }
        ensures { NextPlace (joined self.now) at result }
    {
        let next = at + 1;
        let before = self.waiting.len();
        if next < before {
            return next;
        }
        let from = next - before;
        before + next_mark(self.piece, from)
    }

    #[tactic(auto, using(crate::proofs::ScanStops::tells_stop))]
    pub fn first_stop(&self) -> Stop
        ensures { result ≡ stop_of (joined self.now) }
    {
        let end = self.len();
        let mut at = 0;
        while at < end {
            let head = self.head_at(at);
            match head {
                Head::Whole(size) => return Stop::Record(at, size),
                Head::Wait => return Stop::Rest(at),
                Head::Skip => at = self.next_place(at),
            }
        }
        Stop::Rest(end)
    }
}
