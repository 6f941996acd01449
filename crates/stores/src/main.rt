// Reads stores from standard input, each after its size in 4 bytes, low first, and writes a line for each: 1 where it is well formed, else 0. At most
// 400,000 bytes are read.
#![tactic(auto)]

use programs::{Steady, read_full, take_sized};
use std::io;
use store::check::well_formed;

const INPUT: usize = 400000;

fn judge_all(rt: &impl Print, input: &[u8]) -> io::Result<()> {
    let mut rest = input;
    while let Some((bytes, after)) = take_sized(rest) {
        rt.write_all(if well_formed(bytes) { b"1\n" } else { b"0\n" })?;
        rest = after;
    }
    Ok(())
}

// A failed read is the input's end, and what a failed write was to write is lost.
fn main(rt: HostRuntime) {
    let mut space = [0u8; INPUT];
    let size = read_full(&mut rt.stdin(), &mut space);
    let _ = judge_all(&Steady { rt: &rt }, &space[..size]);
}
