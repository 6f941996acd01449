// Reads searches from standard input: a store after its size in 4 bytes, low first, then a key and a field, each after its length in one byte. Writes a
// line for each: the slot that holds them, or `-`, and how many bytes were compared; `2` where the store is not well formed. At most 400,000
// bytes are read.
#![tactic(auto)]

ghost use Rattle.std.specs.Prelude.{◌<◌, length, IfSome};

use programs::{Steady, read_full, take_sized};
use std::io;
use store::check::well_formed;
use store::find;

const INPUT: usize = 400000;

#[derive(Clone, Copy)]
struct Search<'a> {
    store: &'a [u8],
    key: &'a [u8],
    field: &'a [u8],
}

// The bytes that stand after their length, and what follows them; none where the input is cut short.
fn take_name(input: &[u8]) -> Option<(&[u8], &[u8])>
    ensures { IfSome result (λ p. length p.1.now < length input.now) }
{
    let (size, rest) = input.split_first()?;
    rest.split_at_checked(*size as usize)
}

fn take_search(input: &[u8]) -> Option<(Search<'_>, &[u8])>
    ensures { IfSome result (λ p. length p.1.now < length input.now) }
{
    let (store, rest) = take_sized(input)?;
    let (key, rest) = take_name(rest)?;
    let (field, rest) = take_name(rest)?;
    Some((Search { store, key, field }, rest))
}

fn show(rt: &impl Print, search: Search<'_>) -> io::Result<()> {
    if !well_formed(search.store) {
        return rt.write_all(b"2\n");
    }
    let searched = find::search(search.store, search.key, search.field);
    match searched.found {
        Some(i) => print!(rt; "{i}")?,
        None => print!(rt; "-")?,
    }
    println!(rt; " {}", searched.compared)
}

fn search_all(rt: &impl Print, input: &[u8]) -> io::Result<()> {
    let mut rest = input;
    while let Some((search, after)) = take_search(rest) {
        show(rt, search)?;
        rest = after;
    }
    Ok(())
}

// A failed read is the input's end, and what a failed write was to write is lost.
fn main(rt: HostRuntime) {
    let mut space = [0u8; INPUT];
    let size = read_full(&mut rt.stdin(), &mut space);
    let _ = search_all(&Steady { rt: &rt }, &space[..size]);
}
