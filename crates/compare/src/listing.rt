// The listing of what two stores differ in.
ghost use Rattle.std.specs.Prelude.{◌≡◌, true, ◌≤◌, ◌<◌, length};
ghost use Rattle.wire.specs.Promises.{Laid};
ghost use Rattle.store.specs.Store.{decode, well_formed, entry_at};
ghost use Rattle.store.specs.Promises.{Held};
ghost use Rattle.compare.specs.Listing.{listing};
ghost use Rattle.compare.specs.Calls.{compare};
ghost use Rattle.compare.specs.Promises.{HeldIn, first_mark_for, second_mark_for, pass_mark, slot_text, pass_text, compared_of};

use crate::check::{Refusal, check_call};
use crate::line::put_line;
use crate::live::{agree, live_near};
use crate::{Compared, Pass};
use store::read;

// The least size of an output.
pub const OUTPUT_LEAST: usize = 16000;

// How a line begins.
const ONLY_FIRST: u8 = b'<';

const ONLY_SECOND: u8 = b'>';

const DIFFERENT: u8 = b'~';

// The mark of an entry of the first store, whose key and field were looked for in the second.
fn first_mark(first: &[u8], i: usize, second: &[u8], found: Option<usize>) -> Option<u8>
    requires { (Held first.now i) × (HeldIn second.now found) }
    ensures { result ≡ first_mark_for (entry_at (decode first.now).slots i) (decode second.now).slots found }
{
    match found {
        None => Some(ONLY_FIRST),
        Some(j) if agree(first, i, second, j) => None,
        Some(_) => Some(DIFFERENT),
    }
}

// The mark of an entry of the second store, whose key and field were looked for in the first.
#[tactic(auto, unfolding(wire::specs::Lists::or_else))]
fn second_mark(found: Option<usize>) -> Option<u8>
    ensures { result ≡ second_mark_for found }
{
    match found {
        Some(_) => None,
        None => Some(ONLY_SECOND),
    }
}

// A well-formed store whose slots are listed, beside another, at an instant.
#[derive(Clone, Copy)]
struct Side<'a> {
    pass: Pass,
    store: &'a [u8],
    other: &'a [u8],
    instant: u64,
    ghost store_well: { well_formed store.now ≡ true },
    ghost other_well: { well_formed other.now ≡ true },
}

impl Side<'_> {
    // The mark of the entry in slot i.
    fn mark_of(&self, i: usize) -> Option<u8>
        requires { Held self.now.store.now i }
        ensures { result ≡ pass_mark self.now.pass self.now.instant (decode self.now.other.now).slots (entry_at (decode self.now.store.now).slots i) }
    {
        let key = read::key(self.store, i);
        let field = read::field(self.store, i);
        let found = live_near(self.other, key, field, self.instant, i);
        match self.pass {
            Pass::First => first_mark(self.store, i, self.other, found),
            Pass::Second => second_mark(found),
        }
    }

    // The line of slot i, where it has one.
    fn put_slot(&self, i: usize, out: &mut [u8]) -> usize
        requires i_in_store { i < length (decode self.now.store.now).slots }
        requires i_in_bounds { length (slot_text self.now.pass self.now.instant self.now.store.now self.now.other.now i) ≤ length out.old }
        ensures { Laid (slot_text self.now.pass self.now.instant self.now.store.now self.now.other.now i) out.old out.new result }
    {
        if !read::is_live(self.store, i, self.instant) {
            return 0;
        }
        let Some(mark) = self.mark_of(i) else {
            return 0;
        };
        put_line(
            mark,
            read::key(self.store, i).len(),
            read::field(self.store, i).len(),
            i,
            out,
        )
    }

    // The lines of all slots.
    fn put_lines(&self, out: &mut [u8]) -> usize
        requires { length (pass_text self.now.pass self.now.instant self.now.store.now self.now.other.now) ≤ length out.old }
        ensures { Laid (pass_text self.now.pass self.now.instant self.now.store.now self.now.other.now) out.old out.new result }
    {
        let mut at = 0;
        for i in 0..read::slots(self.store) {
            at += self.put_slot(i, &mut out[at..]);
        }
        at
    }
}

// The lines of the first store's slots, then those of the second's.
fn put_listing(first: &[u8], second: &[u8], instant: u64, out: &mut [u8]) -> usize
    requires first_value { (well_formed first.now ≡ true) × (well_formed second.now ≡ true) }
    requires second_in_bounds { length (listing instant (decode first.now) (decode second.now)) ≤ length out.old }
    ensures { let shown = listing instant (decode first.now) (decode second.now) in
        Laid shown out.old out.new result }
{
    let first_side = Side {
        pass: Pass::First,
        store: first,
        other: second,
        instant,
    };
    let second_side = Side {
        pass: Pass::Second,
        store: second,
        other: first,
        instant,
    };
    let at = first_side.put_lines(out);
    second_side.put_lines(&mut out[at..]) + at
}

// The listing's length, or why the call is refused.
fn list(first: &[u8], second: &[u8], instant: u64, out: &mut [u8]) -> Result<usize, Refusal>
    ensures { record { compared = compared_of result; output = out.new }
        ≡ compare first.now second.now instant out.old }
{
    check_call(first, second, instant)?;
    if out.len() < OUTPUT_LEAST {
        return Err(Refusal::OutputShort);
    }
    Ok(put_listing(first, second, instant, out))
}

// The listing's call. It asks nothing: damage is refused by number.
pub fn compare(first: &[u8], second: &[u8], instant: u64, out: &mut [u8]) -> Compared
    ensures { record { compared = result; output = out.new }
        ≡ compare first.now second.now instant out.old }
{
    match list(first, second, instant, out) {
        Ok(written) => Compared {
            refusal: 0,
            written,
        },
        Err(refusal) => Compared {
            refusal: refusal.number(),
            written: 0,
        },
    }
}
