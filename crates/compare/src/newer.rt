// The newer value of one field.
ghost use Rattle.std.specs.Prelude.{◌≡◌, length};
ghost use Rattle.store.specs.Store.{decode, entry_at};
ghost use Rattle.store.specs.Layout.{value_start};
ghost use Rattle.store.specs.Promises.{Held};
ghost use Rattle.compare.specs.Newer.{newer_of, place_of, part_at};
ghost use Rattle.compare.specs.Calls.{newer_in};
ghost use Rattle.compare.specs.Promises.{HeldIn};

use crate::check::check_call;
use crate::live::live_near;
use crate::{Place, Which};
use store::read;

// Which of two slots has the newer value, where key and field were looked for in both stores.
fn newer_of(first: &[u8], left: Option<usize>, second: &[u8], right: Option<usize>) -> Which
    requires { (HeldIn first.now left) × (HeldIn second.now right) }
    ensures { result ≡ newer_of (decode first.now).slots (decode second.now).slots left right }
{
    match (left, right) {
        (None, None) => Which::Neither,
        (Some(i), None) => Which::First(i),
        (None, Some(j)) => Which::Second(j),
        (Some(i), Some(j)) => {
            if read::version(first, i) < read::version(second, j) {
                Which::Second(j)
            } else {
                Which::First(i)
            }
        }
    }
}

// Which store has the newer value of a key and a field.
pub fn newer_in(first: &[u8], second: &[u8], key: &[u8], field: &[u8], instant: u64) -> Which
    ensures { result ≡ newer_in first.now second.now key.now field.now instant }
{
    if let Err(refusal) = check_call(first, second, instant) {
        return Which::Refused(refusal.number());
    }
    let left = live_near(first, key, field, instant, 0);
    let right = live_near(second, key, field, instant, 0);
    newer_of(first, left, second, right)
}

// The place of a value in a store's bytes, as the store of that number.
fn place(which: u32, store: &[u8], i: usize) -> Place
    requires { Held store.now i }
    ensures { result ≡ record { refusal = 0; which = which; start = value_start i; size = length (entry_at (decode store.now).slots i).value } }
{
    Place {
        refusal: 0,
        which,
        start: read::value_start(store, i),
        size: read::value(store, i).len(),
    }
}

// Where the newer value stands, in numbers.
pub fn newer_place(first: &[u8], second: &[u8], key: &[u8], field: &[u8], instant: u64) -> Place
    ensures { let which = newer_in first.now second.now key.now field.now instant in
        result ≡ place_of first.now second.now which }
{
    match newer_in(first, second, key, field, instant) {
        Which::First(i) => place(1, first, i),
        Which::Second(j) => place(2, second, j),
        Which::Neither => Place {
            refusal: 0,
            which: 0,
            start: 0,
            size: 0,
        },
        Which::Refused(refusal) => Place {
            refusal,
            which: 0,
            start: 0,
            size: 0,
        },
    }
}

// The newer value itself: a part of the first store or of the second, an empty part of the first where there is none.
pub fn newer<'a>(
    first: &'a [u8],
    second: &'a [u8],
    key: &[u8],
    field: &[u8],
    instant: u64,
) -> &'a [u8]
    ensures { let which = newer_in first.now second.now key.now field.now instant in
        result.now ≡ part_at first.now second.now (place_of first.now second.now which) }
{
    match newer_in(first, second, key, field, instant) {
        Which::First(i) => read::value(first, i),
        Which::Second(j) => read::value(second, j),
        Which::Neither | Which::Refused(_) => &first[..0],
    }
}
