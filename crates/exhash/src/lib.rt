// The C interface: thin exported functions, no logic. None has a `requires`: each answers and never traps, whatever bytes it gets.
#![tactic(auto)]

ghost use Rattle.std.specs.Prelude.{◌≡◌, cond};
ghost use Rattle.store.specs.Store.{well_formed};
ghost use Rattle.compare.specs.Newer.{place_of};
ghost use Rattle.compare.specs.Calls.{compare, newer_in};
ghost use Rattle.feeder.specs.State.{fresh};
ghost use Rattle.feeder.specs.Feed.{feed};

use compare::{Compared, Place};
use feeder::{Fed, Feeder};

// A state with no byte waiting.
#[unsafe(no_mangle)]
pub extern "C" fn exh_feeder_fresh() -> Feeder
    ensures { result ≡ fresh }
{
    Feeder::fresh()
}

// One feeding call. It lends the state that it got, as `Feeder::feed` does, and does not call that: the state would be copied once more.
#[unsafe(no_mangle)]
pub extern "C" fn exh_feed(
    mut feeder: Feeder,
    piece: &[u8],
    store: &mut [u8],
    reply: &mut [u8],
) -> Fed
    ensures { record { fed = result; store = store.new; buffer = reply.new }
        ≡ feed feeder piece.now store.old reply.old }
{
    let taken = feeder.feed_lent(piece, store, reply);
    feeder.answer(taken)
}

// 0 where the bytes are a well-formed store, else 2.
#[unsafe(no_mangle)]
pub extern "C" fn exh_store_check(store: &[u8]) -> u32
    ensures { result ≡ cond (well_formed store.now) 0 2 }
{
    if store::check::well_formed(store) {
        return 0;
    }
    2
}

// What two stores differ in at an instant, as a listing in a lent output.
#[unsafe(no_mangle)]
pub extern "C" fn exh_compare(first: &[u8], second: &[u8], instant: u64, out: &mut [u8]) -> Compared
    ensures { record { compared = result; output = out.new }
        ≡ compare first.now second.now instant out.old }
{
    compare::listing::compare(first, second, instant, out)
}

// Where the newer value of a key and a field stands.
#[unsafe(no_mangle)]
pub extern "C" fn exh_newer(
    first: &[u8],
    second: &[u8],
    key: &[u8],
    field: &[u8],
    instant: u64,
) -> Place
    ensures { let which = newer_in first.now second.now key.now field.now instant in
        result ≡ place_of first.now second.now which }
{
    compare::newer::newer_place(first, second, key, field, instant)
}
