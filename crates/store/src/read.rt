// What a well-formed store holds: its clock, and the parts of an entry.
ghost use Rattle.std.specs.Prelude.{◌≡◌, true, length, get_or, ◌<◌};
ghost use Rattle.std.specs.Prelude.{None};
ghost use Rattle.store.specs.Store.{decode, well_formed, slot_count, entry_at};
ghost use Rattle.store.specs.Time.{now_at, empty_slot, live_slot};
ghost use Rattle.store.specs.Layout.{value_start};
ghost use Rattle.store.specs.Promises.{Held};

use crate::layout::{CLOCK_SIZE, HEADER_SIZE, SLOT_SIZE, VALUE_AT};
use crate::slot::Slot;
use wire::bytes::read_le;

// How many slots a store has.
pub fn slots(store: &[u8]) -> usize
    requires { well_formed store.now ≡ true }
    ensures { result ≡ length (decode store.now).slots }
{
    (store.len() - HEADER_SIZE) / SLOT_SIZE
}

pub fn clock(store: &[u8]) -> u64
    requires { well_formed store.now ≡ true }
    ensures { result ≡ (decode store.now).clock }
{
    read_le(&store[0..CLOCK_SIZE])
}

// Now of a record's clock.
pub fn now_at(store: &[u8], time: u64) -> u64
    requires { well_formed store.now ≡ true }
    ensures { result ≡ now_at time (decode store.now) }
{
    clock(store).max(time)
}

// Whether slot i is empty.
pub fn is_empty(store: &[u8], i: usize) -> bool
    requires { (well_formed store.now ≡ true) × (i < slot_count store.now) }
    ensures { result ≡ empty_slot (get_or (decode store.now).slots i None) }
{
    Slot::of(store, i).is_empty()
}

// Whether slot i holds an entry that is live at a time.
pub fn is_live(store: &[u8], i: usize, time: u64) -> bool
    requires { (well_formed store.now ≡ true) × (i < slot_count store.now) }
    ensures { result ≡ live_slot time (get_or (decode store.now).slots i None) }
{
    Slot::of(store, i).is_live(time)
}

pub fn version(store: &[u8], i: usize) -> u64
    requires { Held store.now i }
    ensures { result ≡ (entry_at (decode store.now).slots i).version }
{
    Slot::of(store, i).version()
}

pub fn expiry(store: &[u8], i: usize) -> Option<u64>
    requires { Held store.now i }
    ensures { result ≡ (entry_at (decode store.now).slots i).expiry }
{
    Slot::of(store, i).expiry()
}

pub fn key(store: &[u8], i: usize) -> &[u8]
    requires { Held store.now i }
    ensures { result.now ≡ (entry_at (decode store.now).slots i).key }
{
    Slot::of(store, i).key()
}

pub fn field(store: &[u8], i: usize) -> &[u8]
    requires { Held store.now i }
    ensures { result.now ≡ (entry_at (decode store.now).slots i).field }
{
    Slot::of(store, i).field()
}

pub fn value(store: &[u8], i: usize) -> &[u8]
    requires { Held store.now i }
    ensures { result.now ≡ (entry_at (decode store.now).slots i).value }
{
    Slot::of(store, i).value()
}

// Where a slot's value begins in the store's bytes.
pub fn value_start(store: &[u8], i: usize) -> usize
    requires { Held store.now i }
    ensures { result ≡ value_start i }
{
    HEADER_SIZE + SLOT_SIZE * i + VALUE_AT
}
