// Which bytes are a store. This is the cost of every call, so each byte is looked at about once.
ghost use Rattle.std.specs.Prelude.{◌≡◌, true, ◌+◌, ◌*◌, ◌≤◌, length};
ghost use Rattle.wire.specs.Lists.{every};
ghost use Rattle.store.specs.Layout.{header_size, slot_size};
ghost use Rattle.store.specs.Store.{slot_well, well_formed, header_tests, length_tests, expiry_tests, place_tests};
ghost use Rattle.store.specs.Promises.{count_for, FilterSize, slots_good};

use crate::duplicates::repeats;
use crate::layout::{
    CLOCK_SIZE, EMPTY_STATE, EXPIRING_STATE, EXPIRY_AT, FIELD_AT, FIELD_LENGTH_AT, FIELD_MOST,
    HEADER_SIZE, KEY_AT, KEY_LENGTH_AT, KEY_MOST, SLOT_SIZE, SLOTS_MOST, STATE_AT, TIME_LIMIT,
    VALUE_AT, VALUE_LENGTH_AT, VALUE_MOST,
};
use crate::padding::padding;
use crate::slot;
use wire::bytes::{all_zero, read_le};

// The words of the filter of names, about one a slot: a small store clears a small one.
const FEW_WORDS: usize = 128;

const MANY_WORDS: usize = 512;

// How many slots the bytes have, or 0 where their length is not a store's.
fn slot_count(size: usize) -> usize
    ensures { result ≡ count_for size }
{
    if size < HEADER_SIZE {
        return 0;
    }
    let count = (size - HEADER_SIZE) / SLOT_SIZE;
    if SLOTS_MOST < count {
        return 0;
    }
    if HEADER_SIZE + SLOT_SIZE * count != size {
        return 0;
    }
    count
}

// Whether the header is well formed.
fn header_well(store: &[u8]) -> bool
    requires { header_size ≤ length store.now }
    ensures { result ≡ every (header_tests store.now) }
{
    read_le(&store[0..CLOCK_SIZE]) < TIME_LIMIT && all_zero(&store[CLOCK_SIZE..HEADER_SIZE])
}

// Whether a held slot's state and lengths are well formed.
fn lengths_well(t: &[u8; SLOT_SIZE]) -> bool
    ensures { result ≡ every (length_tests t.now) }
{
    t[STATE_AT] <= EXPIRING_STATE
        && t[KEY_LENGTH_AT] as usize <= KEY_MOST
        && t[FIELD_LENGTH_AT] as usize <= FIELD_MOST
        && t[VALUE_LENGTH_AT] as usize <= VALUE_MOST
}

// Whether a held slot's expiry is well formed. Where it has none the instant is zero, and zero is looked for first: few slots expire.
fn expiry_well(t: &[u8; SLOT_SIZE]) -> bool
    ensures { result ≡ every (expiry_tests t.now) }
{
    let instant = read_le(&t[EXPIRY_AT..KEY_AT]);
    instant == 0 || t[STATE_AT] == EXPIRING_STATE && instant <= TIME_LIMIT
}

// Whether a held slot's places are zero beyond their lengths.
fn places_well(t: &[u8; SLOT_SIZE]) -> bool
    requires { every (length_tests t.now) ≡ true }
    ensures { result ≡ every (place_tests t.now) }
{
    let key_length = t[KEY_LENGTH_AT] as usize;
    let field_length = t[FIELD_LENGTH_AT] as usize;
    let value_length = t[VALUE_LENGTH_AT] as usize;
    let key = padding(t, KEY_AT, KEY_MOST, key_length);
    let field = padding(t, FIELD_AT, FIELD_MOST, field_length);
    let value = padding(t, VALUE_AT, VALUE_MOST, value_length);
    (key | field | value) == 0
}

// Whether a slot's bytes are well formed.
fn slot_well(t: &[u8; SLOT_SIZE]) -> bool
    ensures { result ≡ slot_well t.now }
{
    if t[STATE_AT] == EMPTY_STATE {
        return all_zero(t);
    }
    if !lengths_well(t) {
        return false;
    }
    expiry_well(t) && places_well(t)
}

// Whether every slot is well formed and no two hold entries of the same key and field, looked at from the last to the first: each slot once, its
// rules and then its name, which is kept in the filter.
fn slots_well(store: &[u8], count: usize, filter: &mut [u64]) -> bool
    requires count_in_bounds { header_size + slot_size * count ≤ length store.now }
    requires filter_size { FilterSize filter.old }
    ensures { result ≡ slots_good count store.now }
{
    for i in (0..count).rev() {
        if !slot_well(slot::bytes(store, i)) {
            return false;
        }
        if repeats(store, count, i, filter) {
            return false;
        }
    }
    true
}

// The same with a filter of so many words.
fn well_with<const WORDS: usize>(store: &[u8], count: usize) -> bool
    requires words_in_bounds { (1 ≤ WORDS) × (WORDS ≤ 512) }
    requires count_in_bounds { header_size + slot_size * count ≤ length store.now }
    ensures { result ≡ slots_good count store.now }
{
    let mut filter = [0u64; WORDS];
    slots_well(store, count, &mut filter)
}

// Whether bytes are a well-formed store.
pub fn well_formed(store: &[u8]) -> bool
    ensures { result ≡ well_formed store.now }
{
    let count = slot_count(store.len());
    if count == 0 {
        return false;
    }
    if !header_well(store) {
        return false;
    }
    if count <= FEW_WORDS {
        return well_with::<FEW_WORDS>(store, count);
    }
    well_with::<MANY_WORDS>(store, count)
}
