// Changes of a well-formed store, each said by what the store then holds.
ghost use Rattle.std.specs.Prelude.{◌≡◌, true, length, ◌≤◌, ◌<◌, None, Some};
ghost use Rattle.wire.specs.Bytes.{padded};
ghost use Rattle.store.specs.Layout.{slot_size, time_limit, version_most};
ghost use Rattle.store.specs.Store.{decode, well_formed, slot_count, encode_entry, state_of, instant_of, with_clock, entry, entry_at};
ghost use Rattle.store.specs.Promises.{Held, Holds, Placeable, Writable, with_slot, stamped, stamped_bytes};

use crate::layout::{
    CLOCK_SIZE, EXPIRING_STATE, EXPIRY_AT, FIELD_AT, FIELD_LENGTH_AT, HELD_STATE, KEY_AT,
    KEY_LENGTH_AT, SLOT_SIZE, STATE_AT, VALUE_AT, VALUE_LENGTH_AT, VERSION_AT,
};
use crate::slot;
use wire::bytes::{clear, copy, write_le};

// Sets the clock.
pub fn set_clock(store: &mut [u8], time: u64)
    requires { (well_formed store.old ≡ true) × (time < time_limit) }
    ensures { Holds store.new (with_clock time (decode store.old)) }
{
    write_le(&mut store[0..CLOCK_SIZE], time);
}

// Empties slot i.
pub fn remove(store: &mut [u8], i: usize)
    requires { (well_formed store.old ≡ true) × (i < slot_count store.old) }
    ensures { Holds store.new (with_slot i None (decode store.old)) }
{
    clear(&mut store[slot::place(i)]);
}

// Writes bytes over a place, with zero after them. All of it is cleared, since the place has a fixed size.
fn write_padded(from: &[u8], to: &mut [u8])
    requires { length from.now ≤ length to.old }
    ensures { to.new ≡ padded (length to.old) from.now }
{
    clear(to);
    copy(from, to);
}

// The state of a slot that holds an entry.
fn state_of(expiry: Option<u64>) -> u8
    ensures { result ≡ state_of expiry }
{
    match expiry {
        None => HELD_STATE,
        Some(_) => EXPIRING_STATE,
    }
}

// The instant that is written for an expiry.
fn instant_of(expiry: Option<u64>) -> u64
    ensures { result ≡ instant_of expiry }
{
    expiry.unwrap_or(0)
}

// Writes state, version and expiry of one slot's bytes.
fn write_stamp(t: &mut [u8], version: u64, expiry: Option<u64>)
    requires { length t.old ≡ slot_size }
    ensures { t.new ≡ stamped_bytes version expiry t.old }
{
    t[STATE_AT] = state_of(expiry);
    write_le(&mut t[VERSION_AT..EXPIRY_AT], version);
    write_le(&mut t[EXPIRY_AT..KEY_AT], instant_of(expiry));
}

// Writes an entry over one slot's bytes.
fn write_entry(
    t: &mut [u8],
    key: &[u8],
    field: &[u8],
    value: &[u8],
    version: u64,
    expiry: Option<u64>,
)
    requires { Writable t.old key.now field.now value.now }
    ensures { t.new ≡ encode_entry (entry key.now field.now value.now version expiry) }
{
    t[KEY_LENGTH_AT] = (key.len() % 256) as u8;
    t[FIELD_LENGTH_AT] = (field.len() % 256) as u8;
    t[VALUE_LENGTH_AT] = (value.len() % 256) as u8;
    write_stamp(t, version, expiry);
    write_padded(key, &mut t[KEY_AT..FIELD_AT]);
    write_padded(field, &mut t[FIELD_AT..VALUE_AT]);
    write_padded(value, &mut t[VALUE_AT..SLOT_SIZE]);
}

// Puts an entry into slot i: an empty slot, or over the entry that it replaces.
pub fn put(
    store: &mut [u8],
    i: usize,
    key: &[u8],
    field: &[u8],
    value: &[u8],
    version: u64,
    expiry: Option<u64>,
)
    requires { Placeable store.old i (entry key.now field.now value.now version expiry) }
    ensures { let e = entry key.now field.now value.now version expiry in
        Holds store.new (with_slot i (Some e) (decode store.old)) }
{
    write_entry(
        &mut store[slot::place(i)],
        key,
        field,
        value,
        version,
        expiry,
    );
}

// Writes the version and the expiry of the entry in slot i anew.
pub fn restamp(store: &mut [u8], i: usize, version: u64, expiry: Option<u64>)
    requires { (Held store.old i) × (version ≤ version_most) × (instant_of expiry ≤ time_limit) }
    ensures { let before = decode store.old in
        Holds store.new (with_slot i (Some (stamped version expiry (entry_at before.slots i))) before) }
{
    write_stamp(&mut store[slot::place(i)], version, expiry);
}
