// The rule against duplicates: no two slots hold entries of the same key and field.
ghost use Rattle.std.specs.Prelude.{◌≡◌, ◌+◌, ◌^◌, ◌≤◌, ◌<◌, length, drop};
ghost use Rattle.wire.specs.Lists.{any};
ghost use Rattle.store.specs.Layout.{key_most, field_most};
ghost use Rattle.store.specs.Store.{holds};
ghost use Rattle.store.specs.Promises.{slots_of, SlotsWell, halves_at, key_sum, field_sum, name_hash, FilterSize, may_contain, with_name, Turn, Turned};

use crate::layout::{FIELD_AT, KEY_AT, SLOT_SIZE, VALUE_AT};
use crate::slot;
use crate::slot::Slot;
use wire::bytes::read_le;

// The bytes of half a word, and the bound of their number.
const HALF_SIZE: usize = 4;

const HALF: u64 = 0x1_0000_0000;

// Whether a slot from a slot on holds an entry of a key and a field, looked at from the last.
fn named_from(store: &[u8], count: usize, from: usize, key: &[u8], field: &[u8]) -> bool
    requires slots_well { SlotsWell count store.now from }
    requires from_le_count { from ≤ count }
    ensures { result ≡ any (holds key.now field.now) (drop from (slots_of count store.now)) }
{
    for i in (from..count).rev() {
        if Slot::new(slot::bytes(store, i)).holds(key, field) {
            return true;
        }
    }
    false
}

// The bits of two halves of words of a place, as a number below a half's bound.
fn halves(s: &[u8], at: usize, far: usize) -> u64
    requires { (at + 4 ≤ length s.now) × (far + 4 ≤ length s.now) }
    ensures value { result ≡ halves_at at far s.now }
    ensures upper_bound { result < 2 ^ 32 }
{
    let near_end = at + HALF_SIZE;
    let far_end = far + HALF_SIZE;
    (read_le(&s[at..near_end]) ^ read_le(&s[far..far_end])) % HALF
}

// A key's halves as one number, each times an odd factor.
fn key_sum(key: &[u8]) -> u64
    requires { length key.now ≡ key_most }
    ensures value { result ≡ key_sum key.now }
    ensures upper_bound { result < 2 ^ 62 }
{
    halves(key, 0, 8) * 0x11db_208f + halves(key, 4, 12) * 0x1d1c_4bb3
}

// A field's halves as one number.
fn field_sum(field: &[u8]) -> u64
    requires { length field.now ≡ field_most }
    ensures value { result ≡ field_sum field.now }
    ensures upper_bound { result < 2 ^ 63 }
{
    let low = halves(field, 0, 16) * 0x103c_e9df + halves(field, 4, 20) * 0x16de_ceb9;
    let high = halves(field, 8, 24) * 0x1a6b_3c95 + halves(field, 12, 28) * 0x1357_9bdf;
    low + high
}

// A number of a slot's key and field, below a half's bound: the same for the same ones. What is high in their sum is brought down.
fn name_hash(t: &[u8; SLOT_SIZE]) -> u64
    ensures { result ≡ name_hash t.now }
{
    let h = key_sum(&t[KEY_AT..FIELD_AT]) + field_sum(&t[FIELD_AT..VALUE_AT]);
    (h ^ h / 0x8000_0000) % HALF
}

// Inserts a name by two bits of one word, and answers whether both were set before.
fn insert(filter: &mut [u64], name: u64) -> bool
    requires { FilterSize filter.old }
    ensures value { result ≡ may_contain name filter.old }
    ensures filter_after { filter.new ≡ with_name name filter.old }
{
    let i = name as usize & (filter.len() - 1);
    let bits = 1 << (name / 1024 % 64) | 1 << (name / 65536 % 64);
    let old = filter[i];
    let new = old | bits;
    filter[i] = new;
    new == old
}

// Whether a slot after slot i holds an entry of its key and field. They are searched only where both bits of its name were set before; both are
// set afterwards.
pub fn repeats(store: &[u8], count: usize, i: usize, filter: &mut [u64]) -> bool
    requires { Turn count store.now i filter.old }
    ensures { Turned count store.now i filter.old filter.new result }
{
    let t = slot::bytes(store, i);
    let slot = Slot::new(t);
    if slot.is_empty() {
        return false;
    }
    if !insert(filter, name_hash(t)) {
        return false;
    }
    named_from(store, count, i + 1, slot.key(), slot.field())
}
