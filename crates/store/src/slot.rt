// One slot's 128 bytes: what they mean.
ghost use Rattle.std.specs.Prelude.{◌≡◌, true, false, List, ℕ, ◌+◌, ◌*◌, ◌^◌, ◌<◌, ◌≤◌, length, slice_index};
ghost use Rattle.wire.specs.Bytes.{Bytes, from_le, to_le, part};
ghost use Rattle.store.specs.Layout.{header_size, slot_size, field_at, field_most};
ghost use Rattle.store.specs.Store.{decode_slot, decode_entry, decode_expiry, slot_count, well_formed, holds};
ghost use Rattle.store.specs.Time.{empty_slot, live_slot, dead_slot, of_key, live_of_key};
ghost use Rattle.store.specs.Search.{skipped, run_compared};
ghost use Rattle.store.specs.Promises.{SlotBytes, HeldBytes, slot_at, name_words, run_start, fingerprint_of};

use crate::layout::{
    EMPTY_STATE, EXPIRING_STATE, EXPIRY_AT, FIELD_AT, FIELD_LENGTH_AT, HEADER_SIZE, KEY_AT,
    KEY_LENGTH_AT, SLOT_SIZE, STATE_AT, VALUE_AT, VALUE_LENGTH_AT, VERSION_AT,
};
use std::marker::Model;
use std::ops::Range;
use wire::bytes::{equal, read_le};

// The bytes of a word.
pub const WORD: usize = 8;

// How many words a slot has for the key, and for the key and the field.
const KEY_WORDS: usize = 2;

pub const NAME_WORDS: usize = 6;

// Where the bytes of slot i stand in a store's.
pub fn place(i: usize) -> Range<usize>
    requires { header_size + slot_size * i + slot_size < 2 ^ 64 }
    ensures { let start = header_size + slot_size * i in
        result ≡ record { start = start; end = start + slot_size } }
{
    let start = HEADER_SIZE + SLOT_SIZE * i;
    start..start + SLOT_SIZE
}

// The bytes of slot i.
pub fn bytes(store: &[u8], i: usize) -> &[u8; SLOT_SIZE]
    requires { header_size + slot_size * i + slot_size ≤ length store.now }
    ensures { result.now ≡ part (header_size + slot_size * i) slot_size store.now }
{
    store[place(i)].as_array().unwrap()
}

// The number that a word spells.
pub fn word(s: &[u8], at: usize) -> u64
    requires { at + 8 ≤ length s.now }
    ensures { result ≡ from_le (part at 8 s.now) }
{
    let end = at + WORD;
    read_le(&s[at..end])
}

// The bytes used of the place that begins at `at`, as many as the byte at `length_at` says.
fn used(t: &[u8; SLOT_SIZE], at: usize, length_at: usize) -> &[u8]
    requires length_inside { length_at < length t.now }
    requires used_inside { at + slice_index t.now length_at ≤ length t.now }
    ensures { result.now ≡ part at (slice_index t.now length_at) t.now }
{
    let end = at + t[length_at] as usize;
    &t[at..end]
}

// A slot of a well-formed store, which a clause sees as its bytes.
#[derive(Drop)]
pub struct Slot<'a> {
    bytes: &'a [u8; SLOT_SIZE],
}

impl<'a> Model for Slot<'a> {
    ghost Value = { List ℕ };

    ghost view = { λ s. s.bytes.now };

    ghost invariant = { λ s. SlotBytes s.bytes.now };
}

impl<'a> Slot<'a> {
    pub fn new(t: &'a [u8; SLOT_SIZE]) -> Slot<'a>
        requires { SlotBytes t.now }
        ensures { result ≡ t.now }
    {
        Slot { bytes: t }
    }

    // Slot i of a well-formed store.
    pub fn of(store: &'a [u8], i: usize) -> Slot<'a>
        requires { (well_formed store.now ≡ true) × (i < slot_count store.now) }
        ensures { result ≡ slot_at store.now i }
    {
        Slot::new(bytes(store, i))
    }

    pub fn is_empty(&self) -> bool
        ensures { result ≡ empty_slot (decode_slot self.now) }
    {
        self.bytes[STATE_AT] == EMPTY_STATE
    }

    pub fn version(&self) -> u64
        ensures { result ≡ (decode_entry self.now).version }
    {
        let t = self.bytes;
        read_le(&t[VERSION_AT..EXPIRY_AT])
    }

    pub fn expiry(&self) -> Option<u64>
        ensures { result ≡ decode_expiry self.now }
    {
        let t = self.bytes;
        if t[STATE_AT] == EXPIRING_STATE {
            return Some(read_le(&t[EXPIRY_AT..KEY_AT]));
        }
        None
    }

    // Whether the slot holds an entry that is live at a time.
    pub fn is_live(&self, time: u64) -> bool
        ensures { result ≡ live_slot time (decode_slot self.now) }
    {
        let t = self.bytes;
        if t[STATE_AT] == EMPTY_STATE {
            return false;
        }
        let expires = self.expiry();
        match expires {
            None => true,
            Some(instant) => time < instant,
        }
    }

    // Whether the slot holds an entry that is dead at a time.
    pub fn is_dead(&self, time: u64) -> bool
        ensures { result ≡ dead_slot time (decode_slot self.now) }
    {
        let t = self.bytes;
        if t[STATE_AT] == EMPTY_STATE {
            return false;
        }
        !self.is_live(time)
    }

    pub fn key(&self) -> &'a [u8]
        requires { HeldBytes self.now }
        ensures { result.now ≡ (decode_entry self.now).key }
    {
        used(self.bytes, KEY_AT, KEY_LENGTH_AT)
    }

    pub fn field(&self) -> &'a [u8]
        requires { HeldBytes self.now }
        ensures { result.now ≡ (decode_entry self.now).field }
    {
        used(self.bytes, FIELD_AT, FIELD_LENGTH_AT)
    }

    pub fn value(&self) -> &'a [u8]
        requires { HeldBytes self.now }
        ensures { result.now ≡ (decode_entry self.now).value }
    {
        used(self.bytes, VALUE_AT, VALUE_LENGTH_AT)
    }

    // Whether the slot holds an entry of a key.
    pub fn of_key(&self, k: &[u8]) -> bool
        ensures { result ≡ of_key k.now (decode_slot self.now) }
    {
        let t = self.bytes;
        if t[STATE_AT] == EMPTY_STATE {
            return false;
        }
        equal(self.key(), k)
    }

    // Whether the slot holds the entry of a key and a field. The field is compared first: it is what differs.
    pub fn holds(&self, k: &[u8], f: &[u8]) -> bool
        ensures { result ≡ holds k.now f.now (decode_slot self.now) }
    {
        let t = self.bytes;
        if t[STATE_AT] == EMPTY_STATE {
            return false;
        }
        equal(self.field(), f) && equal(self.key(), k)
    }

    // Whether a search for a key and a field passes over the slot: it is empty or has other lengths.
    pub fn is_skipped(&self, k: &[u8], f: &[u8]) -> bool
        ensures { result ≡ skipped k.now f.now (decode_slot self.now) }
    {
        let t = self.bytes;
        if t[STATE_AT] == EMPTY_STATE {
            return true;
        }
        if t[KEY_LENGTH_AT] as usize != k.len() {
            return true;
        }
        t[FIELD_LENGTH_AT] as usize != f.len()
    }

    // The same as `holds`, by the field's fingerprint first: where the slot has another, nothing else of it is looked at, and where a field of at most
    // a word has the same, nothing else of the field.
    pub fn holds_with(&self, fingerprint: u64, k: &[u8], f: &[u8]) -> bool
        requires { fingerprint ≡ fingerprint_of f.now }
        ensures { result ≡ holds k.now f.now (decode_slot self.now) }
    {
        let t = self.bytes;
        if fingerprint_at(t) != fingerprint {
            return false;
        }
        if WORD < f.len() {
            return self.holds(k, f);
        }
        if t[FIELD_LENGTH_AT] as usize != f.len() {
            return false;
        }
        self.of_key(k)
    }
}

// A key that is looked for in many slots: its bytes, and the two words that they spell in their place.
#[derive(Drop)]
pub struct SoughtKey<'a> {
    bytes: &'a [u8],
    low: u64,
    high: u64,
}

impl<'a> Model for SoughtKey<'a> {
    ghost Value = { List ℕ };

    ghost view = { λ k. k.bytes.now };

    ghost invariant = { λ k. Bytes k.bytes.now × (k.low ≡ from_le (part 0 8 k.bytes.now)) × (k.high ≡ from_le (part 8 8 k.bytes.now)) };
}

impl<'a> SoughtKey<'a> {
    pub fn new(key: &'a [u8]) -> SoughtKey<'a>
        ensures { result ≡ key.now }
    {
        SoughtKey {
            bytes: key,
            low: word_padded(key, 0),
            high: word_padded(key, WORD),
        }
    }

    // Whether a slot holds an entry of the key: by its length, and then by words.
    pub fn is_held(&self, slot: &Slot) -> bool
        ensures { result ≡ of_key self.now (decode_slot slot.now) }
    {
        let t = slot.bytes;
        if t[STATE_AT] == EMPTY_STATE {
            return false;
        }
        if t[KEY_LENGTH_AT] as usize != self.bytes.len() {
            return false;
        }
        let key = &t[KEY_AT..FIELD_AT];
        if word(key, 0) != self.low {
            return false;
        }
        word(key, WORD) == self.high
    }

    // Whether a slot holds an entry of the key that is live at a time.
    pub fn is_live(&self, slot: &Slot, time: u64) -> bool
        ensures { result ≡ live_of_key time self.now (decode_slot slot.now) }
    {
        if slot.is_live(time) {
            return self.is_held(slot);
        }
        false
    }
}

// The number that a word spells, where the bytes past the end count as zero.
pub fn word_padded(s: &[u8], at: usize) -> u64
    ensures { result ≡ from_le (part at 8 s.now) }
{
    let size = s.len();
    if size <= at {
        return 0;
    }
    if size - at < WORD {
        return read_le(&s[at..size]);
    }
    word(s, at)
}

// The words of a key and of a field in their places.
pub fn name_words(k: &[u8], f: &[u8]) -> [u64; NAME_WORDS]
    ensures { result ≡ name_words k.now f.now }
{
    [
        word_padded(k, 0),
        word_padded(k, WORD),
        word_padded(f, 0),
        word_padded(f, WORD),
        word_padded(f, 2 * WORD),
        word_padded(f, 3 * WORD),
    ]
}

// How many bytes of a key of a size and then of the field stand before a word of their places in which they have bytes.
pub fn run_start(w: usize, size: usize) -> usize
    requires { (w < 6) × (size ≤ 16) }
    ensures { result ≡ run_start w size }
{
    if w < KEY_WORDS {
        return WORD * w;
    }
    size + WORD * (w - KEY_WORDS)
}

// How many bytes of two words are compared, low ones first: up to and with the first that differs, or all 8.
pub fn word_compared(x: u64, y: u64) -> usize
    ensures { result ≡ run_compared (to_le 8 x) (to_le 8 y) }
{
    let mut a = x;
    let mut b = y;
    for n in 0..WORD {
        if a % 256 != b % 256 {
            return n + 1;
        }
        a /= 256;
        b /= 256;
    }
    WORD
}

// A number of a field's first 16 bytes: the same for the same field.
pub fn fingerprint_of(f: &[u8]) -> u64
    ensures { result ≡ fingerprint_of f.now }
{
    word_padded(f, 0) ^ word_padded(f, WORD)
}

// The same of a slot's place for the field: that of its field, since zero stands after it.
pub fn fingerprint_at(t: &[u8; SLOT_SIZE]) -> u64
    ensures { result ≡ fingerprint_of (part field_at field_most t.now) }
{
    fingerprint_of(&t[FIELD_AT..VALUE_AT])
}
