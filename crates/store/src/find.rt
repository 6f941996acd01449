// Searches and counts over the slots of a well-formed store, in ascending order.
ghost use Rattle.std.specs.Prelude.{◌≡◌, Bool, true, ◌≤◌, length};
ghost use Rattle.wire.specs.Bytes.{from_le, part};
ghost use Rattle.wire.specs.Lists.{keep};
ghost use Rattle.store.specs.Store.{Slot, decode, well_formed, holds};
ghost use Rattle.store.specs.Time.{lowest_slot, empty_slot, dead_slot, room_slot, of_key, live_of_key, key_exists};
ghost use Rattle.store.specs.Promises.{lowest_from, searched, searched_within, name_words, Skips, TakesSlots, TellsSlots};

use crate::layout::KEY_AT;
use crate::read::slots;
use crate::{Searched, SoughtKey, slot};

// The lowest slot from a slot on whose field has a fingerprint, else one of the last: none before it has. Two slots are looked at in a turn.
fn next_candidate(store: &[u8], fingerprint: u64, start: usize) -> usize
    requires { well_formed store.now ≡ true }
    ensures { Skips fingerprint start (decode store.now).slots result }
{
    let last = slots(store) - 1;
    let mut i = start;
    while i < last {
        if slot::fingerprint_at(slot::bytes(store, i)) == fingerprint {
            return i;
        }
        if slot::fingerprint_at(slot::bytes(store, i + 1)) == fingerprint {
            return i + 1;
        }
        i += 2;
    }
    i
}

// The search for a key and a field, by their words, among the slots from one up to another. A slot that is empty or of other lengths is skipped; any
// other is compared word by word, and left at the first byte that differs. A match ends the search.
fn search_within(
    store: &[u8],
    words: &[u64],
    key: &[u8],
    field: &[u8],
    from: usize,
    end: usize,
) -> Searched
    requires store_value { well_formed store.now ≡ true }
    requires words_value { words.now ≡ name_words key.now field.now }
    requires end_in_bounds { end ≤ length (decode store.now).slots }
    ensures { result ≡ searched_within from end key.now field.now (decode store.now).slots }
{
    let mut found = None;
    let mut compared = 0;
    'slots: for i in from..end {
        let t = slot::bytes(store, i);
        if slot::Slot::new(t).is_skipped(key, field) {
            continue 'slots;
        }
        for w in 0..slot::NAME_WORDS {
            let held = slot::word(t, KEY_AT + slot::WORD * w);
            let named = words[w];
            if held != named {
                compared += slot::run_start(w, key.len()) + slot::word_compared(held, named);
                continue 'slots;
            }
        }
        compared += key.len() + field.len();
        found = Some(i);
        break 'slots;
    }
    Searched { found, compared }
}

// The slot that holds a key and a field, if any, and how many bytes were compared.
pub fn search(store: &[u8], key: &[u8], field: &[u8]) -> Searched
    requires { well_formed store.now ≡ true }
    ensures { result ≡ searched key.now field.now (decode store.now).slots }
{
    let words = slot::name_words(key, field);
    search_within(store, &words, key, field, 0, slots(store))
}

// The slot that holds a key and a field. Only slots with the field's fingerprint are looked at closely.
pub fn named(store: &[u8], key: &[u8], field: &[u8]) -> Option<usize>
    requires { well_formed store.now ≡ true }
    ensures { result ≡ lowest_slot (holds key.now field.now) (decode store.now).slots }
{
    let count = slots(store);
    let fingerprint = slot::fingerprint_of(field);
    let mut i = next_candidate(store, fingerprint, 0);
    while i < count {
        if slot::Slot::of(store, i).holds_with(fingerprint, key, field) {
            return Some(i);
        }
        i = next_candidate(store, fingerprint, i + 1);
    }
    None
}

// The same by a hint, which may be any number: where its slot holds them, nothing is searched.
pub fn named_near(store: &[u8], key: &[u8], field: &[u8], hint: usize) -> Option<usize>
    requires { well_formed store.now ≡ true }
    ensures { result ≡ lowest_slot (holds key.now field.now) (decode store.now).slots }
{
    if slots(store) <= hint {
        return named(store, key, field);
    }
    let fingerprint = slot::fingerprint_of(field);
    if slot::Slot::of(store, hint).holds_with(fingerprint, key, field) {
        return Some(hint);
    }
    named(store, key, field)
}

// The lowest slot from a slot on that passes a test.
fn lowest<F: Fn(&slot::Slot) -> bool>(store: &[u8], from: usize, test: F) -> Option<usize>
    requires store_value { well_formed store.now ≡ true }
    requires test_takes { TakesSlots (F.pre test) }
    ensures { (p : Slot → Bool) → TellsSlots (F.post test) p → result ≡ lowest_from from p (decode store.now).slots }
{
    for i in from..slots(store) {
        if test(&slot::Slot::of(store, i)) {
            return Some(i);
        }
    }
    None
}

// How many slots pass a test.
fn count<F: Fn(&slot::Slot) -> bool>(store: &[u8], test: F) -> usize
    requires store_value { well_formed store.now ≡ true }
    requires test_takes { TakesSlots (F.pre test) }
    ensures { (p : Slot → Bool) → TellsSlots (F.post test) p → result ≡ length (keep p (decode store.now).slots) }
{
    let mut n = 0;
    for i in 0..slots(store) {
        if test(&slot::Slot::of(store, i)) {
            n += 1;
        }
    }
    n
}

// The lowest empty slot.
pub fn empty(store: &[u8]) -> Option<usize>
    requires { well_formed store.now ≡ true }
    ensures { result ≡ lowest_slot empty_slot (decode store.now).slots }
{
    lowest(store, 0, |t| t.is_empty())
}

// The lowest slot that holds an entry dead at a time.
pub fn dead(store: &[u8], time: u64) -> Option<usize>
    requires { well_formed store.now ≡ true }
    ensures { result ≡ lowest_slot (dead_slot time) (decode store.now).slots }
{
    lowest(store, 0, |t| t.is_dead(time))
}

// The number that the word of a key at a place spells, where the bytes past its end count as zero.
pub fn key_word(key: &[u8], at: usize) -> u64
    ensures { result ≡ from_le (part at 8 key.now) }
{
    slot::word_padded(key, at)
}

// The lowest slot from a slot on that holds an entry of a key live at a time, where the key is looked for more than once.
pub fn next_live_with(store: &[u8], key: &SoughtKey, time: u64, from: usize) -> Option<usize>
    requires { well_formed store.now ≡ true }
    ensures { result ≡ lowest_from from (live_of_key time key.now) (decode store.now).slots }
{
    lowest(store, from, |t| key.is_live(t, time))
}

// The same by the key alone.
pub fn next_live(store: &[u8], key: &[u8], time: u64, from: usize) -> Option<usize>
    requires { well_formed store.now ≡ true }
    ensures { result ≡ lowest_from from (live_of_key time key.now) (decode store.now).slots }
{
    next_live_with(store, &SoughtKey::new(key), time, from)
}

// Whether a key has a live entry.
pub fn key_exists(store: &[u8], key: &[u8], time: u64) -> bool
    requires { well_formed store.now ≡ true }
    ensures { result ≡ key_exists time key.now (decode store.now).slots }
{
    next_live(store, key, time, 0).is_some()
}

// How many slots are empty or dead at a time.
pub fn room(store: &[u8], time: u64) -> usize
    requires { well_formed store.now ≡ true }
    ensures { result ≡ length (keep (room_slot time) (decode store.now).slots) }
{
    count(store, |t| !t.is_live(time))
}

// How many entries of a key are held, dead ones too.
pub fn count_held(store: &[u8], key: &[u8]) -> usize
    requires { well_formed store.now ≡ true }
    ensures { result ≡ length (keep (of_key key.now) (decode store.now).slots) }
{
    let sought = SoughtKey::new(key);
    count(store, |t| sought.is_held(t))
}

// How many entries of a key are live at a time.
pub fn count_live(store: &[u8], key: &[u8], time: u64) -> usize
    requires { well_formed store.now ≡ true }
    ensures { result ≡ length (keep (live_of_key time key.now) (decode store.now).slots) }
{
    let sought = SoughtKey::new(key);
    count(store, |t| sought.is_live(t, time))
}
