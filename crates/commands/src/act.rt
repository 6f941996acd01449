// What commands do with an entry of the store: look for it, remove it when dead, put it in its place.
ghost use Rattle.std.specs.Prelude.{◌≡◌, true, [], ◌∷◌, ◌≤◌};
ghost use Rattle.store.specs.Store.{decode, well_formed, entry};
ghost use Rattle.store.specs.Valid.{Fits};
ghost use Rattle.store.specs.Promises.{Holds};
ghost use Rattle.commands.specs.Execute.{swept};
ghost use Rattle.commands.specs.Promises.{Looked, each_first, slot_after, with_put};

use store::{change, find, read};
use wire::words::{WORDS_MOST, Words};

// Looks for the entry of a key and a field. A dead one is removed, so what is found is live.
pub fn look(bytes: &mut [u8], key: &[u8], field: &[u8], time: u64) -> Option<usize>
    requires { well_formed bytes.old ≡ true }
    ensures { let k = key.now in
        let f = field.now in
        (Holds bytes.new (swept time k (f ∷ []) (decode bytes.old))) × (Looked bytes.new k f result) }
{
    let i = find::named(bytes, key, field)?;
    if read::is_live(bytes, i, time) {
        return Some(i);
    }
    change::remove(bytes, i);
    None
}

// Removes the dead entries of a key and some fields, each the first of STEP words, and answers hints: the slot that each has, any where it is missing.
pub fn sweep<const STEP: usize>(
    words: &Words<'_>,
    bytes: &mut [u8],
    key: &[u8],
    time: u64,
) -> [usize; WORDS_MOST]
    requires { (well_formed bytes.old ≡ true) × (1 ≤ STEP) }
    ensures { let fs = each_first STEP words.now in
        Holds bytes.new (swept time key.now fs (decode bytes.old)) }
{
    let mut hints = [0; WORDS_MOST];
    for i in 0..words.len() / STEP {
        let found = look(bytes, key, words.word(STEP * i), time);
        hints[i] = found.unwrap_or(0);
    }
    hints
}

// The slot for an entry: its own, else the lowest empty one, else the lowest dead one.
pub fn slot_for(bytes: &[u8], own: Option<usize>, time: u64) -> Option<usize>
    requires { well_formed bytes.now ≡ true }
    ensures { result ≡ slot_after time own (decode bytes.now).slots }
{
    own.or_else(|| find::empty(bytes))
        .or_else(|| find::dead(bytes, time))
}

// Writes an entry in its place; where there is none for it, nothing changes. `own` is the slot that a look found.
pub fn place(
    bytes: &mut [u8],
    own: Option<usize>,
    key: &[u8],
    field: &[u8],
    value: &[u8],
    version: u64,
    expiry: Option<u64>,
    time: u64,
)
    requires { let e = entry key.now field.now value.now version expiry in
        (Looked bytes.old key.now field.now own) × (well_formed bytes.old ≡ true) × (Fits e) }
    ensures { let e = entry key.now field.now value.now version expiry in
        Holds bytes.new (with_put time e (decode bytes.old)) }
{
    if let Some(i) = slot_for(bytes, own, time) {
        change::put(bytes, i, key, field, value, version, expiry);
    }
}
