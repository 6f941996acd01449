// What of a slot's places lies beyond the bytes used, by words.
ghost use Rattle.std.specs.Prelude.{◌≡◌, ◌+◌, ◌%◌, ◌≤◌, eqb};
ghost use Rattle.store.specs.Layout.{slot_size};
ghost use Rattle.store.specs.Store.{zero_beyond};

use crate::layout::SLOT_SIZE;
use crate::slot::{WORD, word};

// The bits of a place of whole words beyond the bytes used, in one word, which is 0 exactly if those bytes are zero: what is left of the last word where
// the bytes used end there, else the word after them with each word of the place that begins later.
pub fn padding(t: &[u8; SLOT_SIZE], at: usize, size: usize, used: usize) -> u64
    requires at_bound { at + size ≤ slot_size }
    requires size_whole { size % 8 ≡ 0 }
    requires used_bound { used ≤ size }
    ensures { eqb result 0 ≡ zero_beyond at size used t.now }
{
    if size < used + WORD {
        if used == size {
            return 0;
        }
        let last = size - WORD;
        return word(t, at + last) >> (8 * (used - last));
    }
    let mut bits = word(t, at + used);
    for w in 1..size / WORD {
        if used <= WORD * w {
            bits |= word(t, at + WORD * w);
        }
    }
    bits
}
