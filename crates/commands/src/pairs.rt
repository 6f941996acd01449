// EXHMSET: pairs of a field and a value, all of them or none. `pairs` are their words: the field of pair i is word 2 * i.
ghost use Rattle.std.specs.Prelude.{◌≡◌, true, ◌+◌, ◌<◌, ◌*◌, ◌/◌, ltb, length, drop};
ghost use Rattle.wire.specs.Words.{word_at};
ghost use Rattle.store.specs.Store.{decode, well_formed};
ghost use Rattle.store.specs.Promises.{Holds};
ghost use Rattle.commands.specs.Command.Command.{set_many};
ghost use Rattle.commands.specs.Parse.{pairs_of};
ghost use Rattle.commands.specs.Execute.{room, run_on};
ghost use Rattle.commands.specs.Promises.{with_put, WithinLimits, Does, FieldsReady, fields_in, times_in, pair_entry, Pairing, Placing, with_all, survey_of, new_field, Telling};

use crate::act::{place, sweep};
use crate::field::held_version;
use crate::refusal::{Refusal, put_error};
use store::find;
use store::layout::VERSION_MOST;
use wire::bytes::equal;
use wire::replies::put_line;
use wire::words::{WORDS_MOST, Words};

// How often the field of pair i comes again in the pairs after it.
fn repeats(pairs: &Words<'_>, i: usize) -> u64
    requires { i < length pairs.now / 2 }
    ensures { result ≡ times_in (word_at (2 * i) pairs.now) (fields_in (drop (2 * (i + 1)) pairs.now)) }
{
    let count = pairs.len() / 2;
    let field = pairs.word(2 * i);
    let mut n = 0;
    for j in i + 1..count {
        if equal(pairs.word(2 * j), field) {
            n += 1;
        }
    }
    n
}

// The same where it matters: a held field far from the largest version passes it in no case, and is not new.
fn relevant_repeats(pairs: &Words<'_>, i: usize, found: Option<usize>, held: u64) -> u64
    requires { i < length pairs.now / 2 }
    ensures { Telling found held (times_in (word_at (2 * i) pairs.now) (fields_in (drop (2 * (i + 1)) pairs.now))) result }
{
    if found.is_some() && held < VERSION_MOST - pairs.len() as u64 {
        return 0;
    }
    repeats(pairs, i)
}

// 1 where a field is missing and does not come again, else 0.
#[tactic(auto, unfolding(crate::specs::Promises::new_field))]
fn new_field(found: Option<usize>, again: u64) -> usize
    ensures { result ≡ new_field found again }
{
    usize::from(found.is_none() && again == 0)
}

// How many fields the pairs would add, unless a version would pass the largest.
fn survey_pairs(
    pairs: &Words<'_>,
    bytes: &[u8],
    key: &[u8],
    hints: &[usize; WORDS_MOST],
) -> Result<usize, Refusal>
    requires { well_formed bytes.now ≡ true }
    ensures { let fs = fields_in pairs.now in
        result ≡ survey_of key.now fs (decode bytes.now).slots }
{
    let mut n = 0;
    for i in 0..pairs.len() / 2 {
        let found = find::named_near(bytes, key, pairs.word(2 * i), hints[i]);
        let held = held_version(bytes, found);
        let again = relevant_repeats(pairs, i, found, held);
        if VERSION_MOST < held + (again + 1) {
            return Err(Refusal::VersionOverflow);
        }
        n += new_field(found, again);
    }
    Ok(n)
}

// Whether there is no room for n more fields. For none nothing is counted.
fn is_full(bytes: &[u8], n: usize, time: u64) -> bool
    requires { well_formed bytes.now ≡ true }
    ensures { result ≡ ltb (room time (decode bytes.now).slots) n }
{
    if n == 0 {
        return false;
    }
    find::room(bytes, time) < n
}

// Writes one pair.
fn place_pair(bytes: &mut [u8], key: &[u8], field: &[u8], value: &[u8], time: u64, hint: usize)
    requires { Pairing bytes.old key.now field.now value.now }
    ensures { let before = decode bytes.old in
        let own = pair_entry key.now field.now value.now before.slots in
        Holds bytes.new (with_put time own before) }
{
    let own = find::named_near(bytes, key, field, hint);
    let version = held_version(bytes, own) + 1;
    place(bytes, own, key, field, value, version, None, time);
}

// Writes all pairs, where no version passes its largest.
fn place_pairs(
    pairs: &Words<'_>,
    bytes: &mut [u8],
    key: &[u8],
    time: u64,
    hints: &[usize; WORDS_MOST],
)
    requires { let ps = pairs_of pairs.now in
        Placing time key.now ps bytes.old }
    ensures { let ps = pairs_of pairs.now in
        Holds bytes.new (with_all time key.now ps (decode bytes.old)) }
{
    for i in 0..pairs.len() / 2 {
        let field = pairs.word(2 * i);
        let value = pairs.word(2 * i + 1);
        place_pair(bytes, key, field, value, time, hints[i]);
    }
}

// EXHMSET.
pub fn set_many(pairs: &Words<'_>, bytes: &mut [u8], key: &[u8], time: u64, out: &mut [u8]) -> usize
    requires { let c = set_many key.now (pairs_of pairs.now) in
        (FieldsReady pairs.now bytes.old out.old) × (WithinLimits c) }
    ensures { let c = set_many key.now (pairs_of pairs.now) in
        Does (run_on time c (decode bytes.old)) bytes.new out.old out.new result }
{
    let hints = sweep::<2>(pairs, bytes, key, time);
    let survey = survey_pairs(pairs, bytes, key, &hints);
    match survey {
        Err(refusal) => put_error(refusal, out),
        Ok(n) => {
            if is_full(bytes, n, time) {
                put_error(Refusal::StoreFull, out)
            } else {
                place_pairs(pairs, bytes, key, time, &hints);
                put_line(b"+OK", out)
            }
        },
    }
}
