// What is done with the fields of a key. `fields` are the words that name them.
ghost use Rattle.std.specs.Prelude.{◌≡◌, true, ◌+◌, ◌≤◌, length};
ghost use mathlib.Core.List.{flatten};
ghost use Rattle.wire.specs.Replies.{array};
ghost use Rattle.wire.specs.Promises.{Laid};
ghost use Rattle.store.specs.Store.{decode, well_formed, entry_at};
ghost use Rattle.store.specs.Promises.{Held, Holds};
ghost use Rattle.commands.specs.Refusal.{buffer_least};
ghost use Rattle.commands.specs.Command.Command.{get_many, delete};
ghost use Rattle.commands.specs.Effect.{listed};
ghost use Rattle.commands.specs.Execute.{run_on};
ghost use Rattle.commands.specs.ParsePromises.{command_for};
ghost use Rattle.commands.specs.Promises.{WithinLimits, Does, FieldsReady, answer_most, answer_about, answers_of, listed_of, Removes, Deletes, width_of};

use crate::act::sweep;
use crate::answer::put_answer;
use crate::pairs::set_many;
use crate::{Asking, KeyDeed, Listing, Question};
use store::{SoughtKey, change, find, read};
use wire::replies::{put_bulk, put_header, put_number};
use wire::words::{WORDS_MOST, Words};

// The reply to a question about one field, found by its name.
fn put_field(
    bytes: &[u8],
    asking: Asking,
    key: &[u8],
    field: &[u8],
    hint: usize,
    out: &mut [u8],
) -> usize
    requires { (well_formed bytes.now ≡ true) × (answer_most ≤ length out.old) }
    ensures { let answer = answer_about asking.time bytes.now key.now asking.question field.now in
        Laid answer out.old out.new result }
{
    let found = find::named_near(bytes, key, field, hint);
    let question = asking.question;
    put_answer(bytes, question, key, field, found, asking.time, out)
}

// The answer about each of some fields.
fn put_answers(
    fields: &Words<'_>,
    bytes: &[u8],
    asking: Asking,
    key: &[u8],
    hints: &[usize; WORDS_MOST],
    out: &mut [u8],
) -> usize
    requires { let answers = answers_of asking.time bytes.now key.now asking.question fields.now in
        (well_formed bytes.now ≡ true)
        × (answer_most + length (flatten answers) ≤ length out.old) }
    ensures { let fs = fields.now in
        let answers = answers_of asking.time bytes.now key.now asking.question fs in
        Laid (flatten answers) out.old out.new result }
{
    let mut at = 0;
    for i in 0..fields.len() {
        let field = fields.word(i);
        at = put_field(bytes, asking, key, field, hints[i], &mut out[at..]) + at;
    }
    at
}

// EXHMGET and EXHMGETWITHVER: an array of these answers.
fn get_many(
    fields: &Words<'_>,
    bytes: &mut [u8],
    question: Question,
    key: &[u8],
    time: u64,
    out: &mut [u8],
) -> usize
    requires { FieldsReady fields.now bytes.old out.old }
    ensures { let c = get_many key.now fields.now question in
        Does (run_on time c (decode bytes.old)) bytes.new out.old out.new result }
{
    let hints = sweep::<1>(fields, bytes, key, time);
    let at = put_header(fields.len() as u64, out);
    let asking = Asking { question, time };
    put_answers(fields, bytes, asking, key, &hints, &mut out[at..]) + at
}

// Removes the entry of a key and a field, and answers how many that was.
fn remove_field(bytes: &mut [u8], key: &[u8], field: &[u8], hint: usize) -> u64
    requires { well_formed bytes.old ≡ true }
    ensures { Removes key.now field.now (decode bytes.old) bytes.new result }
{
    let found = find::named_near(bytes, key, field, hint);
    let Some(i) = found else {
        return 0;
    };
    change::remove(bytes, i);
    1
}

// Removes the entries of a key and some fields, and answers how many that were.
fn remove_fields(
    fields: &Words<'_>,
    bytes: &mut [u8],
    key: &[u8],
    hints: &[usize; WORDS_MOST],
) -> u64
    requires { well_formed bytes.old ≡ true }
    ensures { let fs = fields.now in
        Deletes key.now fs (decode bytes.old) bytes.new result }
{
    let mut n = 0;
    for i in 0..fields.len() {
        n += remove_field(bytes, key, fields.word(i), hints[i]);
    }
    n
}

// EXHDEL.
fn delete(fields: &Words<'_>, bytes: &mut [u8], key: &[u8], time: u64, out: &mut [u8]) -> usize
    requires { FieldsReady fields.now bytes.old out.old }
    ensures { let c = delete key.now fields.now in
        Does (run_on time c (decode bytes.old)) bytes.new out.old out.new result }
{
    let hints = sweep::<1>(fields, bytes, key, time);
    let n = remove_fields(fields, bytes, key, &hints);
    put_number(n, out)
}

// How many elements a listing shows of an entry.
#[tactic(auto, unfolding(crate::specs::Promises::width_of))]
fn width(listing: Listing) -> u64
    ensures { result ≡ width_of listing }
{
    match listing {
        Listing::Fields | Listing::Values => 1,
        Listing::Both => 2,
    }
}

// What a listing shows of the entry in slot i.
fn put_entry(bytes: &[u8], listing: Listing, i: usize, out: &mut [u8]) -> usize
    requires { let shown = flatten (listed listing (entry_at (decode bytes.now).slots i)) in
        (Held bytes.now i) × (length shown ≤ length out.old) }
    ensures { let shown = flatten (listed listing (entry_at (decode bytes.now).slots i)) in
        Laid shown out.old out.new result }
{
    match listing {
        Listing::Fields => put_bulk(read::field(bytes, i), out),
        Listing::Values => put_bulk(read::value(bytes, i), out),
        Listing::Both => {
            let at = put_bulk(read::field(bytes, i), out);
            put_bulk(read::value(bytes, i), &mut out[at..]) + at
        },
    }
}

// What a listing shows of the live entries of a key, in slot order.
fn put_listed(bytes: &[u8], listing: Listing, key: &[u8], time: u64, out: &mut [u8]) -> usize
    requires { (well_formed bytes.now ≡ true) × (length (flatten (listed_of time bytes.now key.now listing)) ≤ length out.old) }
    ensures { let shown = flatten (listed_of time bytes.now key.now listing) in
        Laid shown out.old out.new result }
{
    let sought = SoughtKey::new(key);
    let mut at = 0;
    let mut from = 0;
    while let Some(i) = find::next_live_with(bytes, &sought, time, from) {
        at = put_entry(bytes, listing, i, &mut out[at..]) + at;
        from = i + 1;
    }
    at
}

// An array of these.
fn put_list(bytes: &[u8], listing: Listing, key: &[u8], time: u64, out: &mut [u8]) -> usize
    requires { (well_formed bytes.now ≡ true) × (buffer_least ≤ length out.old) }
    ensures { let shown = array (listed_of time bytes.now key.now listing) in
        Laid shown out.old out.new result }
{
    let count = find::count_live(bytes, key, time) as u64;
    let at = put_header(count * width(listing), out);
    put_listed(bytes, listing, key, time, &mut out[at..]) + at
}

// Does a command on a key and the fields that it names, on a store whose clock is set.
pub fn on_key(
    deed: KeyDeed,
    fields: &Words<'_>,
    bytes: &mut [u8],
    key: &[u8],
    time: u64,
    out: &mut [u8],
) -> usize
    requires { let c = command_for key.now fields.now deed in
        (FieldsReady fields.now bytes.old out.old) × (WithinLimits c) }
    ensures { let c = command_for key.now fields.now deed in
        Does (run_on time c (decode bytes.old)) bytes.new out.old out.new result }
{
    match deed {
        KeyDeed::SetMany => set_many(fields, bytes, key, time, out),
        KeyDeed::GetMany(question) => get_many(fields, bytes, question, key, time, out),
        KeyDeed::Delete => delete(fields, bytes, key, time, out),
        KeyDeed::CountHeld => put_number(find::count_held(bytes, key) as u64, out),
        KeyDeed::CountLive => put_number(find::count_live(bytes, key, time) as u64, out),
        KeyDeed::List(listing) => put_list(bytes, listing, key, time, out),
    }
}
