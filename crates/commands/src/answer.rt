// The reply to a question about one field.
ghost use Rattle.std.specs.Prelude.{◌≡◌, true, [], ◌∷◌, ◌≤◌, length};
ghost use Rattle.std.specs.Prelude.{None, Some};
ghost use Rattle.wire.specs.Replies.{bulk, number, array};
ghost use Rattle.wire.specs.Promises.{Laid};
ghost use Rattle.store.specs.Store.{decode, well_formed, entry_at};
ghost use Rattle.store.specs.Promises.{Held};
ghost use Rattle.commands.specs.Effect.{reply};
ghost use Rattle.commands.specs.Promises.{Looked, time_left_of, no_version_of, answer_most, answer_about};

use crate::{MINUS_ONE, MINUS_TWO, Question};
use store::{find, read};
use wire::integers::Signed;
use wire::replies::{put_bulk, put_header, put_integer, put_nil, put_number};

// What is left of an entry's time, in units of so many ms: -1 where it has no expiry.
fn time_left(expiry: Option<u64>, time: u64, unit: u64) -> Signed
    requires { 1 ≤ unit }
    ensures { result ≡ time_left_of time unit expiry }
{
    match expiry {
        None => MINUS_ONE,
        Some(instant) => Signed::from(instant.saturating_sub(time) / unit),
    }
}

// EXHVER of a missing field: -2 where its key exists, else -1.
fn no_version(bytes: &[u8], key: &[u8], time: u64) -> Signed
    requires { well_formed bytes.now ≡ true }
    ensures { result ≡ no_version_of time key.now (decode bytes.now).slots }
{
    if find::key_exists(bytes, key, time) {
        return MINUS_TWO;
    }
    MINUS_ONE
}

// An array of value and version.
fn put_versioned(bytes: &[u8], i: usize, out: &mut [u8]) -> usize
    requires { (Held bytes.now i) × (answer_most ≤ length out.old) }
    ensures { let e = entry_at (decode bytes.now).slots i in
        Laid (array (bulk e.value ∷ number e.version ∷ [])) out.old out.new result }
{
    let first = put_header(2, out);
    let second = put_bulk(read::value(bytes, i), &mut out[first..]) + first;
    put_number(read::version(bytes, i), &mut out[second..]) + second
}

// The reply where the field is there, in slot i.
fn put_found(bytes: &[u8], question: Question, i: usize, time: u64, out: &mut [u8]) -> usize
    requires { (Held bytes.now i) × (answer_most ≤ length out.old) }
    ensures { let e = entry_at (decode bytes.now).slots i in
        Laid (reply time [] [] question (Some e)) out.old out.new result }
{
    match question {
        Question::Value => put_bulk(read::value(bytes, i), out),
        Question::Length => put_number(read::value(bytes, i).len() as u64, out),
        Question::Exists => put_number(1, out),
        Question::Versioned => put_versioned(bytes, i, out),
        Question::Version => put_number(read::version(bytes, i), out),
        Question::Seconds => put_integer(time_left(read::expiry(bytes, i), time, 1000), out),
        Question::Milliseconds => put_integer(time_left(read::expiry(bytes, i), time, 1), out),
    }
}

// The reply where the field is missing.
fn put_missing(bytes: &[u8], question: Question, key: &[u8], time: u64, out: &mut [u8]) -> usize
    requires { (well_formed bytes.now ≡ true) × (answer_most ≤ length out.old) }
    ensures { let ss = (decode bytes.now).slots in
        Laid (reply time ss key.now question None) out.old out.new result }
{
    match question {
        Question::Value | Question::Versioned => put_nil(out),
        Question::Length | Question::Exists => put_number(0, out),
        Question::Version => put_integer(no_version(bytes, key, time), out),
        Question::Seconds | Question::Milliseconds => put_integer(MINUS_TWO, out),
    }
}

// Writes the reply to a question about a field, and answers its length; `found` is the field's slot.
pub fn put_answer(
    bytes: &[u8],
    question: Question,
    key: &[u8],
    field: &[u8],
    found: Option<usize>,
    time: u64,
    out: &mut [u8],
) -> usize
    requires { (well_formed bytes.now ≡ true) × (Looked bytes.now key.now field.now found) × (answer_most ≤ length out.old) }
    ensures { let x = answer_about time bytes.now key.now question field.now in
        Laid x out.old out.new result }
{
    match found {
        Some(i) => put_found(bytes, question, i, time, out),
        None => put_missing(bytes, question, key, time, out),
    }
}
