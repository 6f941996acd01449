// One command on a store: its reply, and what the store then holds.
ghost use Rattle.std.specs.Prelude.{◌≡◌, true, ◌≤◌, length, drop};
ghost use Rattle.wire.specs.Words.{word_at};
ghost use Rattle.wire.specs.Promises.{words_in, Inside};
ghost use Rattle.store.specs.Store.{decode, well_formed};
ghost use Rattle.commands.specs.Refusal.{buffer_least};
ghost use Rattle.commands.specs.Command.Command.{on_field};
ghost use Rattle.commands.specs.Execute.{run, exec, exec_bytes};
ghost use Rattle.commands.specs.ParsePromises.{Divided, deed_of, command_for};
ghost use Rattle.commands.specs.Promises.{WithinLimits, Opened, Does, Replied};

use crate::field::on_field;
use crate::key::on_key;
use crate::parse::parse;
use crate::refusal::put_error;
use crate::{Executed, FieldDeed, KeyDeed, Parsed};
use store::change::set_clock;
use store::read::now_at;
use wire::words::{WORDS_MOST, Words, split};

// The least buffer for a reply.
pub const BUFFER_LEAST: usize = 56000;

// Sets the clock, and does a command on one field.
fn run_on_field(
    deed: FieldDeed,
    words: &Words<'_>,
    time: u64,
    bytes: &mut [u8],
    out: &mut [u8],
) -> usize
    requires { let c = on_field (word_at 1 words.now) (word_at 2 words.now) (deed_of (word_at 3 words.now) deed) in
        (Opened time bytes.old out.old) × (WithinLimits c) }
    ensures { let c = on_field (word_at 1 words.now) (word_at 2 words.now) (deed_of (word_at 3 words.now) deed) in
        Does (run time c (decode bytes.old)) bytes.new out.old out.new result }
{
    set_clock(bytes, time);
    let key = words.word(1);
    let field = words.word(2);
    let value = words.word(3);
    on_field(deed, bytes, key, field, value, time, out)
}

// Sets the clock, and does a command on the fields of a key.
fn run_on_key(
    deed: KeyDeed,
    words: &Words<'_>,
    time: u64,
    bytes: &mut [u8],
    out: &mut [u8],
) -> usize
    requires { let c = command_for (word_at 1 words.now) (drop 2 words.now) deed in
        (2 ≤ length words.now) × (Opened time bytes.old out.old) × (WithinLimits c) }
    ensures { let c = command_for (word_at 1 words.now) (drop 2 words.now) deed in
        Does (run time c (decode bytes.old)) bytes.new out.old out.new result }
{
    set_clock(bytes, time);
    let key = words.word(1);
    on_key(deed, &words.after(2), bytes, key, time, out)
}

// Does a command whose words stand at places, and answers the length of its reply.
fn run_words(
    clock: u64,
    command: &[u8],
    places: &[[usize; 2]],
    store: &mut [u8],
    reply: &mut [u8],
) -> usize
    requires command_value { (Inside command.now places.now) × (Divided command.now (words_in command.now places.now)) }
    requires store_value { (well_formed store.old ≡ true) × (buffer_least ≤ length reply.old) }
    ensures { let outcome = exec clock command.now (decode store.old) in
        Does outcome store.new reply.old reply.new result }
{
    let words = Words::new(command, places);
    let time = now_at(store, clock);
    let parsed = parse(&words, clock, time);
    match parsed {
        Ok(Parsed::OnField(deed)) => run_on_field(deed, &words, time, store, reply),
        Ok(Parsed::OnKey(deed)) => run_on_key(deed, &words, time, store, reply),
        Err(refusal) => put_error(refusal, reply),
    }
}

// Does one command: writes its reply, and answers the reply's length.
pub fn execute(clock: u64, command: &[u8], store: &mut [u8], reply: &mut [u8]) -> Executed
    requires { (well_formed store.old ≡ true) × (buffer_least ≤ length reply.old) }
    ensures { let done = exec_bytes clock command.now store.old in
        Replied done store.new reply.old reply.new result }
{
    let mut room = [[0; 2]; WORDS_MOST];
    let count = split(command, &mut room);
    let replied = run_words(clock, command, &room[..count], store, reply);
    Executed { replied }
}
