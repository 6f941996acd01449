// Taking bytes: up to the first record completed, which is done, the piece's end or 65,536 bytes.
ghost use Rattle.std.specs.Prelude.{◌≡◌, true, ◌++◌, ◌+◌, ◌≤◌, ◌<◌, length, take, drop, Ok};
ghost use Rattle.std.specs.Prelude.{Some};
ghost use Rattle.wire.specs.Replies.{laid_over};
ghost use Rattle.store.specs.Store.{well_formed};
ghost use Rattle.commands.specs.Refusal.{buffer_least};
ghost use Rattle.commands.specs.Promises.{Replied};
ghost use Rattle.feeder.specs.Record.{command_at, record_of};
ghost use Rattle.feeder.specs.State.{waiting_most, state_of, fresh, waiting_in, is_left};
ghost use Rattle.feeder.specs.Absorb.{offered, absorb};
ghost use Rattle.feeder.specs.Feed.{doing, answering};
ghost use Rattle.feeder.specs.Promises.{Completing, fed_for, joined};

use crate::record::{CLOCK_AT, COMMAND_AT, Joined, LENGTH_AT, RECORD_MOST};
use crate::scan::Stop;
use crate::state::WAITING_MOST;
use crate::{Absorbed, Feeder};
use commands::Executed;
use commands::execute::execute;
use wire::bytes::{clear, copy, read_le};

// The most bytes of a piece that a call uses.
const USED_MOST: usize = 65536;

// The bytes of a piece that a call looks at.
#[tactic(auto, using(crate::proofs::Absorbing::offer_all, crate::proofs::Absorbing::offer_some))]
fn offer(piece: &[u8]) -> &[u8]
    ensures { result.now ≡ offered piece.now }
{
    if USED_MOST < piece.len() {
        return &piece[..USED_MOST];
    }
    piece
}

// Lays a piece after the first bytes of `out`.
#[tactic(auto, using(crate::proofs::Absorbing::appended))]
fn append(out: &mut [u8], count: usize, piece: &[u8])
    requires { count + length piece.now ≤ length out.old }
    ensures { out.new ≡ laid_over (take count out.old ++ piece.now) out.old }
{
    copy(piece, &mut out[count..]);
}

// Does the record at the start of bytes, with a command of so many: writes its reply.
fn do_record(bytes: &[u8], size: usize, store: &mut [u8], reply: &mut [u8]) -> Executed
    requires size_in_bounds { command_at + size ≤ length bytes.now }
    requires store_value { (well_formed store.old ≡ true) × (buffer_least ≤ length reply.old) }
    ensures { let done = doing (Some (record_of size bytes.now)) store.old in
        Replied done store.new reply.old reply.new result }
{
    let clock = read_le(&bytes[CLOCK_AT..LENGTH_AT]);
    let end = COMMAND_AT + size;
    execute(clock, &bytes[COMMAND_AT..end], store, reply)
}

impl Joined<'_> {
    // Lays the bytes from a place on over the start of `out`.
    #[tactic(auto, using(crate::proofs::Absorbing::gather_early))]
    fn gather(&self, at: usize, out: &mut [u8])
        requires { let end = length (joined self.now) in
            (at ≤ end) × (end ≤ at + length out.old) }
        ensures { out.new ≡ laid_over (drop at (joined self.now)) out.old }
    {
        let count = self.waiting.len();
        if count <= at {
            let start = at - count;
            copy(&self.piece[start..], out);
            return;
        }
        copy(&self.waiting[at..], out);
        let next = count - at;
        copy(self.piece, &mut out[next..]);
    }

    // Joins a record that starts in the waiting bytes, and does it.
    fn do_joined(&self, at: usize, size: usize, store: &mut [u8], reply: &mut [u8]) -> Executed
        requires completing { let waiting = self.now.waiting.now in
            Completing waiting self.now.piece.now at size × (at < length waiting) }
        requires store_value { (well_formed store.old ≡ true) × (buffer_least ≤ length reply.old) }
        ensures { let done = doing (Some (record_of size (drop at (joined self.now)))) store.old in
            Replied done store.new reply.old reply.new result }
    {
        let end = at + (COMMAND_AT + size) - self.waiting.len();
        let sent = Joined {
            waiting: self.waiting,
            piece: &self.piece[..end],
        };
        let mut record = [0u8; RECORD_MOST];
        sent.gather(at, &mut record);
        do_record(&record, size, store, reply)
    }

    // Does the record at a place, with a command of so many bytes.
    fn complete(&self, at: usize, size: usize, store: &mut [u8], reply: &mut [u8]) -> Executed
        requires completing { Completing self.now.waiting.now self.now.piece.now at size }
        requires store_value { (well_formed store.old ≡ true) × (buffer_least ≤ length reply.old) }
        ensures { let done = doing (Some (record_of size (drop at (joined self.now)))) store.old in
            Replied done store.new reply.old reply.new result }
    {
        let count = self.waiting.len();
        if count <= at {
            let from = at - count;
            return do_record(&self.piece[from..], size, store, reply);
        }
        self.do_joined(at, size, store, reply)
    }
}

impl Feeder {
    // Clears the bytes that wait.
    #[tactic(auto, using(crate::proofs::Absorbing::forgotten, crate::proofs::StateLeft::left_state))]
    fn forget(&mut self)
        requires { is_left self.old ≡ true }
        ensures { self.new ≡ fresh }
    {
        let count = self.count;
        self.count = 0;
        clear(&mut self.waiting[..count]);
    }

    // Leaves waiting what is left from a place on, where a piece completes no record.
    #[tactic(auto, using(crate::proofs::Absorbing::kept_all, crate::proofs::Absorbing::kept_rest, crate::proofs::StateLeft::left_state))]
    fn keep(&mut self, piece: &[u8], at: usize)
        requires count_value { is_left self.old ≡ true }
        requires at_bound { let end = self.old.count + length piece.now in
            (at ≤ end) × (end ≤ at + waiting_most) }
        ensures { self.new ≡ state_of (drop at (waiting_in self.old ++ piece.now)) }
    {
        let count = self.count;
        self.count = count + piece.len() - at;
        if at == 0 {
            append(&mut self.waiting, count, piece);
            return;
        }
        let bytes = Joined {
            waiting: &self.waiting[..count],
            piece,
        };
        let mut rest = [0u8; WAITING_MOST];
        bytes.gather(at, &mut rest);
        copy(&rest, &mut self.waiting);
    }

    // Takes bytes of a piece, and does the record that they complete.
    #[tactic(auto, using(crate::proofs::Absorbing::absorbs))]
    pub fn absorb(&mut self, piece: &[u8], store: &mut [u8], reply: &mut [u8]) -> Absorbed
        requires count_value { is_left self.old ≡ true }
        requires store_value { (well_formed store.old ≡ true) × (buffer_least ≤ length reply.old) }
        ensures { record { fed = fed_for (Ok result) self.new; store = store.new; buffer = reply.new }
            ≡ answering (absorb (waiting_in self.old) piece.now) store.old reply.old }
    {
        let offered = offer(piece);
        let count = self.count;
        let bytes = Joined {
            waiting: &self.waiting[..count],
            piece: offered,
        };
        match bytes.first_stop() {
            Stop::Record(at, size) => {
                let done = bytes.complete(at, size, store, reply);
                let end = at + (COMMAND_AT + size);
                self.forget();
                Absorbed {
                    used: end - count,
                    skipped: at,
                    replied: done.replied,
                }
            }
            Stop::Rest(from) => {
                self.keep(offered, from);
                Absorbed {
                    used: offered.len(),
                    skipped: from,
                    replied: 0,
                }
            }
        }
    }
}
