// One feeding call: refusals 1 to 3, then the bytes taken and the record done. It asks nothing, so it answers and never traps, whatever state, piece,
// store and buffer it gets: damage is refused by number.
ghost use Rattle.std.specs.Prelude.{◌≡◌};
ghost use Rattle.wire.specs.Checks.{first_applying};
ghost use Rattle.feeder.specs.Feed.{checks, feed};
ghost use Rattle.feeder.specs.Promises.{number_of, refused_by, fed_for};

use crate::{Absorbed, Fed, Feeder, Refusal};
use commands::execute::BUFFER_LEAST;
use store::check::well_formed;

impl From<Refusal> for u32 {
    ghost from_gives = { λ refusal number. number ≡ number_of refusal };

    fn from(refusal: Refusal) -> u32 {
        match refusal {
            Refusal::State => 1,
            Refusal::Store => 2,
            Refusal::Reply => 3,
        }
    }
}

impl Feeder {
    // The first refusal that applies.
    #[tactic(auto, using(crate::proofs::OneFeed::which_applies))]
    fn check(&self, store: &[u8], reply: &[u8]) -> Result<(), Refusal>
        ensures { refused_by result ≡ first_applying (checks self.now store.now reply.now) }
    {
        if !self.is_left() {
            return Err(Refusal::State);
        }
        if !well_formed(store) {
            return Err(Refusal::Store);
        }
        if reply.len() < BUFFER_LEAST {
            return Err(Refusal::Reply);
        }
        Ok(())
    }

    // One call on a lent state, which is not copied. A refused call takes nothing, and the state stays.
    #[tactic(auto, using(crate::proofs::OneFeed::refused_call, crate::proofs::OneFeed::fed_call))]
    pub fn feed_lent(
        &mut self,
        piece: &[u8],
        store: &mut [u8],
        reply: &mut [u8],
    ) -> Result<Absorbed, Refusal>
        ensures { record { fed = fed_for result self.new; store = store.new; buffer = reply.new }
            ≡ feed self.old piece.now store.old reply.old }
    {
        self.check(store, reply)?;
        Ok(self.absorb(piece, store, reply))
    }

    // What a call answers, where one on this state, lent, answers `taken`.
    #[inline(always)]
    pub fn answer(self, taken: Result<Absorbed, Refusal>) -> Fed
        ensures { result ≡ fed_for taken self }
    {
        let (refusal, absorbed) = match taken {
            Ok(absorbed) => (0, absorbed),
            Err(refusal) => (
                u32::from(refusal),
                Absorbed {
                    used: 0,
                    skipped: 0,
                    replied: 0,
                },
            ),
        };
        Fed {
            refusal,
            used: absorbed.used,
            skipped: absorbed.skipped,
            replied: absorbed.replied,
            feeder: self,
        }
    }

    // One call: takes bytes of a piece, and does the record that they complete.
    pub fn feed(mut self, piece: &[u8], store: &mut [u8], reply: &mut [u8]) -> Fed
        ensures { record { fed = result; store = store.new; buffer = reply.new }
            ≡ feed self piece.now store.old reply.old }
    {
        let taken = self.feed_lent(piece, store, reply);
        self.answer(taken)
    }
}
