// The refusals of both calls.
ghost use Rattle.std.specs.Prelude.{◌≡◌, true, ◌||◌, leb, ltb};
ghost use Rattle.wire.specs.Checks.{first_applying};
ghost use Rattle.store.specs.Layout.{time_limit};
ghost use Rattle.store.specs.Store.{clock_of, well_formed};
ghost use Rattle.compare.specs.Calls.{checks};
ghost use Rattle.compare.specs.Promises.{refusal_number, refused_as};

use store::check::well_formed;
use store::layout::TIME_LIMIT;
use store::read::clock;

// Why a call is refused: a store is not well formed, the instant is earlier than a clock or too late, or the output is too short.
#[derive(Clone, Copy)]
pub enum Refusal {
    Damaged,
    InstantOutOfRange,
    OutputShort,
}

impl Refusal {
    // Its number in the C interface.
    #[tactic(auto, unfolding(crate::specs::Promises::refusal_number))]
    pub fn number(self) -> u32
        ensures { result ≡ refusal_number self }
    {
        match self {
            Refusal::Damaged => 2,
            Refusal::OutputShort => 3,
            Refusal::InstantOutOfRange => 11,
        }
    }
}

// Whether an instant lies before a store's clock, or beyond the last instant.
fn out_of_range(first: &[u8], second: &[u8], instant: u64) -> bool
    requires { (well_formed first.now ≡ true) × (well_formed second.now ≡ true) }
    ensures { result ≡ (ltb instant (clock_of first.now) || (ltb instant (clock_of second.now) || leb time_limit instant)) }
{
    if instant < clock(first) {
        return true;
    }
    if instant < clock(second) {
        return true;
    }
    TIME_LIMIT <= instant
}

// What both calls check.
pub fn check_call(first: &[u8], second: &[u8], instant: u64) -> Result<(), Refusal>
    ensures { refused_as result ≡ first_applying (checks first.now second.now instant) }
{
    if !well_formed(first) || !well_formed(second) {
        return Err(Refusal::Damaged);
    }
    if out_of_range(first, second, instant) {
        return Err(Refusal::InstantOutOfRange);
    }
    Ok(())
}
