// The feeder's state: a fresh one, and whether feeding leaves a given one.
ghost use Rattle.std.specs.Prelude.{◌≡◌, length};
ghost use Rattle.wire.specs.Bytes.{same};
ghost use Rattle.feeder.specs.Stream.{divide};
ghost use Rattle.feeder.specs.State.{waiting_most, fresh, is_left};

use crate::Feeder;
use crate::record::{Head, Joined};
use wire::bytes::all_zero;

// The most bytes that wait.
pub const WAITING_MOST: usize = 1035;

// Whether bytes, read alone, all wait.
#[tactic(auto, using(crate::proofs::StateLeft::none_waits, crate::proofs::StateLeft::head_waits, crate::proofs::StateLeft::head_tells))]
fn all_wait(s: &[u8]) -> bool
    ensures { result ≡ same (divide s.now).rest s.now }
{
    if s.is_empty() {
        return true;
    }
    let bytes = Joined {
        waiting: s,
        piece: &s[..0],
    };
    let head = bytes.head_at(0);
    matches!(head, Head::Wait)
}

impl Feeder {
    // A state with no byte waiting.
    pub fn fresh() -> Feeder
        ensures { result ≡ fresh }
    {
        Feeder {
            waiting: [0u8; WAITING_MOST],
            count: 0,
        }
    }

    // Whether feeding leaves this state.
    pub fn is_left(&self) -> bool
        ensures { result ≡ is_left self.now }
    {
        if WAITING_MOST < self.count {
            return false;
        }
        if !all_zero(&self.waiting[self.count..]) {
            return false;
        }
        all_wait(&self.waiting[..self.count])
    }
}
