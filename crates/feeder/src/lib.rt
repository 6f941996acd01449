// The feeder: records from a byte stream that arrives in pieces.
#![tactic(auto)]

mod absorb;
pub mod feed;
mod record;
mod scan;
mod state;

use crate::state::WAITING_MOST;

// The bytes that wait for the rest of a record, and how many they are; the places after them are zero.
#[repr(C)]
#[derive(Clone, Copy)]
pub struct Feeder {
    pub waiting: [u8; WAITING_MOST],
    pub count: usize,
}

// What a feeding call answers: 0 or a refusal, bytes of its piece used, bytes skipped, the reply's length and the new state.
#[repr(C)]
#[derive(Clone, Copy)]
pub struct Fed {
    pub refusal: u32,
    pub used: usize,
    pub skipped: usize,
    pub replied: usize,
    pub feeder: Feeder,
}

// Why a call is refused: a state that no feeding leaves, a store that is not well formed, or a reply buffer that is too small.
#[derive(Clone, Copy, Debug, PartialEq, Eq)]
pub enum Refusal {
    State,
    Store,
    Reply,
}

// What a call on a lent state that is not refused says: bytes of its piece used, bytes skipped and the reply's length.
#[derive(Clone, Copy)]
pub struct Absorbed {
    pub used: usize,
    pub skipped: usize,
    pub replied: usize,
}
