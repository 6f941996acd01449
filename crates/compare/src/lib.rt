// Two stores side by side: a listing of what they differ in, and the newer value of one field. Neither store changes.
#![tactic(auto)]

mod check;
mod line;
pub mod listing;
mod live;
pub mod newer;

// What the listing's call answers: 0 or a refusal, and the listing's length.
#[repr(C)]
#[derive(Clone, Copy)]
pub struct Compared {
    pub refusal: u32,
    pub written: usize,
}

// Which store has the newer value, in which of its slots; neither; or the number of the refusal.
#[derive(Clone, Copy)]
pub enum Which {
    First(usize),
    Second(usize),
    Neither,
    Refused(u32),
}

// The same as numbers, and the place of the value in that store's bytes: 0 neither, 1 the first store, 2 the second.
#[repr(C)]
#[derive(Clone, Copy)]
pub struct Place {
    pub refusal: u32,
    pub which: u32,
    pub start: usize,
    pub size: usize,
}

// Whose slots are listed: the first store's, or the second's.
#[derive(Clone, Copy)]
pub enum Pass {
    First,
    Second,
}
