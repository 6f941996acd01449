// The store: fields in lent bytes. The crates above see what the bytes mean, never the bytes.
#![tactic(auto)]

pub mod change;
pub mod check;
mod duplicates;
pub mod find;
pub mod layout;
mod padding;
pub mod read;
mod slot;

pub use slot::SoughtKey;

// What a search found, and how many bytes it compared.
#[derive(Clone, Copy)]
pub struct Searched {
    pub found: Option<usize>,
    pub compared: usize,
}
