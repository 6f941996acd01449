// Numbers and words: what bytes spell.
#![tactic(auto)]

pub mod bytes;
pub mod integers;
pub mod names;
pub mod replies;
pub mod words;
