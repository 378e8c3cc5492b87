//! Tests of what the shards of a search share, in threads of their own.
#![tactic(auto)]

#[cfg(test)]
mod boards;
mod letters;
#[cfg(test)]
mod mails;
#[cfg(test)]
mod numbers;

pub use letters::Letter;
