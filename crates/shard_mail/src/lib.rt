//! Mailboxes of the shards of a search. Many posters put letters into one mailbox, each under a number of its own, and one
//! taker takes them out. The letters of each sender come in the order in which it posted them, whole and once.
#![tactic(auto)]

mod ends;
mod mailbox;
mod rule;
mod signed;
mod steps;
mod view;

pub use ends::{Poster, Settled, Taker};
pub use mailbox::Mailbox;
pub use signed::Signed;
