//! Threads that turn players, blocks of them with their seats on the board, until each has ended. What a player is, and what it
//! plays, is not known here.
#![tactic(auto)]

mod between;
mod order;
mod patience;
mod player;
mod rounds;
mod seated;
mod seats;
mod signals;
mod threads;

pub use between::{Between, Nothing};
pub use order::turn_in_order;
pub use player::{Floor, Player, Pulse};
pub use seated::Seated;
pub use seats::seat_all;
pub use threads::turn_in_threads;
