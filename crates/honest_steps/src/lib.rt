//! One step of a mode: which of its states a ground transition may leave, and where it leads them, as symbols.
#![tactic(auto)]

mod bits;
mod copies;
mod effects;
mod entering;
mod inside;
mod moving;
mod views;

pub use copies::same_mode;
pub use entering::{entered, forced_steps};
pub use inside::{inner, where_all_hold};
pub use moving::{Move, moved};
pub use views::View;
