//! What every crate that holds or reads texts shares: lists, texts and boxes that contracts see by value, places in
//! the input files, and the bytes that the readers tell apart.
#![tactic(auto)]

mod boxed;
mod bytes;
mod place;
mod seq;
mod text;

pub use boxed::Boxed;
pub use bytes::{FILE_LIMIT, is_blank, is_digit, leading_blanks};
pub use place::Place;
pub use seq::Seq;
pub use text::Text;
